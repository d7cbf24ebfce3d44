//! `print audit`.

ghost use Rattle.std.specs.Prelude.{◌≡◌, ◌≢◌, ◌↔◌, map, string_bytes, IsTrue};
ghost use Rattle.dms_top.specs.Auditing.{AuditDoes, audit_status};
ghost use Rattle.dms_audfile.specs.Counting.{CountedAt};
ghost use Rattle.dms_top.specs.Words.{IsPrintAudit, IsUntouched};

use dms_audfile::AudFault;
use dms_audprint::{PrintFault, print_audit};
use dms_site::Site;
use dms_status::{NeedFault, Status};
use std::alloc::Global;

/// Whether the words are `print audit`.
pub fn is_print_audit(words: &[String]) -> bool
    ensures { IsTrue result ↔ IsPrintAudit (map string_bytes words.now) }
{
    words.len() == 2 && words[0].as_str() == "print" && words[1].as_str() == "audit"
}

/// The status behind printing the audit.
fn status_of(printed: Result<(), PrintFault>) -> Status
    ensures { result ≡ audit_status printed }
{
    match printed {
        Ok(()) => Status::Ok,
        Err(PrintFault::Audit(AudFault::NoDatabase)) => Status::NoDatabase,
        Err(PrintFault::Audit(AudFault::Disk)) => Status::DiskFault,
        Err(PrintFault::Audit(AudFault::Missing(number))) => {
            Status::Needed(NeedFault::AuditMissing(number))
        }
        Err(PrintFault::Audit(AudFault::Unsealed(number))) => {
            Status::Needed(NeedFault::AuditUnsealed(number))
        }
        Err(PrintFault::Audit(AudFault::Foreign(number))) => {
            Status::Needed(NeedFault::AuditForeign(number))
        }
        Err(PrintFault::Audit(AudFault::Damaged(file, block))) => Status::Damaged(file, block),
        Err(PrintFault::Audit(AudFault::Full(_))) => Status::Memory,
        Err(PrintFault::Audit(AudFault::Memory)) => Status::Memory,
        Err(PrintFault::Say) => Status::SayFault,
    }
}

/// `print audit`: prints a line for each sealed entry of the audit trail, in order. It changes no file.
pub fn print_trail<S: Site>(alloc: Global, site: &mut S) -> Status
    ensures does { AuditDoes S.Site site.old site.new result }
    ensures words { result ≢ Status.BadWords }
    ensures untouched { IsUntouched result → site.new ≡ site.old }
    ensures disk { CountedAt (result ≡ Status.DiskFault) (S.disk_faults site.old) (S.disk_faults site.new) }
    ensures say { CountedAt (result ≡ Status.SayFault) (S.say_faults site.old) (S.say_faults site.new) }
    ensures input { result ≢ Status.InputFault }
    ensures same_site { S.same_site site.old site.new }
{
    let printed = print_audit(alloc, site);
    status_of(printed)
}
