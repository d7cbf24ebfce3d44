//! A full audit is confirmed by its file.

ghost use Rattle.std.specs.Prelude.{◌≡◌, ◌≤◌, ◌<◌, ℕ, true, IfOk, IsTrue, length, slice_index};
ghost use Rattle.dms_base.specs.Causes.{HasCause};
ghost use Rattle.dms_audfile.specs.Counting.{CountedAt};
ghost use Rattle.dms_audfile.specs.Gates.{is_full};
ghost use Rattle.dms_runtop.specs.Full.{IsOfFull, PassesAtFull};
ghost use Rattle.dms_moments.specs.Moments.{Steps};
ghost use Rattle.dms_site.specs.Files.{Same};

use dms_site::{Failed, Site};
use dms_status::{LimitKind, Status};

/// Whether all these gates are open.
fn are_open(gates: &[u8]) -> bool
    ensures { IsTrue result → (i : ℕ) → i < length gates.now → slice_index gates.now i ≡ 1 }
{
    for gate in gates {
        if *gate != 1 {
            return false;
        }
    }
    true
}

/// Whether all gates of an audit file of so many blocks are open.
fn is_full<S: Site>(site: &mut S, file: u32, total: u32) -> Result<bool, Failed>
    requires few { total ≤ 512 }
    ensures full { IfOk result (λ b. IsTrue b → IsTrue S.tells → is_full total (S.files site.old file) ≡ true) }
    ensures files { IsTrue S.tells → S.files site.new ≡ S.files site.old }
    ensures said { S.said site.new ≡ S.said site.old }
    ensures same_site { S.same_site site.old site.new }
    ensures moments { Steps Same (S.clock site.old) (S.clock site.new) }
    ensures faults { HasCause (S.disk_faults site.old) (S.disk_faults site.new) result }
    ensures say_faults { S.say_faults site.new ≡ S.say_faults site.old }
{
    let mut gates = [0u8; 512];
    let count = site.read(file, 512, &mut gates)?;
    Ok(total as usize <= count && are_open(&gates[..total as usize]))
}

/// The status where the audit of a trail, which begins with file `first` and has `total` blocks a file, had no room up to audit file `limit`:
/// that file is looked at. Where it isn't full, which no run comes to, that counts as want of memory.
pub(crate) fn status_of_full<S: Site>(site: &mut S, first: u32, total: u32, limit: u32) -> Status
    requires few { total ≤ 512 }
    ensures passes { PassesAtFull S.Site total first result site.new }
    ensures kind { IsOfFull limit result }
    ensures files { IsTrue S.tells → S.files site.new ≡ S.files site.old }
    ensures said { S.said site.new ≡ S.said site.old }
    ensures same_site { S.same_site site.old site.new }
    ensures moments { Steps Same (S.clock site.old) (S.clock site.new) }
    ensures disk { CountedAt (result ≡ Status.DiskFault) (S.disk_faults site.old) (S.disk_faults site.new) }
    ensures say_faults { S.say_faults site.new ≡ S.say_faults site.old }
{
    let Some(file) = limit.checked_add(10_000) else {
        return Status::Memory;
    };
    if file < first {
        return Status::Limit(LimitKind::AuditFile(limit));
    }
    match is_full(site, file, total) {
        Ok(true) => Status::Limit(LimitKind::AuditFile(limit)),
        Ok(false) => Status::Memory,
        Err(_) => Status::DiskFault,
    }
}
