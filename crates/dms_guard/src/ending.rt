//! The status that each fault of an opening ends with.

ghost use Rattle.std.specs.Prelude.{◌≡◌};
ghost use Rattle.dms_guard.specs.Faults.{audit_damaged_status, damaged_status, open_status, refusal_status};

use dms_audfile::AudFault;
use dms_opening::{OpenFault, OpenRefusal};
use dms_status::{LimitKind, NeedFault, Status};

/// The last number of a file that is no structure file.
const LAST_OTHER_FILE: u32 = 30_000;

/// The number of the last structure file that a database may have.
const LAST_STRUCTURE_FILE: u32 = 30_200;

/// The status that a damaged block ends with. Only blocks of structure files are found damaged while a script runs, and missing before it; where another file
/// were named, that counts as want of memory.
pub fn status_of_damage(file: u32, block: u32) -> Status
    ensures { result ≡ damaged_status file block }
{
    if file > LAST_OTHER_FILE && file <= LAST_STRUCTURE_FILE {
        Status::Damaged(file, block)
    } else {
        Status::Memory
    }
}

/// The status that a damaged block ends an opening with. Only blocks of audit files and dumps are found damaged then; where a structure file were named, that
/// counts as want of memory.
fn status_of_audit_damage(file: u32, block: u32) -> Status
    ensures { result ≡ audit_damaged_status file block }
{
    if file <= LAST_OTHER_FILE {
        Status::Damaged(file, block)
    } else {
        Status::Memory
    }
}

/// The status that a fault of an opening ends with.
pub fn status_of_open(fault: OpenFault) -> Status
    ensures { result ≡ open_status fault }
{
    match fault {
        OpenFault::Audit(AudFault::NoDatabase) => Status::NoDatabase,
        OpenFault::Audit(AudFault::Disk) => Status::DiskFault,
        OpenFault::Audit(AudFault::Full(file)) => Status::Limit(LimitKind::AuditFile(file)),
        OpenFault::Audit(AudFault::Missing(file)) => Status::Needed(NeedFault::AuditMissing(file)),
        OpenFault::Audit(AudFault::Unsealed(file)) => {
            Status::Needed(NeedFault::AuditUnsealed(file))
        }
        OpenFault::Audit(AudFault::Foreign(file)) => Status::Needed(NeedFault::AuditForeign(file)),
        OpenFault::Audit(AudFault::Damaged(file, block)) => status_of_audit_damage(file, block),
        OpenFault::Audit(AudFault::Memory) => Status::Memory,
        OpenFault::NoSuchPoint(point) => Status::Needed(NeedFault::NoSuchPoint(point)),
        OpenFault::Voided(point) => Status::Needed(NeedFault::Voided(point)),
        OpenFault::DumpMissing(dump) => Status::Needed(NeedFault::DumpMissing(dump)),
        OpenFault::DumpUnsealed(dump) => Status::Needed(NeedFault::DumpUnsealed(dump)),
        OpenFault::DumpDamaged(dump) => status_of_audit_damage(20_000 + u32::from(dump), 0),
        OpenFault::DumpForeign(dump) => Status::Needed(NeedFault::DumpForeign(dump)),
        OpenFault::DumpLater(dump, point) => Status::Needed(NeedFault::DumpLater(dump, point)),
    }
}

/// The status that an opening ends with that was refused.
pub fn status_of_refusal(refusal: OpenRefusal) -> Status
    ensures { result ≡ refusal_status refusal }
{
    match refusal {
        OpenRefusal::Fault(fault) => status_of_open(fault),
        OpenRefusal::Short(file, block) => status_of_damage(file, block),
    }
}
