//! The status that each fault ends with.

ghost use Rattle.std.specs.Prelude.{◌≡◌};
ghost use Rattle.dms_runtop.specs.Faults.{IsWithin, block_status, run_status};

use dms_block::BlockFault;
use dms_guard::status_of_damage;
use dms_runner::RunFault;
use dms_status::{LimitKind, Status};

/// The last audit file: FILES and a way back go up to it at most.
const LAST_AUDIT_FILE: u32 = 9_999;

/// The status that a fault of blocks ends with.
pub fn status_of_block(fault: BlockFault) -> Status
    ensures { result ≡ block_status fault }
{
    match fault {
        BlockFault::Disk => Status::DiskFault,
        BlockFault::Memory => Status::Memory,
        BlockFault::Full(file) => Status::Limit(LimitKind::AuditFile(file)),
        BlockFault::Damaged(file, block) => status_of_damage(file, block),
        BlockFault::Say => Status::SayFault,
    }
}

/// The status that a fault of a run ends with.
pub fn status_of_run(fault: RunFault) -> Status
    ensures { result ≡ run_status fault }
{
    match fault {
        RunFault::Block(fault) => status_of_block(fault),
        RunFault::Input => Status::InputFault,
        RunFault::Lines => Status::Limit(LimitKind::Lines),
        RunFault::Bytes => Status::Limit(LimitKind::Bytes),
        RunFault::Held => Status::Limit(LimitKind::Held),
        RunFault::Memory => Status::Memory,
    }
}

/// The fault of a run whose audit may go on up to file `last`, and up to 9,999 where the database goes back: where another file were named as full,
/// that counts as want of memory.
pub(crate) fn fault_within(fault: RunFault, last: u32) -> RunFault
    ensures { IsWithin last fault result }
{
    match fault {
        RunFault::Block(BlockFault::Full(file)) if file != last && file != LAST_AUDIT_FILE => {
            RunFault::Memory
        }
        _ => fault,
    }
}
