ghost use Rattle.std.specs.Prelude.{◌≡◌, ◌<◌, ◌^◌};
ghost use Rattle.dms_store.specs.Noted.{count_damage, noted_by};

use dms_block::BlockFault;

// One more, where the fault is that a block is damaged.
fn count(found: u64, fault: &BlockFault) -> u64
    ensures { result ≡ count_damage fault.now found }
{
    match fault {
        BlockFault::Damaged(_, _) => found.saturating_add(1),
        BlockFault::Disk => found,
        BlockFault::Memory => found,
        BlockFault::Full(_) => found,
        BlockFault::Say => found,
    }
}

/// Counts an answer that a block is damaged. It answers what it was given, so its errors are that answer's.
pub fn note<T>(found: &mut u64, answer: Result<T, BlockFault>) -> Result<T, BlockFault>
    ensures same { result ≡ answer }
    ensures noted { found.new ≡ noted_by answer found.old }
    ensures small { found.old < 2 ^ 64 }
{
    let before = *found;
    if let Err(fault) = &answer {
        *found = count(before, fault);
    }
    answer
}
