ghost use Rattle.std.specs.Prelude.{◌≡◌, ◌<◌, ◌+◌, ◌^◌, ◌++◌, ◌∷◌, [], length, take, drop, OnOk, OnErr};
ghost use Rattle.dms_block.specs.Content.{FitsIn};
ghost use Rattle.dms_memblocks.specs.Undoing.{AreSmall, PutAll, content_of, owns_of, place, put_at, rows, undo, undo_entry, undo_all};

use crate::BlockUndo;
use crate::undo::{old_of, place_of, put_block, restore};
use dms_block::{Block, BlockFault, Change};

/// Takes one change back.
fn take_back(files: &mut Vec<Vec<Block>>, entry: &BlockUndo)
    ensures { rows files.new.items ≡ undo entry.now (rows files.old.items) }
{
    let at = place_of(entry.id.file);
    if at < files.len() {
        restore(&mut files[at], entry.id.block as usize, entry.old);
    }
}

/// Takes all changes back but the first so many of the log, the last one first.
pub fn take_back_to(files: &mut Vec<Vec<Block>>, log: &mut Vec<BlockUndo>, n: usize)
    ensures files { rows files.new.items ≡ undo_all (drop n log.old.items) (rows files.old.items) }
    ensures log { log.new.items ≡ take n log.old.items }
{
    while log.len() > n {
        let last = log.len() - 1;
        take_back(files, &log[last]);
        log.truncate(last);
    }
}

/// Makes one change and logs it, or none.
fn put(
    files: &mut Vec<Vec<Block>>,
    log: &mut Vec<BlockUndo>,
    point: u64,
    change: &Change,
) -> Result<(), BlockFault>
    requires file { place change.now.id.file < length files.old.items }
    ensures files { OnOk result (rows files.new.items ≡ put_at (place change.now.id.file) change.now.id.block change.now.block (rows files.old.items)) }
    ensures log { OnOk result (log.new.items ≡ log.old.items ++ (undo_entry point change.now.id (rows files.old.items) ∷ [])) }
    ensures err { OnErr result ((rows files.new.items ≡ rows files.old.items) × (log.new.items ≡ log.old.items)) }
    ensures memory { OnErr result (result ≡ Err BlockFault.Memory) }
{
    let at = place_of(change.id.file);
    let b = change.id.block as usize;
    let old = old_of(&files[at], b);
    let before = log.len();
    log.push(BlockUndo {
        point,
        id: change.id,
        old,
    })?;
    match put_block(&mut files[at], b, &change.block) {
        Ok(()) => Ok(()),
        Err(fault) => {
            log.truncate(before);
            Err(fault)
        }
    }
}

/// Makes all changes and logs them, or none. `made` is the number of the last quiet point.
pub fn put_all(
    files: &mut Vec<Vec<Block>>,
    log: &mut Vec<BlockUndo>,
    made: u64,
    changes: &[Change],
) -> Result<(), BlockFault>
    requires room { made + 1 < 2 ^ 64 }
    requires small { AreSmall (rows files.old.items) }
    requires fits { FitsIn changes.now (owns_of (rows files.old.items)) (λ f. length (content_of (rows files.old.items) f)) }
    ensures ok { OnOk result (PutAll made changes.now (rows files.old.items) log.old.items (rows files.new.items) log.new.items) }
    ensures err { OnErr result ((rows files.new.items ≡ rows files.old.items) × (log.new.items ≡ log.old.items)) }
    ensures memory { OnErr result (result ≡ Err BlockFault.Memory) }
{
    let before = log.len();
    for change in changes {
        if let Err(fault) = put(files, log, made + 1, change) {
            take_back_to(files, log, before);
            return Err(fault);
        }
    }
    Ok(())
}
