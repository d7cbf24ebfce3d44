//! A dump is copied, one block after another.

ghost use Rattle.std.specs.Prelude.{◌≡◌, ◌+◌, ◌*◌, ◌<◌, ◌≤◌, ◌^◌, ℕ, List, OnOk, Some};
ghost use Rattle.dms_block.specs.Held.{IfTold};
ghost use Rattle.dms_dump.specs.Copies.{id_at};
ghost use Rattle.dms_online.specs.Calls.{Beside, SameDump};
ghost use Rattle.dms_online.specs.Going.{GoesOn, IsQuiet};
ghost use Rattle.dms_wal.specs.Database.{running_held};

use crate::{DumpSite, copy_one, id_of};
use dms_block::BlockFault;
use dms_history::FileCount;
use dms_site::Site;
use dms_wal::Running;

/// Copies block `n` of a dump whose blocks begin at `front`. Does nothing where there is none of that number, or where its file has fewer blocks, as
/// no file has of which a dump was begun. Doesn't sync.
pub fn copy_next<S: Site>(
    running: &mut Running<DumpSite<S>>,
    counts: &[FileCount],
    front: u64,
    n: u64,
) -> Result<(), BlockFault>
    requires sound { (running_held ⟦<DumpSite<S> as Site>⟧ running.old).sound }
    requires above { 20000 < running.old.log.site.file }
    requires below { running.old.log.site.file ≤ 30000 }
    requires behind { 1 ≤ front }
    requires place { front + 1024 * (n + 1) < 2 ^ 40 }
    ensures beside { Beside ⟦<DumpSite<S> as Site>⟧ result running.old running.new }
    ensures dump { SameDump S.Site running.old.log.site running.new.log.site }
    ensures goes { OnOk result (let h = running_held ⟦<DumpSite<S> as Site>⟧ running.old in IfTold h ((f k low : ℕ) (head : List ℕ) → id_at counts.now n ≡ Some (f, k) → IsQuiet h low
        → GoesOn h (S.files running.old.log.site.site running.old.log.site.file) front low counts.now n head
        → GoesOn (running_held ⟦<DumpSite<S> as Site>⟧ running.new) (S.files running.new.log.site.site running.old.log.site.file) front low counts.now (n + 1) head)) }
{
    match id_of(counts, n) {
        Some(id) => {
            let there = running.count(id.file);
            if id.block < there {
                copy_one(running, id, front + 1024 * n)
            } else {
                Ok(())
            }
        }
        None => Ok(()),
    }
}
