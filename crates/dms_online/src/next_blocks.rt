//! Some blocks of a dump are copied.

ghost use Rattle.std.specs.Prelude.{◌+◌, ◌*◌, ◌<◌, ◌≤◌, ◌^◌, ℕ, List, OnOk};
ghost use Rattle.dms_block.specs.Held.{IfTold};
ghost use Rattle.dms_online.specs.Calls.{Beside, SameDump};
ghost use Rattle.dms_online.specs.Going.{GoesOn, IsNamed, IsQuiet};
ghost use Rattle.dms_wal.specs.Database.{running_held};

use crate::{DumpSite, copy_next};
use dms_block::BlockFault;
use dms_history::FileCount;
use dms_site::Site;
use dms_wal::Running;

/// Copies the blocks from `n` to before `end` of a dump whose blocks begin at `front`. Doesn't sync.
pub fn copy_some<S: Site>(
    running: &mut Running<DumpSite<S>>,
    counts: &[FileCount],
    front: u64,
    n: u64,
    end: u64,
) -> Result<(), BlockFault>
    requires sound { (running_held ⟦<DumpSite<S> as Site>⟧ running.old).sound }
    requires above { 20000 < running.old.log.site.file }
    requires below { running.old.log.site.file ≤ 30000 }
    requires behind { 1 ≤ front }
    requires order { n ≤ end }
    requires place { front + 1024 * (end + 1) < 2 ^ 40 }
    ensures beside { Beside ⟦<DumpSite<S> as Site>⟧ result running.old running.new }
    ensures dump { SameDump S.Site running.old.log.site running.new.log.site }
    ensures goes { OnOk result (let h = running_held ⟦<DumpSite<S> as Site>⟧ running.old in IfTold h ((low : ℕ) (head : List ℕ) → ((i : ℕ) → i < end → IsNamed counts.now i)
        → IsQuiet h low → GoesOn h (S.files running.old.log.site.site running.old.log.site.file) front low counts.now n head
        → GoesOn (running_held ⟦<DumpSite<S> as Site>⟧ running.new) (S.files running.new.log.site.site running.old.log.site.file) front low counts.now end head)) }
{
    for i in n..end {
        match copy_next(running, counts, front, i) {
            Ok(()) => {}
            Err(fault) => return Err(fault),
        }
    }
    Ok(())
}
