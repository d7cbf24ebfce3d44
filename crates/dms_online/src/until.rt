//! A dump is copied up to some block.

ghost use Rattle.std.specs.Prelude.{◌≡◌, ◌≤◌, OnOk};
ghost use Rattle.dms_block.specs.Held.{IfTold};
ghost use Rattle.dms_online.specs.Calls.{Beside, SameDump};
ghost use Rattle.dms_online.specs.Going.{IsQuiet};
ghost use Rattle.dms_online.specs.Onlines.{IsCopied};
ghost use Rattle.dms_wal.specs.Database.{running_held};

use crate::{Copying, DumpSite, copy_some};
use dms_block::BlockFault;
use dms_site::Site;
use dms_wal::Running;

/// Copies the blocks of a dump from those that are done to before `end`. Doesn't sync.
pub(crate) fn copy_until<S: Site>(
    running: &mut Running<DumpSite<S>>,
    copy: &mut Copying,
    end: u64,
) -> Result<(), BlockFault>
    requires sound { (running_held ⟦<DumpSite<S> as Site>⟧ running.old).sound }
    requires copied { IsCopied ⟦<DumpSite<S> as Site>⟧ S.Site running.old copy.old }
    requires order { copy.old.done ≤ end }
    requires most { end ≤ copy.old.total }
    ensures beside { Beside ⟦<DumpSite<S> as Site>⟧ result running.old running.new }
    ensures dump { SameDump S.Site running.old.log.site running.new.log.site }
    ensures plan { copy.new ≡ record copy.old { done = copy.new.done } }
    ensures done { OnOk result (copy.new.done ≡ end) }
    ensures copied { OnOk result ((let h = running_held ⟦<DumpSite<S> as Site>⟧ running.old in IfTold h (IsQuiet h copy.old.point))
        → IsCopied ⟦<DumpSite<S> as Site>⟧ S.Site running.new copy.new) }
{
    let done = copy.done;
    match copy_some(running, &copy.counts, copy.front, done, end) {
        Ok(()) => {
            copy.done = end;
            Ok(())
        }
        Err(fault) => Err(fault),
    }
}
