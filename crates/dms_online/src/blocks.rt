//! A running database is blocks, with its dump too.

ghost use Rattle.std.specs.Prelude.{◌≡◌, IfSome, OnOk, option_map};
ghost use Rattle.dms_block.specs.Held.{IfTold};
ghost use Rattle.dms_online.specs.Calls.{Beside, SameDump};
ghost use Rattle.dms_online.specs.Going.{IsQuiet};
ghost use Rattle.dms_online.specs.Onlines.{CopiedOn, IsCopied, SameOnline, online_held, undone};
ghost use Rattle.dms_online.specs.OnlineLaws.{online_again, online_agrees, online_then};
ghost use Rattle.dms_wal.specs.Database.{running_held};

use crate::until::copy_until;
use crate::{DumpSite, Online};
use dms_block::{Block, BlockFault, BlockId, Blocks, Changes};
use dms_site::Site;
use dms_wal::Running;
use std::alloc::Global;

/// How many blocks are copied behind each quiet point.
const BLOCKS_A_POINT: u64 = 16;

impl<S: Site> Online<S> {
    /// Copies up to 16 blocks more of the dump, if there is one. Takes no memory.
    fn copy_on(&mut self) -> Result<(), BlockFault>
        requires sound { (running_held ⟦<DumpSite<S> as Site>⟧ self.old.running).sound }
        requires copied { IfSome self.old.copy (IsCopied ⟦<DumpSite<S> as Site>⟧ S.Site self.old.running) }
        ensures beside { Beside ⟦<DumpSite<S> as Site>⟧ result self.old.running self.new.running }
        ensures dump { SameDump S.Site self.old.running.log.site self.new.running.log.site }
        ensures plan { option_map undone self.new.copy ≡ option_map undone self.old.copy }
        ensures up { OnOk result (CopiedOn self.old.copy self.new.copy) }
        ensures copied { OnOk result (IfSome self.old.copy (λ c. let h = running_held ⟦<DumpSite<S> as Site>⟧ self.old.running in IfTold h (IsQuiet h c.point))
            → IfSome self.new.copy (IsCopied ⟦<DumpSite<S> as Site>⟧ S.Site self.new.running)) }
    {
        match &mut self.copy {
            None => Ok(()),
            Some(copy) => {
                let end = (copy.done + BLOCKS_A_POINT).min(copy.total);
                copy_until(&mut self.running, copy, end)
            }
        }
    }
}

/// Each call is that of the running database. Behind each quiet point up to 16 blocks of the dump are copied, while there are some; so a quiet point
/// also answers Damaged, where the file of a block that is to be copied ends within it.
impl<S: Site> Blocks for Online<S> {
    ghost held = { λ o. online_held ⟦<DumpSite<S> as Site>⟧ S.Site o };

    ghost same_blocks = { λ a b. SameOnline ⟦<DumpSite<S> as Site>⟧ S.Site a b };

    ghost pace = { λ o. record { last = o.running.log.end.limit; every = o.running.every } };

    ghost agrees = { λ o sound. online_agrees (λ s tells. S.Site.may_stay s.site tells) (λ s x tells now. S.Site.now_said s.site x tells now) o sound };

    ghost same_again = { λ o. online_again S.Site.same_again o };

    ghost same_then = { λ a b c one two. online_then S.Site.same_then a b c one two };

    ghost same_pace = { λ a b same. λ i. record { last = same.pace.limit i; every = same.pace.every i } };

    fn count(&self, file: u32) -> u32 {
        Running::count(&self.running, file)
    }

    fn read(&mut self, _alloc: Global, id: BlockId) -> Result<Block, BlockFault> {
        Running::read(&mut self.running, id)
    }

    fn apply(&mut self, _alloc: Global, changes: &Changes) -> Result<(), BlockFault> {
        Running::apply(&mut self.running, changes)
    }

    fn quiet(&mut self) -> Result<u64, BlockFault> {
        let number = match Running::quiet(&mut self.running) {
            Ok(number) => number,
            Err(fault) => return Err(fault),
        };
        // No further point has a number: what is left is copied in the close.
        if self.running.next == u64::MAX {
            return Ok(number);
        }
        match self.copy_on() {
            Ok(()) => Ok(number),
            Err(fault) => Err(fault),
        }
    }

    fn sync(&mut self) -> Result<(), BlockFault> {
        Running::sync(&mut self.running)
    }

    fn back_out(&mut self, alloc: Global) -> Result<(), BlockFault> {
        Running::back_out(&mut self.running, alloc)
    }

    fn say(&mut self, bytes: &[u8]) -> Result<(), BlockFault> {
        Running::say(&mut self.running, bytes)
    }
}
