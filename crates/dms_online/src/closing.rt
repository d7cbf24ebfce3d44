//! A running database that copied itself into a dump is closed.

ghost use Rattle.std.specs.Prelude.{◌≡◌, IfErr, IfOk, IsTrue, Some};
ghost use Rattle.dms_online.specs.Closes.{Closes, ControlCloses, ControlFails, FailsToClose};
ghost use Rattle.dms_online.specs.Ending.{EndsDump, LeavesDump};
ghost use Rattle.dms_online.specs.Onlines.{IsCopied, online_held};
ghost use Rattle.dms_wal.specs.Database.{running_held};

use crate::ending::{finish, seal_open};
use crate::{Copying, DumpSite, Online};
use dms_block::BlockFault;
use dms_site::Site;
use dms_wal::Running;
use std::alloc::Global;

/// The last audit file that may be written by the control point that closes.
const LAST_AUDIT_FILE: u32 = 9999;

/// Ends the dump of a database in which nothing is changed since its last point, closes the database by a control point, and then opens the dump's
/// gate. Takes no memory.
fn close_copied<S: Site>(
    mut running: Running<DumpSite<S>>,
    mut copy: Copying,
) -> Result<DumpSite<S>, (BlockFault, DumpSite<S>)>
    requires sound { (running_held ⟦<DumpSite<S> as Site>⟧ running).sound }
    requires copied { IsCopied ⟦<DumpSite<S> as Site>⟧ S.Site running copy }
    requires at_mark { IsTrue S.tells → let h = running_held ⟦<DumpSite<S> as Site>⟧ running in h.content ≡ h.mark }
    ensures closes { IfOk result (ControlCloses ⟦<DumpSite<S> as Site>⟧ running) }
    ensures fails { IfErr result (ControlFails ⟦<DumpSite<S> as Site>⟧ running) }
    ensures dump { IfOk result (λ s. EndsDump ⟦<DumpSite<S> as Site>⟧ S.Site running s (Some copy)) }
    ensures moments { IfOk result (λ s. LeavesDump ⟦<DumpSite<S> as Site>⟧ S.Site running s (Some copy)) }
    ensures stopped { IfErr result (λ e. LeavesDump ⟦<DumpSite<S> as Site>⟧ S.Site running e.1 (Some copy)) }
    ensures same { IfOk result (λ s. S.same_site running.log.site.site s.site) }
    ensures same_then { IfErr result (λ e. S.same_site running.log.site.site e.1.site) }
{
    match finish(&mut running, &mut copy) {
        Ok(()) => {}
        Err(fault) => return Err((fault, running.into_site())),
    }
    running.log.end.limit = LAST_AUDIT_FILE;
    match seal_open(&mut running) {
        Ok(()) => Ok(running.into_site()),
        Err(fault) => Err((fault, running.into_site())),
    }
}

/// Closes a database and its dump: what was changed since the last point is gone back from first.
fn close_both<S: Site>(
    alloc: Global,
    mut running: Running<DumpSite<S>>,
    copy: Copying,
) -> Result<DumpSite<S>, (BlockFault, DumpSite<S>)>
    requires sound { (running_held ⟦<DumpSite<S> as Site>⟧ running).sound }
    requires copied { IsCopied ⟦<DumpSite<S> as Site>⟧ S.Site running copy }
    ensures closes { IfOk result (Closes ⟦<DumpSite<S> as Site>⟧ running) }
    ensures fails { IfErr result (FailsToClose ⟦<DumpSite<S> as Site>⟧ running) }
    ensures dump { IfOk result (λ s. EndsDump ⟦<DumpSite<S> as Site>⟧ S.Site running s (Some copy)) }
    ensures moments { IfOk result (λ s. LeavesDump ⟦<DumpSite<S> as Site>⟧ S.Site running s (Some copy)) }
    ensures stopped { IfErr result (λ e. LeavesDump ⟦<DumpSite<S> as Site>⟧ S.Site running e.1 (Some copy)) }
    ensures same { IfOk result (λ s. S.same_site running.log.site.site s.site) }
    ensures same_then { IfErr result (λ e. S.same_site running.log.site.site e.1.site) }
{
    if !running.changed {
        return close_copied(running, copy);
    }
    match running.back_out(alloc) {
        Ok(()) => close_copied(running, copy),
        Err(fault) => Err((fault, running.into_site())),
    }
}

impl<S: Site> Online<S> {
    /// Closes the database, and gives the site: what was changed since the last point is gone back from, the rest of the dump is copied and its head
    /// written anew, with the last point as its end, a control point is made, and then the dump's gate is opened. The audit may go on up to file 9,999.
    ///
    /// Answers Disk, Full(9999) where all audit files are full, Memory where it goes back, and Damaged where a structure file ends within a block
    /// that is to be copied. After each of them the next opening goes on with what was begun, and the dump is shut, or whole where the last sync
    /// failed.
    pub fn close(self, alloc: Global) -> Result<DumpSite<S>, (BlockFault, DumpSite<S>)>
        requires { (online_held ⟦<DumpSite<S> as Site>⟧ S.Site self).sound }
        ensures closes { IfOk result (Closes ⟦<DumpSite<S> as Site>⟧ self.running) }
        ensures fails { IfErr result (FailsToClose ⟦<DumpSite<S> as Site>⟧ self.running) }
        ensures dump { IfOk result (λ s. EndsDump ⟦<DumpSite<S> as Site>⟧ S.Site self.running s self.copy) }
        ensures moments { IfOk result (λ s. LeavesDump ⟦<DumpSite<S> as Site>⟧ S.Site self.running s self.copy) }
        ensures stopped { IfErr result (λ e. LeavesDump ⟦<DumpSite<S> as Site>⟧ S.Site self.running e.1 self.copy) }
        ensures same { IfOk result (λ s. S.same_site self.running.log.site.site s.site) }
        ensures same_then { IfErr result (λ e. S.same_site self.running.log.site.site e.1.site) }
    {
        let Online { running, copy } = self;
        match copy {
            None => running.close(alloc),
            Some(copy) => close_both(alloc, running, copy),
        }
    }
}
