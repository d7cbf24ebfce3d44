//! What ends a dump: the rest of its blocks, its head anew, and its gate.

ghost use Rattle.std.specs.Prelude.{◌≡◌, ◌⊎◌, ◌<◌, ◌≤◌, IfErr, IsErrOf, IsTrue, OnOk, true};
ghost use Rattle.dms_block.specs.Held.{HasCauses, IfTold, MakesNoPoint, SameBlocks, Stays};
ghost use Rattle.dms_moments.specs.Moments.{Now};
ghost use Rattle.dms_online.specs.Calls.{Beside, HasShutGate, SameDump};
ghost use Rattle.dms_online.specs.Copying.{IsAtPoint};
ghost use Rattle.dms_online.specs.Ending.{LeavesOpening, OpensGate, SealsDump};
ghost use Rattle.dms_online.specs.Going.{IsAllBut};
ghost use Rattle.dms_online.specs.Onlines.{IsCopied};
ghost use Rattle.dms_online.specs.Plans.{head_of};
ghost use Rattle.dms_restore.specs.Logging.{Ends, trail_of};
ghost use Rattle.dms_restore.specs.Views.{view_of};
ghost use Rattle.dms_site.specs.Files.{Left, Only};
ghost use Rattle.dms_wal.specs.Controls.{IsSettled, KeepsFields, MakesControl, TellsSame};
ghost use Rattle.dms_wal.specs.Database.{running_held};
ghost use Rattle.dms_wal.specs.Faults.{StandsFull};
ghost use Rattle.dms_wal.specs.Growing.{GrowsBy, TrailGrows};

use crate::heads::write_head;
use crate::until::copy_until;
use crate::{Copying, DumpSite};
use dms_block::BlockFault;
use dms_dump::open_gate;
use dms_site::Site;
use dms_wal::Running;

/// Copies the rest of a dump, and writes its head with the last point as its end: then all of it is there but its open gate. Doesn't sync. Takes no
/// memory.
pub(crate) fn finish<S: Site>(
    running: &mut Running<DumpSite<S>>,
    copy: &mut Copying,
) -> Result<(), BlockFault>
    requires sound { (running_held ⟦<DumpSite<S> as Site>⟧ running.old).sound }
    requires copied { IsCopied ⟦<DumpSite<S> as Site>⟧ S.Site running.old copy.old }
    requires at_mark { IsTrue S.tells → (running_held ⟦<DumpSite<S> as Site>⟧ running.old).content ≡ (running_held ⟦<DumpSite<S> as Site>⟧ running.old).mark }
    ensures beside { Beside ⟦<DumpSite<S> as Site>⟧ result running.old running.new }
    ensures dump { SameDump S.Site running.old.log.site running.new.log.site }
    ensures all { OnOk result (let h = running_held ⟦<DumpSite<S> as Site>⟧ running.old in
        IfTold h (IsAllBut (IsAtPoint h.points copy.old.point) (head_of copy.old running.old.point) (S.files running.new.log.site.site running.old.log.site.file))) }
{
    let total = copy.total;
    match copy_until(running, copy, total) {
        Ok(()) => {}
        Err(fault) => return Err(fault),
    }
    let end = running.point;
    write_head(running, copy, end)
}

/// Opens the gate of a dump that is stable. Answers Disk alone.
fn open_dump<S: Site>(running: &mut Running<DumpSite<S>>) -> Result<(), BlockFault>
    requires sound { (running_held ⟦<DumpSite<S> as Site>⟧ running.old).sound }
    requires above { 20000 < running.old.log.site.file }
    requires below { running.old.log.site.file ≤ 30000 }
    requires settled { IsTrue S.tells → Only (S.files running.old.log.site.site) (S.clock running.old.log.site.site) }
    requires gate { IsTrue S.tells → HasShutGate (S.files running.old.log.site.site running.old.log.site.file) }
    ensures passes { MakesNoPoint (running_held ⟦<DumpSite<S> as Site>⟧ running.old) (running_held ⟦<DumpSite<S> as Site>⟧ running.new) }
    ensures stays { OnOk result (Stays (running_held ⟦<DumpSite<S> as Site>⟧ running.old) (running_held ⟦<DumpSite<S> as Site>⟧ running.new)) }
    ensures unchanged { SameBlocks (running_held ⟦<DumpSite<S> as Site>⟧ running.old) (running_held ⟦<DumpSite<S> as Site>⟧ running.new) }
    ensures tells { IsTrue S.tells → TellsSame (view_of ⟦<DumpSite<S> as Site>⟧ running.old.log) (view_of ⟦<DumpSite<S> as Site>⟧ running.new.log) }
    ensures settles { OnOk result (IsTrue S.tells → IsSettled (view_of ⟦<DumpSite<S> as Site>⟧ running.old.log) → IsSettled (view_of ⟦<DumpSite<S> as Site>⟧ running.new.log)) }
    ensures opened { OnOk result (let s = running.old.log.site in OpensGate S.tells s.file (S.files s.site) (S.files running.new.log.site.site)) }
    ensures moments { let s = running.old.log.site in LeavesOpening S.tells s.file (S.files s.site) (S.clock s.site) (S.clock running.new.log.site.site) }
    ensures only { IfErr result (λ e. e ≡ BlockFault.Disk) }
    ensures causes { HasCauses result (running_held ⟦<DumpSite<S> as Site>⟧ running.old) (running_held ⟦<DumpSite<S> as Site>⟧ running.new) }
    ensures kept { KeepsFields running.old running.new }
    ensures kind { trail_of (view_of ⟦<DumpSite<S> as Site>⟧ running.new.log) ≡ trail_of (view_of ⟦<DumpSite<S> as Site>⟧ running.old.log) }
    ensures grown { TrailGrows ⟦<DumpSite<S> as Site>⟧ 0 running.old running.new }
    ensures same { S.same_site running.old.log.site.site running.new.log.site.site }
    ensures file { running.new.log.site.file ≡ running.old.log.site.file }
{
    let file = running.log.site.file;
    match open_gate(&mut running.log.site.site, file) {
        Ok(()) => Ok(()),
        Err(_) => {
            running.broken = true;
            Err(BlockFault::Disk)
        }
    }
}

/// Makes a control point, and then opens the gate of the dump, so that wherever it is open the files hold all points. Takes no memory. Answers Disk, and Full where the audit has no room.
pub(crate) fn seal_open<S: Site>(running: &mut Running<DumpSite<S>>) -> Result<(), BlockFault>
    requires sound { (running_held ⟦<DumpSite<S> as Site>⟧ running.old).sound }
    requires above { 20000 < running.old.log.site.file }
    requires below { running.old.log.site.file ≤ 30000 }
    requires shut { IsTrue S.tells → (x : Left) → Now (S.clock running.old.log.site.site) x → HasShutGate (x.files running.old.log.site.file) }
    ensures sound { OnOk result ((running_held ⟦<DumpSite<S> as Site>⟧ running.new).sound) }
    ensures passes { MakesNoPoint (running_held ⟦<DumpSite<S> as Site>⟧ running.old) (running_held ⟦<DumpSite<S> as Site>⟧ running.new) }
    ensures control { OnOk result (IsTrue S.tells → let r = running.old in
        MakesControl (view_of ⟦<DumpSite<S> as Site>⟧ r.log) (view_of ⟦<DumpSite<S> as Site>⟧ running.new.log) r.schema.items r.point r.next r.counts.items) }
    ensures opened { OnOk result (let s = running.old.log.site in OpensGate S.tells s.file (S.files s.site) (S.files running.new.log.site.site)) }
    ensures moments { SealsDump ⟦<DumpSite<S> as Site>⟧ S.Site running.old running.new.log.site }
    ensures only { IfErr result (λ e. (e ≡ BlockFault.Disk) ⊎ (e ≡ BlockFault.Full running.old.log.end.limit)) }
    ensures full { (n : _) → IsErrOf result (BlockFault.Full n) → StandsFull running.new.log.end n }
    ensures ends { (n : _) → IsErrOf result (BlockFault.Full n) → IsTrue S.tells → Ends (view_of ⟦<DumpSite<S> as Site>⟧ running.new.log) }
    ensures causes { HasCauses result (running_held ⟦<DumpSite<S> as Site>⟧ running.old) (running_held ⟦<DumpSite<S> as Site>⟧ running.new) }
    ensures kept { KeepsFields running.old running.new }
    ensures kind { trail_of (view_of ⟦<DumpSite<S> as Site>⟧ running.new.log) ≡ trail_of (view_of ⟦<DumpSite<S> as Site>⟧ running.old.log) }
    ensures grown { TrailGrows ⟦<DumpSite<S> as Site>⟧ 18 running.old running.new }
    ensures same { S.same_site running.old.log.site.site running.new.log.site.site }
{
    match running.control() {
        Ok(()) => {}
        Err(fault) => return Err(fault),
    }
    open_dump(running)
}
