//! The gate and the head of a dump are written beside the database.

ghost use Rattle.std.specs.Prelude.{◌≡◌, ◌<◌, ◌≤◌, ◌^◌, ◌∷◌, [], ℕ, IfErr, IsTrue, OnOk, true};
ghost use Rattle.dms_block.specs.Held.{HasCauses, MakesNoPoint, SameBlocks, Stays};
ghost use Rattle.dms_dump.specs.Head.{head_bytes};
ghost use Rattle.dms_moments.specs.Moments.{Now, Steps};
ghost use Rattle.dms_online.specs.Calls.{AsWasOrShut, Beside, HasShutGate, SameDump};
ghost use Rattle.dms_online.specs.Plans.{IsPlan, head_of};
ghost use Rattle.dms_restore.specs.Views.{view_of};
ghost use Rattle.dms_site.specs.Files.{Left, overlay_bytes};
ghost use Rattle.dms_wal.specs.Controls.{KeepsFields, TellsSame};
ghost use Rattle.dms_wal.specs.Database.{running_held};
ghost use Rattle.dms_wal.specs.Growing.{GrowsBy, TrailGrows};

use crate::{Copying, DumpSite, write_dump};
use dms_block::BlockFault;
use dms_dump::{shut, spell_head};
use dms_site::Site;
use dms_wal::Running;

/// Cuts the dump to nothing and writes its gate, shut. Answers Disk alone.
pub(crate) fn shut_dump<S: Site>(running: &mut Running<DumpSite<S>>) -> Result<(), BlockFault>
    requires sound { (running_held ⟦<DumpSite<S> as Site>⟧ running.old).sound }
    requires above { 20000 < running.old.log.site.file }
    requires below { running.old.log.site.file ≤ 30000 }
    ensures passes { MakesNoPoint (running_held ⟦<DumpSite<S> as Site>⟧ running.old) (running_held ⟦<DumpSite<S> as Site>⟧ running.new) }
    ensures stays { OnOk result (Stays (running_held ⟦<DumpSite<S> as Site>⟧ running.old) (running_held ⟦<DumpSite<S> as Site>⟧ running.new)) }
    ensures unchanged { SameBlocks (running_held ⟦<DumpSite<S> as Site>⟧ running.old) (running_held ⟦<DumpSite<S> as Site>⟧ running.new) }
    ensures tells { IsTrue S.tells → TellsSame (view_of ⟦<DumpSite<S> as Site>⟧ running.old.log) (view_of ⟦<DumpSite<S> as Site>⟧ running.new.log) }
    ensures uses { (running_held ⟦<DumpSite<S> as Site>⟧ running.new).uses ≡ (running_held ⟦<DumpSite<S> as Site>⟧ running.old).uses }
    ensures empty { OnOk result (IsTrue S.tells → S.files running.new.log.site.site running.old.log.site.file ≡ 0 ∷ []) }
    ensures shut { OnOk result (IsTrue S.tells → (x : Left) → Now (S.clock running.new.log.site.site) x → HasShutGate (x.files running.old.log.site.file)) }
    ensures moments { IsTrue S.tells → Steps (AsWasOrShut running.old.log.site.file) (S.clock running.old.log.site.site) (S.clock running.new.log.site.site) }
    ensures only { IfErr result (λ e. e ≡ BlockFault.Disk) }
    ensures causes { HasCauses result (running_held ⟦<DumpSite<S> as Site>⟧ running.old) (running_held ⟦<DumpSite<S> as Site>⟧ running.new) }
    ensures broken { IfErr result (λ e. running.new.broken ≡ true) }
    ensures kept { KeepsFields running.old running.new }
    ensures grown { TrailGrows ⟦<DumpSite<S> as Site>⟧ 0 running.old running.new }
    ensures grows { GrowsBy ⟦<DumpSite<S> as Site>⟧ running.old running.new }
    ensures same { S.same_site running.old.log.site.site running.new.log.site.site }
    ensures file { running.new.log.site.file ≡ running.old.log.site.file }
{
    let file = running.log.site.file;
    match shut(&mut running.log.site.site, file) {
        Ok(()) => Ok(()),
        Err(_) => {
            running.broken = true;
            Err(BlockFault::Disk)
        }
    }
}

/// Writes the head of a dump, with this end, behind its gate. Doesn't sync. Answers Disk alone.
pub(crate) fn write_head<S: Site>(
    running: &mut Running<DumpSite<S>>,
    copy: &Copying,
    end: u64,
) -> Result<(), BlockFault>
    requires sound { (running_held ⟦<DumpSite<S> as Site>⟧ running.old).sound }
    requires above { 20000 < running.old.log.site.file }
    requires below { running.old.log.site.file ≤ 30000 }
    requires plan { IsPlan copy.now }
    ensures beside { Beside ⟦<DumpSite<S> as Site>⟧ result running.old running.new }
    ensures dump { SameDump S.Site running.old.log.site running.new.log.site }
    ensures only { IfErr result (λ e. e ≡ BlockFault.Disk) }
    ensures written { OnOk result (IsTrue S.tells → let f = running.old.log.site.file in
        S.files running.new.log.site.site f ≡ overlay_bytes 1 (head_bytes (head_of copy.now end)) (S.files running.old.log.site.site f)) }
{
    let mut head = [0u8; 1634];
    let used = spell_head(
        &mut head,
        copy.tag,
        copy.point,
        Some(end),
        copy.audit,
        &copy.counts,
    );
    write_dump(running, 1, &head[..used])
}

/// Begins a dump: cuts it to nothing, and writes its shut gate and its head, with its point as its end. Answers Disk alone.
pub(crate) fn begin_dump<S: Site>(
    running: &mut Running<DumpSite<S>>,
    copy: &Copying,
) -> Result<(), BlockFault>
    requires sound { (running_held ⟦<DumpSite<S> as Site>⟧ running.old).sound }
    requires above { 20000 < running.old.log.site.file }
    requires below { running.old.log.site.file ≤ 30000 }
    requires plan { IsPlan copy.now }
    ensures beside { Beside ⟦<DumpSite<S> as Site>⟧ result running.old running.new }
    ensures written { OnOk result (IsTrue S.tells → S.files running.new.log.site.site running.old.log.site.file ≡ 0 ∷ head_bytes (head_of copy.now copy.now.point)) }
    ensures shut { OnOk result (IsTrue S.tells → (x : Left) → Now (S.clock running.new.log.site.site) x → HasShutGate (x.files running.old.log.site.file)) }
    ensures moments { IsTrue S.tells → Steps (AsWasOrShut running.old.log.site.file) (S.clock running.old.log.site.site) (S.clock running.new.log.site.site) }
    ensures only { IfErr result (λ e. e ≡ BlockFault.Disk) }
    ensures same { S.same_site running.old.log.site.site running.new.log.site.site }
    ensures file { running.new.log.site.file ≡ running.old.log.site.file }
{
    match shut_dump(running) {
        Ok(()) => {}
        Err(fault) => return Err(fault),
    }
    write_head(running, copy, copy.point)
}
