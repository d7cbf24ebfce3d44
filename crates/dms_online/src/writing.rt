//! A dump is written beside the database.

ghost use Rattle.std.specs.Prelude.{◌≡◌, ◌+◌, ◌<◌, ◌≤◌, ◌^◌, IfErr, IsTrue, OnOk, length, true};
ghost use Rattle.dms_block.specs.Held.{HasCauses, MakesNoPoint, SameBlocks, Stays};
ghost use Rattle.dms_moments.specs.Moments.{Steps};
ghost use Rattle.dms_restore.specs.Views.{view_of};
ghost use Rattle.dms_site.specs.Files.{OnDisk, Torn, overlay_bytes, with_file};
ghost use Rattle.dms_wal.specs.Controls.{KeepsFields, TellsSame};
ghost use Rattle.dms_wal.specs.Database.{running_held};
ghost use Rattle.dms_wal.specs.Growing.{GrowsBy, TrailGrows};

use crate::DumpSite;
use dms_block::BlockFault;
use dms_site::Site;
use dms_wal::Running;

/// Writes bytes into the file that the database lets be. Doesn't sync. Answers Disk alone.
pub fn write_dump<S: Site>(
    running: &mut Running<DumpSite<S>>,
    at: u64,
    bytes: &[u8],
) -> Result<(), BlockFault>
    requires sound { (running_held ⟦<DumpSite<S> as Site>⟧ running.old).sound }
    requires above { 20000 < running.old.log.site.file }
    requires below { running.old.log.site.file ≤ 30000 }
    requires place { at + length bytes.now < 2 ^ 40 }
    ensures passes { MakesNoPoint (running_held ⟦<DumpSite<S> as Site>⟧ running.old) (running_held ⟦<DumpSite<S> as Site>⟧ running.new) }
    ensures stays { OnOk result (Stays (running_held ⟦<DumpSite<S> as Site>⟧ running.old) (running_held ⟦<DumpSite<S> as Site>⟧ running.new)) }
    ensures unchanged { SameBlocks (running_held ⟦<DumpSite<S> as Site>⟧ running.old) (running_held ⟦<DumpSite<S> as Site>⟧ running.new) }
    ensures tells { IsTrue S.tells → TellsSame (view_of ⟦<DumpSite<S> as Site>⟧ running.old.log) (view_of ⟦<DumpSite<S> as Site>⟧ running.new.log) }
    ensures uses { (running_held ⟦<DumpSite<S> as Site>⟧ running.new).uses ≡ (running_held ⟦<DumpSite<S> as Site>⟧ running.old).uses }
    ensures written { OnOk result (IsTrue S.tells → let f = running.old.log.site.file in
        S.files running.new.log.site.site ≡ with_file (S.files running.old.log.site.site) f (overlay_bytes at bytes.now (S.files running.old.log.site.site f))) }
    ensures moments { Steps (OnDisk running.old.log.site.file (Torn at (length bytes.now))) (S.clock running.old.log.site.site) (S.clock running.new.log.site.site) }
    ensures only { IfErr result (λ e. e ≡ BlockFault.Disk) }
    ensures causes { HasCauses result (running_held ⟦<DumpSite<S> as Site>⟧ running.old) (running_held ⟦<DumpSite<S> as Site>⟧ running.new) }
    ensures broken { IfErr result (λ e. running.new.broken ≡ true) }
    ensures kept { KeepsFields running.old running.new }
    ensures grown { TrailGrows ⟦<DumpSite<S> as Site>⟧ 0 running.old running.new }
    ensures grows { GrowsBy ⟦<DumpSite<S> as Site>⟧ running.old running.new }
    ensures same { S.same_site running.old.log.site.site running.new.log.site.site }
    ensures file { running.new.log.site.file ≡ running.old.log.site.file }
{
    let file = running.log.site.file;
    match running.log.site.site.write_at(file, at, bytes) {
        Ok(()) => Ok(()),
        Err(_) => {
            running.broken = true;
            Err(BlockFault::Disk)
        }
    }
}
