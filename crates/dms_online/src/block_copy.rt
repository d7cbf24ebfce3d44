//! A block is copied into a dump beside the database.

ghost use Rattle.std.specs.Prelude.{◌≡◌, ◌+◌, ◌<◌, ◌≤◌, ◌^◌, IsTrue, OnOk, length};
ghost use Rattle.dms_block.specs.Content.{block_in};
ghost use Rattle.dms_online.specs.Calls.{Beside, SameDump};
ghost use Rattle.dms_site.specs.Files.{overlay_bytes};
ghost use Rattle.dms_wal.specs.Database.{running_held};

use crate::look::look_at;
use crate::{DumpSite, write_dump};
use dms_block::{BlockFault, BlockId};
use dms_site::Site;
use dms_wal::Running;

/// Copies a block below its file's count into the dump's file. Doesn't sync. Answers Disk, and Damaged where its file ends within it.
pub fn copy_one<S: Site>(
    running: &mut Running<DumpSite<S>>,
    id: BlockId,
    at: u64,
) -> Result<(), BlockFault>
    requires sound { (running_held ⟦<DumpSite<S> as Site>⟧ running.old).sound }
    requires there { id.block < (running_held ⟦<DumpSite<S> as Site>⟧ running.old).counts id.file }
    requires above { 20000 < running.old.log.site.file }
    requires below { running.old.log.site.file ≤ 30000 }
    requires behind { 1 ≤ at }
    requires place { at + 1024 < 2 ^ 40 }
    ensures beside { Beside ⟦<DumpSite<S> as Site>⟧ result running.old running.new }
    ensures dump { SameDump S.Site running.old.log.site running.new.log.site }
    ensures written { OnOk result (IsTrue S.tells → let f = running.old.log.site.file in
        S.files running.new.log.site.site f ≡ overlay_bytes at (block_in (running_held ⟦<DumpSite<S> as Site>⟧ running.old).content id.file id.block) (S.files running.old.log.site.site f)) }
    ensures size { OnOk result (IsTrue S.tells → length (block_in (running_held ⟦<DumpSite<S> as Site>⟧ running.old).content id.file id.block) ≡ 1024) }
{
    match look_at(running, id) {
        Ok(block) => write_dump(running, at, &block.0),
        Err(fault) => Err(fault),
    }
}
