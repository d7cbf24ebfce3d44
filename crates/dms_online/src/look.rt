//! A block is looked at beside the calls of a database.

ghost use Rattle.std.specs.Prelude.{◌≡◌, ◌<◌, IfErr, IfOk, IsTrue, None, OnOk, true};
ghost use Rattle.dms_block.specs.Content.{block_in};
ghost use Rattle.dms_block.specs.Held.{HasCauses, Looks};
ghost use Rattle.dms_moments.specs.Moments.{Steps};
ghost use Rattle.dms_online.specs.Calls.{IsCopyFault};
ghost use Rattle.dms_pool.specs.Held.{frame_of};
ghost use Rattle.dms_restore.specs.Views.{view_of};
ghost use Rattle.dms_site.specs.Files.{Same};
ghost use Rattle.dms_wal.specs.Controls.{KeepsFields, TellsSame};
ghost use Rattle.dms_wal.specs.Database.{running_held};
ghost use Rattle.dms_wal.specs.Growing.{TrailGrows};

use crate::DumpSite;
use dms_block::{Block, BlockFault, BlockId};
use dms_site::Site;
use dms_wal::Running;

/// A block that isn't held, as its file has it.
fn look_in_file<S: Site>(
    running: &mut Running<DumpSite<S>>,
    id: BlockId,
) -> Result<Block, BlockFault>
    requires sound { (running_held ⟦<DumpSite<S> as Site>⟧ running.old).sound }
    requires there { id.block < (running_held ⟦<DumpSite<S> as Site>⟧ running.old).counts id.file }
    requires absent { frame_of id running.old.pool ≡ None }
    ensures block { IfOk result (λ x. IsTrue S.tells → x.0 ≡ block_in (running_held ⟦<DumpSite<S> as Site>⟧ running.old).content id.file id.block) }
    ensures looks { Looks 0 result (running_held ⟦<DumpSite<S> as Site>⟧ running.old) (running_held ⟦<DumpSite<S> as Site>⟧ running.new) }
    ensures tells { OnOk result (IsTrue S.tells → TellsSame (view_of ⟦<DumpSite<S> as Site>⟧ running.old.log) (view_of ⟦<DumpSite<S> as Site>⟧ running.new.log)) }
    ensures causes { HasCauses result (running_held ⟦<DumpSite<S> as Site>⟧ running.old) (running_held ⟦<DumpSite<S> as Site>⟧ running.new) }
    ensures only { IfErr result IsCopyFault }
    ensures kept { KeepsFields running.old running.new }
    ensures broken { IfErr result (λ e. running.new.broken ≡ true) }
    ensures grown { TrailGrows ⟦<DumpSite<S> as Site>⟧ 0 running.old running.new }
    ensures same { S.same_site running.old.log.site.site running.new.log.site.site }
    ensures file { running.new.log.site.file ≡ running.old.log.site.file }
    ensures read { IsTrue S.tells → S.files running.new.log.site.site ≡ S.files running.old.log.site.site }
    ensures moments { Steps Same (S.clock running.old.log.site.site) (S.clock running.new.log.site.site) }
{
    let mut buffer = [0u8; 1024];
    let at = 1024 * u64::from(id.block);
    match running.log.site.site.read(id.file, at, &mut buffer) {
        Ok(1024) => Ok(Block(buffer)),
        Ok(_) => {
            running.broken = true;
            running.damaged = running.damaged.saturating_add(1);
            Err(BlockFault::Damaged(id.file, id.block))
        }
        Err(_) => {
            running.broken = true;
            Err(BlockFault::Disk)
        }
    }
}

/// A block below its file's count, as a read answers it. It takes no frame and isn't counted, and no block is given up for it. Answers Disk, and
/// Damaged where its file ends within it.
pub(crate) fn look_at<S: Site>(
    running: &mut Running<DumpSite<S>>,
    id: BlockId,
) -> Result<Block, BlockFault>
    requires sound { (running_held ⟦<DumpSite<S> as Site>⟧ running.old).sound }
    requires there { id.block < (running_held ⟦<DumpSite<S> as Site>⟧ running.old).counts id.file }
    ensures block { IfOk result (λ x. IsTrue S.tells → x.0 ≡ block_in (running_held ⟦<DumpSite<S> as Site>⟧ running.old).content id.file id.block) }
    ensures looks { Looks 0 result (running_held ⟦<DumpSite<S> as Site>⟧ running.old) (running_held ⟦<DumpSite<S> as Site>⟧ running.new) }
    ensures tells { OnOk result (IsTrue S.tells → TellsSame (view_of ⟦<DumpSite<S> as Site>⟧ running.old.log) (view_of ⟦<DumpSite<S> as Site>⟧ running.new.log)) }
    ensures causes { HasCauses result (running_held ⟦<DumpSite<S> as Site>⟧ running.old) (running_held ⟦<DumpSite<S> as Site>⟧ running.new) }
    ensures only { IfErr result IsCopyFault }
    ensures kept { KeepsFields running.old running.new }
    ensures broken { IfErr result (λ e. running.new.broken ≡ true) }
    ensures grown { TrailGrows ⟦<DumpSite<S> as Site>⟧ 0 running.old running.new }
    ensures same { S.same_site running.old.log.site.site running.new.log.site.site }
    ensures file { running.new.log.site.file ≡ running.old.log.site.file }
    ensures read { IsTrue S.tells → S.files running.new.log.site.site ≡ S.files running.old.log.site.site }
    ensures moments { Steps Same (S.clock running.old.log.site.site) (S.clock running.new.log.site.site) }
{
    match running.pool.peek(id) {
        Some(block) => Ok(block),
        None => look_in_file(running, id),
    }
}
