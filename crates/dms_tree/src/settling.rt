ghost use Rattle.std.specs.Prelude.{◌≡◌, ◌+◌, ◌*◌, ◌≤◌, ◌<◌, IfOk, OnErr, OnOk, IsErrOf, IsTrue, length};
ghost use Rattle.dms_block.specs.Content.{limit};
ghost use Rattle.dms_block.specs.View.{seen_counts, under, overlay_changes};
ghost use Rattle.dms_tree.specs.Ups.{HoleHolds, hole_end, writes_up};
ghost use Rattle.dms_tree.specs.Settling.{Settles};

use crate::inner::inner_block;
use crate::raising::{Hole, part_inner, raise};
use dms_block::{BlockFault, BlockId, Blocks, Overlay};
use std::alloc::Global;

/// Cuts a block that is too full, and writes both halves. The block above has one child more then, and isn't written.
fn part<B: Blocks>(
    over: &mut Overlay<B>,
    alloc: Global,
    file: u32,
    hole: Hole,
) -> Result<Hole, BlockFault>
    requires owned { IsTrue ((under over.old).owns file) }
    requires holds { HoleHolds (seen_counts over.old file) hole }
    requires end { hole_end (seen_counts over.old file) hole ≤ limit }
    requires many { 1017 < length hole.inner.seps.items * (hole.width + 4) }
    ensures below { over.new.below ≡ over.old.below }
    ensures settles { IfOk result (Settles over.old over.new file hole) }
    ensures width { IfOk result (λ h. h.width ≡ hole.width) }
    ensures fewer { IfOk result (λ h. length h.fresh.items < length hole.fresh.items) }
    ensures left { IfOk result (λ h. writes_up h + 2 ≤ writes_up hole) }
    ensures more { length (overlay_changes over.new) ≤ length (overlay_changes over.old) + 2 }
    ensures memory { OnErr result (IsErrOf result BlockFault.Memory) }
{
    let Hole {
        width,
        root,
        mut fresh,
        path,
        number,
        inner,
    } = hole;
    let other = fresh.remove(0);
    let parts = part_inner(inner)?;
    over.write(
        BlockId {
            file,
            block: number,
        },
        &inner_block(&parts.low),
    )?;
    over.write(BlockId { file, block: other }, &inner_block(&parts.high))?;
    Ok(raise(alloc, width, root, fresh, path, number, other, parts.sep)?)
}

/// Cuts blocks that are too full, one level after another, up to one that isn't.
pub fn settle<B: Blocks>(
    over: &mut Overlay<B>,
    alloc: Global,
    file: u32,
    hole: Hole,
) -> Result<Hole, BlockFault>
    requires owned { IsTrue ((under over.old).owns file) }
    requires holds { HoleHolds (seen_counts over.old file) hole }
    requires end { hole_end (seen_counts over.old file) hole ≤ limit }
    ensures below { over.new.below ≡ over.old.below }
    ensures settles { IfOk result (Settles over.old over.new file hole) }
    ensures width { IfOk result (λ h. h.width ≡ hole.width) }
    ensures fits { IfOk result (λ h. length h.inner.seps.items * (h.width + 4) ≤ 1017) }
    ensures more { length (overlay_changes over.new) ≤ length (overlay_changes over.old) + writes_up hole }
    ensures memory { OnErr result (IsErrOf result BlockFault.Memory) }
{
    let mut hole = hole;
    while hole.inner.seps.len() * (hole.width + 4) > 1017 {
        hole = part(over, alloc, file, hole)?;
    }
    Ok(hole)
}
