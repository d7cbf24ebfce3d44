ghost use Rattle.std.specs.Prelude.{◌≡◌, ◌+◌, ◌*◌, ◌≤◌, ◌<◌, [], IfOk, OnErr, OnOk, IsErrOf, IsTrue, length};
ghost use Rattle.dms_block.specs.Content.{limit};
ghost use Rattle.dms_block.specs.View.{overlay_content, seen_counts, under, overlay_changes};
ghost use Rattle.dms_tree.specs.Coming.{CutsLeaf, Finishes, GrowsLeaf};
ghost use Rattle.dms_tree.specs.Finishing.{LeafHolds};
ghost use Rattle.dms_tree.specs.Ups.{HoleHolds, end_after, hole_end, writes_up};

use crate::inner::inner_block;
use crate::node::{TreeHead, root_block};
use crate::raising::{Hole, PathStep, raise};
use crate::settling::settle;
use dms_block::{BlockFault, BlockId, Blocks, Overlay};
use dms_chain::{LeafBlock, leaf_block};
use std::alloc::Global;

/// Cuts a leaf that has an entry too many, and writes both halves. The block above has one child more then, and isn't
/// written.
fn part_leaf<B: Blocks>(
    over: &mut Overlay<B>,
    alloc: Global,
    file: u32,
    width: usize,
    root: u32,
    fresh: Vec<u32>,
    path: Vec<PathStep>,
    number: u32,
    leaf: LeafBlock,
) -> Result<Hole, BlockFault>
    requires owned { IsTrue ((under over.old).owns file) }
    requires holds { LeafHolds (seen_counts over.old file) width fresh.items path.items number leaf.entries.items }
    requires end { end_after (seen_counts over.old file) fresh.items ≤ limit }
    ensures below { over.new.below ≡ over.old.below }
    ensures comes { IfOk result (CutsLeaf over.old over.new file width root path.items number leaf fresh.items) }
    ensures width { IfOk result (λ h. h.width ≡ width) }
    ensures left { IfOk result (λ h. writes_up h ≤ 2 * length path.items) }
    ensures more { length (overlay_changes over.new) ≤ length (overlay_changes over.old) + 2 }
    ensures memory { OnErr result (IsErrOf result BlockFault.Memory) }
{
    let mut fresh = fresh;
    let other = fresh.remove(0);
    let LeafBlock { next, mut entries } = leaf;
    let half = entries.len() / 2;
    let others = entries.split_off(half)?;
    let sep = others[0].copy(alloc)?;
    let low = LeafBlock {
        next: other,
        entries,
    };
    let high = LeafBlock {
        next,
        entries: others,
    };
    over.write(
        BlockId {
            file,
            block: number,
        },
        &leaf_block(&low),
    )?;
    over.write(BlockId { file, block: other }, &leaf_block(&high))?;
    Ok(raise(alloc, width, root, fresh, path, number, other, sep)?)
}

/// Writes the block that isn't written yet, and the head.
fn finish<B: Blocks>(
    over: &mut Overlay<B>,
    file: u32,
    free: u32,
    hole: &Hole,
) -> Result<(), BlockFault>
    requires owned { IsTrue ((under over.old).owns file) }
    requires holds { HoleHolds (seen_counts over.old file) hole.now }
    requires fits { length hole.now.inner.seps.items * (hole.now.width + 4) ≤ 1017 }
    requires end { hole_end (seen_counts over.old file) hole.now ≤ limit }
    ensures below { over.new.below ≡ over.old.below }
    ensures finishes { OnOk result (Finishes over.old over.new file free hole.now) }
    ensures more { length (overlay_changes over.new) ≤ length (overlay_changes over.old) + 2 }
    ensures memory { OnErr result (IsErrOf result BlockFault.Memory) }
{
    over.write(
        BlockId {
            file,
            block: hole.number,
        },
        &inner_block(&hole.inner),
    )?;
    let head = TreeHead {
        root: hole.root,
        free,
    };
    over.write(BlockId { file, block: 0 }, &root_block(head))
}

/// Cuts a leaf that has an entry too many, and then block after block above it, as far as they are too full. The blocks
/// for that were taken.
pub fn grow<B: Blocks>(
    over: &mut Overlay<B>,
    alloc: Global,
    file: u32,
    width: usize,
    head: TreeHead,
    fresh: Vec<u32>,
    path: Vec<PathStep>,
    number: u32,
    leaf: LeafBlock,
) -> Result<(), BlockFault>
    requires owned { IsTrue ((under over.old).owns file) }
    requires holds { LeafHolds (seen_counts over.old file) width fresh.items path.items number leaf.entries.items }
    requires end { end_after (seen_counts over.old file) fresh.items ≤ limit }
    ensures below { over.new.below ≡ over.old.below }
    ensures grows { OnOk result (GrowsLeaf over.old over.new file width head path.items number leaf fresh.items) }
    ensures more { length (overlay_changes over.new) ≤ length (overlay_changes over.old) + (4 + 2 * length path.items) }
    ensures memory { OnErr result (IsErrOf result BlockFault.Memory) }
{
    let hole = part_leaf(
        over, alloc, file, width, head.root, fresh, path, number, leaf,
    )?;
    let settled = settle(over, alloc, file, hole)?;
    finish(over, file, head.free, &settled)
}
