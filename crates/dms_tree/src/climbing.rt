ghost use Rattle.std.specs.Prelude.{◌≡◌, ◌+◌, ◌*◌, ◌≤◌, ◌<◌, IfOk, OnErr, OnOk, IsErrOf, IsTrue, false, length, true};
ghost use Rattle.dms_block.specs.Content.{limit};
ghost use Rattle.dms_block.specs.View.{overlay_content, seen_counts, under, overlay_changes};
ghost use Rattle.dms_tree.specs.Climbs.{ClimbHolds, Climbs, Closes, IsEnough, IsWholeUp, Shrinks};
ghost use Rattle.dms_tree.specs.LeafJoints.{LeafJointHolds};
ghost use Rattle.dms_tree.specs.Mates.{GapHolds};
ghost use Rattle.dms_tree.specs.UpMates.{MatesHold};

use crate::leaving::{LeafJoint, level_leaves};
use crate::node::{InnerBlock, TreeHead, root_block};
use crate::removing::{Gap, fill_last, mend};
use dms_block::{BlockFault, BlockId, Blocks, Overlay};
use dms_chain::free_block;
use std::alloc::Global;

/// An inner block that may lack a separator and isn't written yet, with the neighbours of it and of the blocks above it,
/// its own last.
#[derive(Drop)]
pub struct Climb {
    pub gap: Gap,
    pub mates: Vec<InnerBlock>,
}

/// Whether a block other than the root has too few separators.
fn is_short(gap: &Gap) -> bool
    requires wide { gap.now.width ≤ 104 }
    ensures more { result ≡ true → 0 < length gap.now.path.items }
    ensures enough { result ≡ false → IsEnough gap.now }
{
    if gap.path.is_empty() {
        return false;
    }
    gap.inner.seps.len() < 1017 / (gap.width + 4) / 2
}

/// One level up: the block and its neighbour become one or two, and the block above isn't written then.
fn mend_one<B: Blocks>(over: &mut Overlay<B>, file: u32, climb: Climb) -> Result<Climb, BlockFault>
    requires owned { IsTrue ((under over.old).owns file) }
    requires holds { ClimbHolds (seen_counts over.old file) climb }
    requires some { 0 < length climb.gap.path.items }
    requires end { seen_counts over.old file ≤ limit }
    ensures below { over.new.below ≡ over.old.below }
    ensures climbs { IfOk result (Climbs over.old over.new file climb) }
    ensures fewer { IfOk result (λ d. length d.mates.items + 1 ≡ length climb.mates.items) }
    ensures more { length (overlay_changes over.new) ≤ length (overlay_changes over.old) + 2 }
    ensures memory { OnErr result (IsErrOf result BlockFault.Memory) }
{
    let Climb { mut gap, mut mates } = climb;
    let above = gap.path.len() - 1;
    let step = gap.path.remove(above);
    let last = mates.len() - 1;
    let mate = mates.remove(last);
    let gap = mend(over, file, gap, step, mate)?;
    Ok(Climb { gap, mates })
}

/// Up to the first block that has separators enough, or the root. That block isn't written then.
pub fn mend_all<B: Blocks>(
    over: &mut Overlay<B>,
    file: u32,
    start: Climb,
) -> Result<Climb, BlockFault>
    requires owned { IsTrue ((under over.old).owns file) }
    requires holds { ClimbHolds (seen_counts over.old file) start }
    requires end { seen_counts over.old file ≤ limit }
    ensures below { over.new.below ≡ over.old.below }
    ensures climbs { IfOk result (Climbs over.old over.new file start) }
    ensures enough { IfOk result (λ d. IsEnough d.gap) }
    ensures more { length (overlay_changes over.new) ≤ length (overlay_changes over.old) + 2 * length start.mates.items }
    ensures memory { OnErr result (IsErrOf result BlockFault.Memory) }
{
    let mut climb = start;
    while is_short(&climb.gap) {
        climb = mend_one(over, file, climb)?;
    }
    Ok(climb)
}

/// A root of one child falls away: its child is the root, and its block is free.
fn drop_root<B: Blocks>(over: &mut Overlay<B>, file: u32, gap: &Gap) -> Result<(), BlockFault>
    requires owned { IsTrue ((under over.old).owns file) }
    requires holds { GapHolds (seen_counts over.old file) gap.now }
    requires none { length gap.now.inner.seps.items ≡ 0 }
    requires end { seen_counts over.old file ≤ limit }
    ensures below { over.new.below ≡ over.old.below }
    ensures closes { OnOk result (Closes over.old over.new file gap.now) }
    ensures more { length (overlay_changes over.new) ≤ length (overlay_changes over.old) + 2 }
    ensures memory { OnErr result (IsErrOf result BlockFault.Memory) }
{
    let root = gap.inner.kids[0];
    over.write(
        BlockId {
            file,
            block: gap.number,
        },
        &free_block(gap.free),
    )?;
    let head = TreeHead {
        root,
        free: gap.number,
    };
    over.write(BlockId { file, block: 0 }, &root_block(head))
}

/// The last writes of a way up: the block that isn't written yet, or a root of one child falls away, and the head.
pub fn close<B: Blocks>(over: &mut Overlay<B>, file: u32, gap: &Gap) -> Result<(), BlockFault>
    requires owned { IsTrue ((under over.old).owns file) }
    requires holds { GapHolds (seen_counts over.old file) gap.now }
    requires end { seen_counts over.old file ≤ limit }
    ensures below { over.new.below ≡ over.old.below }
    ensures closes { OnOk result (Closes over.old over.new file gap.now) }
    ensures more { length (overlay_changes over.new) ≤ length (overlay_changes over.old) + 2 }
    ensures memory { OnErr result (IsErrOf result BlockFault.Memory) }
{
    if gap.inner.seps.is_empty() {
        return drop_root(over, file, gap);
    }
    fill_last(over, file, gap)
}

/// Two neighbouring leaves, which an entry left, become one or two, and so the blocks above them as far as they lack
/// separators. All neighbours on the way were read.
pub fn shrink<B: Blocks>(
    over: &mut Overlay<B>,
    alloc: Global,
    file: u32,
    joint: LeafJoint,
    mates: Vec<InnerBlock>,
) -> Result<(), BlockFault>
    requires owned { IsTrue ((under over.old).owns file) }
    requires holds { LeafJointHolds (seen_counts over.old file) joint }
    requires mates { MatesHold joint.width (seen_counts over.old file) joint.path.items mates.items }
    requires end { seen_counts over.old file ≤ limit }
    ensures below { over.new.below ≡ over.old.below }
    ensures shrinks { OnOk result (Shrinks over.old over.new file joint.width (IsWholeUp (seen_counts over.old file) (overlay_content over.old file) joint mates.items)) }
    ensures more { length (overlay_changes over.new) ≤ length (overlay_changes over.old) + (4 + 2 * length mates.items) }
    ensures memory { OnErr result (IsErrOf result BlockFault.Memory) }
{
    let gap = level_leaves(over, alloc, file, joint)?;
    let climbed = mend_all(over, file, Climb { gap, mates })?;
    close(over, file, &climbed.gap)
}
