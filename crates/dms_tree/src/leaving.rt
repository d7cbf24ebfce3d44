ghost use Rattle.std.specs.Prelude.{◌≡◌, ◌+◌, ◌*◌, ◌≤◌, ◌<◌, ◌++◌, IfOk, OnErr, IsErrOf, IsTrue, length};
ghost use Rattle.dms_block.specs.Content.{limit};
ghost use Rattle.dms_block.specs.View.{seen_counts, under, overlay_changes};
ghost use Rattle.dms_tree.specs.LeafJoints.{AreLeavesMated, LeafJointHolds};
ghost use Rattle.dms_tree.specs.LeafMends.{LeafMends};

use crate::node::InnerBlock;
use crate::raising::PathStep;
use crate::removing::Gap;
use dms_base::Memory;
use dms_block::{BlockFault, BlockId, Blocks, Overlay};
use dms_chain::{LeafBlock, free_block, leaf_block};
use std::alloc::Global;

/// A leaf that an entry left and that isn't written yet, with the way to the block above it from the root, and the first
/// free block.
#[derive(Drop)]
pub struct ShortLeaf {
    pub width: usize,
    pub root: u32,
    pub free: u32,
    pub path: Vec<PathStep>,
    pub number: u32,
    pub leaf: LeafBlock,
}

/// What two neighbouring leaves hold together, and the block above without the separator between them. The first of them
/// is the child of that block that was taken.
#[derive(Drop)]
pub struct LeafJoint {
    pub width: usize,
    pub root: u32,
    pub free: u32,
    pub path: Vec<PathStep>,
    pub number: u32,
    pub inner: InnerBlock,
    pub taken: usize,
    pub first: u32,
    pub second: u32,
    pub whole: LeafBlock,
}

/// Two leaves in one.
fn joined_leaves(low: LeafBlock, high: LeafBlock) -> Result<LeafBlock, Memory>
    ensures next { IfOk result (λ x. x.next ≡ high.next) }
    ensures entries { IfOk result (λ x. x.entries.items ≡ low.entries.items ++ high.entries.items) }
{
    let mut entries = low.entries;
    let LeafBlock {
        next,
        entries: mut high_entries,
    } = high;
    entries.append(&mut high_entries)?;
    Ok(LeafBlock { next, entries })
}

/// A leaf that an entry left, and its neighbour under the block above: the one before it, else the one behind.
pub fn mated_leaves(short: ShortLeaf, step: PathStep, mate: LeafBlock) -> Result<LeafJoint, Memory>
    requires more { length step.inner.kids.items ≡ length step.inner.seps.items + 1 }
    requires some { 0 < length step.inner.seps.items }
    requires fit { step.taken ≤ length step.inner.seps.items }
    ensures { IfOk result (AreLeavesMated short step mate) }
{
    let InnerBlock { kids, mut seps } = step.inner;
    if step.taken == 0 {
        let _ = seps.remove(0);
        let whole = joined_leaves(short.leaf, mate)?;
        let second = kids[1];
        return Ok(LeafJoint {
            width: short.width,
            root: short.root,
            free: short.free,
            path: short.path,
            number: step.number,
            inner: InnerBlock { kids, seps },
            taken: 0,
            first: short.number,
            second,
            whole,
        });
    }
    let taken = step.taken - 1;
    let _ = seps.remove(taken);
    let whole = joined_leaves(mate, short.leaf)?;
    let first = kids[taken];
    Ok(LeafJoint {
        width: short.width,
        root: short.root,
        free: short.free,
        path: short.path,
        number: step.number,
        inner: InnerBlock { kids, seps },
        taken,
        first,
        second: short.number,
        whole,
    })
}

/// Both leaves become one, and the second block is free.
fn join_leaves<B: Blocks>(
    over: &mut Overlay<B>,
    file: u32,
    joint: LeafJoint,
) -> Result<Gap, BlockFault>
    requires owned { IsTrue ((under over.old).owns file) }
    requires holds { LeafJointHolds (seen_counts over.old file) joint }
    requires end { seen_counts over.old file ≤ limit }
    requires fits { length joint.whole.entries.items * joint.width ≤ 1017 }
    ensures below { over.new.below ≡ over.old.below }
    ensures mends { IfOk result (LeafMends over.old over.new file joint) }
    ensures more { length (overlay_changes over.new) ≤ length (overlay_changes over.old) + 2 }
    ensures memory { OnErr result (IsErrOf result BlockFault.Memory) }
{
    let LeafJoint {
        width,
        root,
        free,
        path,
        number,
        inner,
        taken,
        first,
        second,
        whole,
    } = joint;
    let InnerBlock { mut kids, seps } = inner;
    let _ = kids.remove(taken + 1);
    over.write(BlockId { file, block: first }, &leaf_block(&whole))?;
    over.write(
        BlockId {
            file,
            block: second,
        },
        &free_block(free),
    )?;
    Ok(Gap {
        width,
        root,
        free: second,
        path,
        number,
        inner: InnerBlock { kids, seps },
    })
}

/// Both leaves are shared anew.
fn share_leaves<B: Blocks>(
    over: &mut Overlay<B>,
    alloc: Global,
    file: u32,
    joint: LeafJoint,
) -> Result<Gap, BlockFault>
    requires owned { IsTrue ((under over.old).owns file) }
    requires holds { LeafJointHolds (seen_counts over.old file) joint }
    requires end { seen_counts over.old file ≤ limit }
    requires many { 1017 < length joint.whole.entries.items * joint.width }
    ensures below { over.new.below ≡ over.old.below }
    ensures mends { IfOk result (LeafMends over.old over.new file joint) }
    ensures more { length (overlay_changes over.new) ≤ length (overlay_changes over.old) + 2 }
    ensures memory { OnErr result (IsErrOf result BlockFault.Memory) }
{
    let InnerBlock { kids, mut seps } = joint.inner;
    let LeafBlock { next, mut entries } = joint.whole;
    let half = entries.len() / 2;
    let others = entries.split_off(half)?;
    let sep = others[0].copy(alloc)?;
    let low = LeafBlock {
        next: joint.second,
        entries,
    };
    let high = LeafBlock {
        next,
        entries: others,
    };
    over.write(
        BlockId {
            file,
            block: joint.first,
        },
        &leaf_block(&low),
    )?;
    over.write(
        BlockId {
            file,
            block: joint.second,
        },
        &leaf_block(&high),
    )?;
    seps.insert(joint.taken, sep)?;
    Ok(Gap {
        width: joint.width,
        root: joint.root,
        free: joint.free,
        path: joint.path,
        number: joint.number,
        inner: InnerBlock { kids, seps },
    })
}

/// Two neighbouring leaves become one or two, as many as they need. The block above isn't written then.
pub fn level_leaves<B: Blocks>(
    over: &mut Overlay<B>,
    alloc: Global,
    file: u32,
    joint: LeafJoint,
) -> Result<Gap, BlockFault>
    requires owned { IsTrue ((under over.old).owns file) }
    requires holds { LeafJointHolds (seen_counts over.old file) joint }
    requires end { seen_counts over.old file ≤ limit }
    ensures below { over.new.below ≡ over.old.below }
    ensures mends { IfOk result (LeafMends over.old over.new file joint) }
    ensures more { length (overlay_changes over.new) ≤ length (overlay_changes over.old) + 2 }
    ensures memory { OnErr result (IsErrOf result BlockFault.Memory) }
{
    if joint.whole.entries.len() * joint.width <= 1017 {
        return join_leaves(over, file, joint);
    }
    share_leaves(over, alloc, file, joint)
}
