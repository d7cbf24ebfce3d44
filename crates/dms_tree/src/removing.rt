ghost use Rattle.std.specs.Prelude.{◌≡◌, ◌+◌, ◌*◌, ◌≤◌, ◌<◌, ◌++◌, ◌∷◌, IfOk, OnErr, OnOk, IsErrOf, IsTrue, length};
ghost use Rattle.dms_block.specs.Content.{limit};
ghost use Rattle.dms_block.specs.View.{seen_counts, under, overlay_changes};
ghost use Rattle.std.proofs.Common.{get_or};
ghost use Rattle.dms_tree.specs.Ends.{Ends};
ghost use Rattle.dms_tree.specs.Mates.{GapHolds, IsMated, mate_place};
ghost use Rattle.dms_tree.specs.Mends.{JointHolds, Mends};
ghost use Rattle.dms_tree.specs.TreeSpells.{IsInner};
ghost use Rattle.dms_tree.specs.Turns.{Turns};
ghost use Rattle.dms_tree.specs.Ups.{IsPassed};

use crate::inner::inner_block;
use crate::node::{InnerBlock, TreeHead, root_block};
use crate::raising::{PathStep, part_inner};
use dms_base::{Bytes, Memory};
use dms_block::{BlockFault, BlockId, Blocks, Overlay};
use dms_chain::free_block;

/// An inner block that may lack a separator and isn't written yet, with the way to it from the root, and the first free
/// block.
#[derive(Drop)]
pub struct Gap {
    pub width: usize,
    pub root: u32,
    pub free: u32,
    pub path: Vec<PathStep>,
    pub number: u32,
    pub inner: InnerBlock,
}

/// What two neighbours and the separator between them hold together, and the block above without that separator. The
/// first of them is the child of that block that was taken.
#[derive(Drop)]
pub struct Joint {
    pub width: usize,
    pub root: u32,
    pub free: u32,
    pub path: Vec<PathStep>,
    pub number: u32,
    pub inner: InnerBlock,
    pub taken: usize,
    pub first: u32,
    pub second: u32,
    pub whole: InnerBlock,
}

/// Two inner blocks and the separator between them in one.
pub fn joined(low: InnerBlock, sep: Bytes, high: InnerBlock) -> Result<InnerBlock, Memory>
    ensures kids { IfOk result (λ x. x.kids.items ≡ low.kids.items ++ high.kids.items) }
    ensures seps { IfOk result (λ x. x.seps.items ≡ low.seps.items ++ sep ∷ high.seps.items) }
{
    let InnerBlock { mut kids, mut seps } = low;
    let InnerBlock {
        kids: mut high_kids,
        seps: mut high_seps,
    } = high;
    kids.append(&mut high_kids)?;
    seps.push(sep)?;
    seps.append(&mut high_seps)?;
    Ok(InnerBlock { kids, seps })
}

/// The two become one, and the second block is free.
fn join_two<B: Blocks>(over: &mut Overlay<B>, file: u32, joint: Joint) -> Result<Gap, BlockFault>
    requires owned { IsTrue ((under over.old).owns file) }
    requires holds { JointHolds (seen_counts over.old file) joint }
    requires end { seen_counts over.old file ≤ limit }
    requires fits { length joint.whole.seps.items * (joint.width + 4) ≤ 1017 }
    ensures below { over.new.below ≡ over.old.below }
    ensures mends { IfOk result (Mends over.old over.new file joint) }
    ensures more { length (overlay_changes over.new) ≤ length (overlay_changes over.old) + 2 }
    ensures memory { OnErr result (IsErrOf result BlockFault.Memory) }
{
    let Joint {
        width,
        root,
        free,
        path,
        number,
        inner,
        taken,
        first,
        second,
        whole,
    } = joint;
    let InnerBlock { mut kids, seps } = inner;
    let _ = kids.remove(taken + 1);
    over.write(BlockId { file, block: first }, &inner_block(&whole))?;
    over.write(
        BlockId {
            file,
            block: second,
        },
        &free_block(free),
    )?;
    Ok(Gap {
        width,
        root,
        free: second,
        path,
        number,
        inner: InnerBlock { kids, seps },
    })
}

/// The two are shared anew.
fn share_two<B: Blocks>(over: &mut Overlay<B>, file: u32, joint: Joint) -> Result<Gap, BlockFault>
    requires owned { IsTrue ((under over.old).owns file) }
    requires holds { JointHolds (seen_counts over.old file) joint }
    requires end { seen_counts over.old file ≤ limit }
    requires many { 1017 < length joint.whole.seps.items * (joint.width + 4) }
    ensures below { over.new.below ≡ over.old.below }
    ensures mends { IfOk result (Mends over.old over.new file joint) }
    ensures more { length (overlay_changes over.new) ≤ length (overlay_changes over.old) + 2 }
    ensures memory { OnErr result (IsErrOf result BlockFault.Memory) }
{
    let Joint {
        width,
        root,
        free,
        path,
        number,
        inner,
        taken,
        first,
        second,
        whole,
    } = joint;
    let InnerBlock { kids, mut seps } = inner;
    let parts = part_inner(whole)?;
    over.write(BlockId { file, block: first }, &inner_block(&parts.low))?;
    over.write(
        BlockId {
            file,
            block: second,
        },
        &inner_block(&parts.high),
    )?;
    seps.insert(taken, parts.sep)?;
    Ok(Gap {
        width,
        root,
        free,
        path,
        number,
        inner: InnerBlock { kids, seps },
    })
}

/// Two neighbours become one or two blocks, as many as they need. The block above isn't written then.
pub fn level_two<B: Blocks>(
    over: &mut Overlay<B>,
    file: u32,
    joint: Joint,
) -> Result<Gap, BlockFault>
    requires owned { IsTrue ((under over.old).owns file) }
    requires holds { JointHolds (seen_counts over.old file) joint }
    requires end { seen_counts over.old file ≤ limit }
    ensures below { over.new.below ≡ over.old.below }
    ensures mends { IfOk result (Mends over.old over.new file joint) }
    ensures more { length (overlay_changes over.new) ≤ length (overlay_changes over.old) + 2 }
    ensures memory { OnErr result (IsErrOf result BlockFault.Memory) }
{
    if joint.whole.seps.len() * (joint.width + 4) <= 1017 {
        return join_two(over, file, joint);
    }
    share_two(over, file, joint)
}

/// A block that lacks a separator, and its neighbour under the block above: the one before it, else the one behind.
pub fn mated(gap: Gap, step: PathStep, mate: InnerBlock) -> Result<Joint, Memory>
    requires more { length step.inner.kids.items ≡ length step.inner.seps.items + 1 }
    requires some { 0 < length step.inner.seps.items }
    requires fit { step.taken ≤ length step.inner.seps.items }
    ensures { IfOk result (IsMated gap step mate) }
{
    let InnerBlock { kids, mut seps } = step.inner;
    if step.taken == 0 {
        let sep = seps.remove(0);
        let whole = joined(gap.inner, sep, mate)?;
        let second = kids[1];
        return Ok(Joint {
            width: gap.width,
            root: gap.root,
            free: gap.free,
            path: gap.path,
            number: step.number,
            inner: InnerBlock { kids, seps },
            taken: 0,
            first: gap.number,
            second,
            whole,
        });
    }
    let taken = step.taken - 1;
    let sep = seps.remove(taken);
    let whole = joined(mate, sep, gap.inner)?;
    let first = kids[taken];
    Ok(Joint {
        width: gap.width,
        root: gap.root,
        free: gap.free,
        path: gap.path,
        number: step.number,
        inner: InnerBlock { kids, seps },
        taken,
        first,
        second: gap.number,
        whole,
    })
}

/// One level up: a block that lacks a separator and its neighbour, which was read, become one or two blocks, and the
/// block above isn't written then.
pub fn mend<B: Blocks>(
    over: &mut Overlay<B>,
    file: u32,
    gap: Gap,
    step: PathStep,
    mate: InnerBlock,
) -> Result<Gap, BlockFault>
    requires owned { IsTrue ((under over.old).owns file) }
    requires holds { GapHolds (seen_counts over.old file) gap }
    requires passed { IsPassed gap.width (seen_counts over.old file) step }
    requires mate { IsInner gap.width mate.kids.items mate.seps.items }
    requires near { get_or step.inner.kids.items (mate_place step.taken) 0 < seen_counts over.old file }
    requires end { seen_counts over.old file ≤ limit }
    ensures below { over.new.below ≡ over.old.below }
    ensures turns { IfOk result (Turns over.old over.new file gap step mate) }
    ensures more { length (overlay_changes over.new) ≤ length (overlay_changes over.old) + 2 }
    ensures memory { OnErr result (IsErrOf result BlockFault.Memory) }
{
    let joint = mated(gap, step, mate)?;
    level_two(over, file, joint)
}

/// Writes the block that isn't written yet and lacks nothing, and the head.
pub fn fill_last<B: Blocks>(over: &mut Overlay<B>, file: u32, gap: &Gap) -> Result<(), BlockFault>
    requires owned { IsTrue ((under over.old).owns file) }
    requires holds { GapHolds (seen_counts over.old file) gap.now }
    requires some { 0 < length gap.now.inner.seps.items }
    requires end { seen_counts over.old file ≤ limit }
    ensures below { over.new.below ≡ over.old.below }
    ensures ends { OnOk result (Ends over.old over.new file gap.now) }
    ensures more { length (overlay_changes over.new) ≤ length (overlay_changes over.old) + 2 }
    ensures memory { OnErr result (IsErrOf result BlockFault.Memory) }
{
    over.write(
        BlockId {
            file,
            block: gap.number,
        },
        &inner_block(&gap.inner),
    )?;
    let head = TreeHead {
        root: gap.root,
        free: gap.free,
    };
    over.write(BlockId { file, block: 0 }, &root_block(head))
}
