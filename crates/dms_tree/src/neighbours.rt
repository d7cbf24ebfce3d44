ghost use Rattle.std.specs.Prelude.{◌≡◌, ◌+◌, ◌≤◌, ◌<◌, IfOk, IsTrue, Some, length};
ghost use Rattle.dms_block.specs.Held.{HasCausesOr};
ghost use Rattle.dms_block.specs.View.{ReadsOverlay, overlay_content, seen_counts, under};
ghost use Rattle.dms_chain.specs.Seen.{IsListWidth, look};
ghost use Rattle.dms_tree.specs.Neighbours.{NoInnerAt, NoMates};
ghost use Rattle.dms_tree.specs.TreeBlocks.{inner_in};
ghost use Rattle.dms_tree.specs.TreeIn.{says};
ghost use Rattle.dms_tree.specs.TreeSpells.{IsInner};
ghost use Rattle.dms_tree.specs.UpMates.{MatesHold, SayMates, mate_of};
ghost use Rattle.dms_tree.specs.Ups.{ArePassed};

use crate::node::{InnerBlock, Node};
use crate::raising::PathStep;
use crate::reading::read_node;
use dms_block::{BlockFault, Blocks, Overlay};
use std::alloc::Global;

/// The number of the neighbour of the block that a step leads to: the child before it, else the one behind it.
pub fn mate_number(step: &PathStep) -> u32
    requires more { length step.now.inner.kids.items ≡ length step.now.inner.seps.items + 1 }
    requires some { 0 < length step.now.inner.seps.items }
    requires fit { step.now.taken ≤ length step.now.inner.seps.items }
    ensures { result ≡ mate_of step.now }
{
    if step.taken == 0 {
        return step.inner.kids[1];
    }
    step.inner.kids[step.taken - 1]
}

/// The inner block at this number, which another block names.
fn read_inner<B: Blocks>(
    over: &mut Overlay<B>,
    alloc: Global,
    file: u32,
    width: usize,
    named_by: u32,
    at: u32,
) -> Result<InnerBlock, BlockFault>
    requires sound { (under over.old).sound }
    requires width { IsListWidth width }
    requires named { named_by < seen_counts over.old file }
    ensures inner { IfOk result (λ x. IsTrue (under over.old).told → says (inner_in width) (look over.old file at) ≡ Some (x.kids.items, x.seps.items)) }
    ensures holds { IfOk result (λ x. IsInner width x.kids.items x.seps.items) }
    ensures there { IfOk result (λ x. at < seen_counts over.old file) }
    ensures reads { ReadsOverlay 1 result over.old over.new }
    ensures causes { HasCausesOr (NoInnerAt width over.old file at) result (under over.old) (under over.new) }
{
    match read_node(over, alloc, file, width, named_by, at) {
        Ok(Node::Inner(inner)) => Ok(inner),
        Ok(Node::Leaf(_leaf)) => Err(BlockFault::Damaged(file, at)),
        Err(fault) => Err(fault),
    }
}

/// The neighbours of the blocks that steps lead to, in the steps' order.
pub fn read_mates<B: Blocks>(
    over: &mut Overlay<B>,
    alloc: Global,
    file: u32,
    width: usize,
    path: &[PathStep],
) -> Result<Vec<InnerBlock>, BlockFault>
    requires sound { (under over.old).sound }
    requires width { IsListWidth width }
    requires passed { ArePassed width (seen_counts over.old file) path.now }
    ensures mates { IfOk result (λ ms. IsTrue (under over.old).told → SayMates (overlay_content over.old file) width path.now ms.items) }
    ensures holds { IfOk result (λ ms. MatesHold width (seen_counts over.old file) path.now ms.items) }
    ensures reads { ReadsOverlay (length path.now) result over.old over.new }
    ensures causes { HasCausesOr (NoMates width over.old file path.now) result (under over.old) (under over.new) }
{
    let mut mates = Vec::new(alloc);
    for step in path {
        let at = mate_number(step);
        match read_inner(over, alloc, file, width, step.number, at) {
            Ok(mate) => mates.push(mate)?,
            Err(fault) => return Err(fault),
        }
    }
    Ok(mates)
}
