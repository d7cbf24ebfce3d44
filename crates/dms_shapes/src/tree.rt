//! Whether the blocks of a file are a tree.

ghost use Rattle.std.specs.Prelude.{◌≡◌, ◌<◌, ◌≤◌, false, IfOk, IfSome, IsTrue, is_some, length, option_map, slice_get};
ghost use Rattle.dms_chain.specs.Linked.{said_by};
ghost use Rattle.dms_chain.specs.Seen.{IsListWidth};
ghost use Rattle.dms_shapes.specs.Trees.{TreeAnswer};
ghost use Rattle.dms_shapes.specs.TreeShapes.{RootAnswer};
ghost use Rattle.dms_shapes.specs.Walks.{is_fresh};
ghost use Rattle.dms_tree.specs.TreeBlocks.{root_in};
ghost use Rattle.dms_tree.specs.TreeIn.{tree_in};
ghost use Rattle.dms_view.specs.Looked.{Looked};

use crate::descent::levels_under;
use crate::leafage::are_leaves;
use crate::marks::head_marked;
use crate::spares::spares_from;
use dms_block::BlockId;
use dms_tree::{TreeHead, root_of};
use dms_view::{View, ViewFault};
use std::alloc::Global;

/// The head of a tree, if one stands at the front of a file.
pub(crate) fn root_at<V: View>(view: &mut V, file: u32) -> Result<Option<TreeHead>, ViewFault>
    ensures head { IfOk result (λ o. IsTrue V.tells → 0 < length (V.content view.old file) → said_by root_in (slice_get (V.content view.old file) 0) ≡ option_map (λ h. (h.root, h.free)) o) }
    ensures looks { Looked V.View view.old view.new result }
{
    let block = view.block(BlockId { file, block: 0 })?;
    Ok(root_of(&block))
}

/// Goes through the tree under a root and marks its blocks: how many they are. None where there is no tree.
fn tree_under<V: View>(
    view: &mut V,
    alloc: Global,
    file: u32,
    width: usize,
    root: u32,
    seen: &mut [bool],
) -> Result<Option<usize>, ViewFault>
    requires width { IsListWidth width }
    requires some { 0 < length seen.old }
    ensures answer { IfOk result (λ o. IsTrue V.tells → length seen.old ≡ length (V.content view.old file) → is_fresh seen.old 0 ≡ false
        → TreeAnswer width (slice_get (V.content view.old file)) root seen.old seen.new o) }
    ensures long { length seen.new ≡ length seen.old }
    ensures few { IfOk result (λ o. IfSome o (λ n. n ≤ length seen.old)) }
    ensures looks { Looked V.View view.old view.new result }
{
    if root == 0 {
        return Ok(Some(0));
    }
    let bottom = match levels_under(view, alloc, file, width, root, seen)? {
        Some(bottom) => bottom,
        None => return Ok(None),
    };
    if are_leaves(view, alloc, file, width, root, &bottom.level)? {
        return Ok(Some(bottom.met));
    }
    Ok(None)
}

/// Whether the tree and the free chain of a head are all blocks of a file, once each.
fn is_rooted<V: View>(
    view: &mut V,
    alloc: Global,
    file: u32,
    width: usize,
    count: u32,
    head: TreeHead,
) -> Result<bool, ViewFault>
    requires width { IsListWidth width }
    requires some { 0 < count }
    requires low { count ≤ 2097152 }
    ensures is { IfOk result (λ b. IsTrue V.tells → count ≡ length (V.content view.old file) → RootAnswer width (V.content view.old file) head.root head.free b) }
    ensures looks { Looked V.View view.old view.new result }
{
    let mut seen = head_marked(alloc, count as usize)?;
    let marks: &mut [bool] = &mut seen;
    let met = match tree_under(view, alloc, file, width, head.root, marks)? {
        Some(met) => met,
        None => return Ok(false),
    };
    let free = match spares_from(view, file, head.free, marks)? {
        Some(free) => free,
        None => return Ok(false),
    };
    Ok(1 + met + free == count as usize)
}

/// Whether the blocks of a file are a list of entries of one width, in a tree.
pub fn is_tree<V: View>(
    view: &mut V,
    alloc: Global,
    file: u32,
    width: usize,
) -> Result<bool, ViewFault>
    requires width { IsListWidth width }
    ensures is { IfOk result (λ b. IsTrue V.tells → b ≡ is_some (tree_in width (V.content view.old file))) }
    ensures looks { Looked V.View view.old view.new result }
{
    let count = view.count(file);
    if count == 0 {
        return Ok(true);
    }
    match root_at(view, file)? {
        Some(head) => is_rooted(view, alloc, file, width, count, head),
        None => Ok(false),
    }
}
