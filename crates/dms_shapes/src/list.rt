//! Whether the blocks of a file are a list.

ghost use Rattle.std.specs.Prelude.{◌≡◌, ◌<◌, ◌≤◌, IfOk, IfSome, IsTrue, is_some, length, option_map, slice_get};
ghost use Rattle.dms_chain.specs.Linked.{said_by};
ghost use Rattle.dms_chain.specs.ListBlocks.{head_in};
ghost use Rattle.dms_chain.specs.ListIn.{list_in};
ghost use Rattle.dms_chain.specs.Seen.{IsListWidth};
ghost use Rattle.dms_shapes.specs.ListShapes.{ChainsAnswer};
ghost use Rattle.dms_view.specs.Looked.{Looked};

use crate::leaves::leaves_from;
use crate::marks::no_marks;
use crate::spares::spares_from;
use dms_block::BlockId;
use dms_chain::{ListHead, head_of};
use dms_view::{View, ViewFault};
use std::alloc::Global;

/// The head of a list, if one stands at the front of a file.
pub(crate) fn head_at<V: View>(view: &mut V, file: u32) -> Result<Option<ListHead>, ViewFault>
    ensures head { IfOk result (λ o. IsTrue V.tells → 0 < length (V.content view.old file) → said_by head_in (slice_get (V.content view.old file) 0) ≡ option_map (λ h. (h.first, h.free)) o) }
    ensures looks { Looked V.View view.old view.new result }
{
    let block = view.block(BlockId { file, block: 0 })?;
    Ok(head_of(&block))
}

/// Whether the chains of a head are all blocks of a file, once each, and the entries rise.
fn are_chains<V: View>(
    view: &mut V,
    alloc: Global,
    file: u32,
    width: usize,
    count: u32,
    head: ListHead,
) -> Result<bool, ViewFault>
    requires width { IsListWidth width }
    requires some { 0 < count }
    requires low { count ≤ 2097152 }
    ensures is { IfOk result (λ b. IsTrue V.tells → count ≡ length (V.content view.old file) → ChainsAnswer width (V.content view.old file) head.first head.free b) }
    ensures looks { Looked V.View view.old view.new result }
{
    let mut seen = no_marks(alloc, count as usize)?;
    let marks: &mut [bool] = &mut seen;
    let met = match leaves_from(view, alloc, file, width, head.first, marks)? {
        Some(met) => met,
        None => return Ok(false),
    };
    let free = match spares_from(view, file, head.free, marks)? {
        Some(free) => free,
        None => return Ok(false),
    };
    Ok(1 + met + free == count as usize)
}

/// Whether the blocks of a file are a list of entries of one width, in one chain.
pub fn is_list<V: View>(
    view: &mut V,
    alloc: Global,
    file: u32,
    width: usize,
) -> Result<bool, ViewFault>
    requires width { IsListWidth width }
    ensures is { IfOk result (λ b. IsTrue V.tells → b ≡ is_some (list_in width (V.content view.old file))) }
    ensures looks { Looked V.View view.old view.new result }
{
    let count = view.count(file);
    if count == 0 {
        return Ok(true);
    }
    match head_at(view, file)? {
        Some(head) => are_chains(view, alloc, file, width, count, head),
        None => Ok(false),
    }
}
