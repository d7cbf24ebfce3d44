//! The way down a tree, level by level.

ghost use Rattle.std.specs.Prelude.{◌≡◌, ◌<◌, ◌≤◌, IfOk, IfSome, IsTrue, length, slice_get};
ghost use Rattle.dms_chain.specs.Seen.{IsListWidth};
ghost use Rattle.dms_shapes.specs.Trees.{BottomAnswer};
ghost use Rattle.dms_view.specs.Looked.{Looked};

use crate::level::{Level, is_inner_level, level_under, top_level};
use crate::marks::mark_all;
use dms_view::{View, ViewFault};
use std::alloc::Global;

/// The lowest level of a tree, and how many blocks the tree has.
#[derive(Drop)]
pub(crate) struct Bottom {
    pub(crate) level: Level,
    pub(crate) met: usize,
}

/// Goes down the tree under a root, marks the blocks of each level, and answers the first level that doesn't begin with an inner block. None
/// where there is no tree.
pub(crate) fn levels_under<V: View>(
    view: &mut V,
    alloc: Global,
    file: u32,
    width: usize,
    root: u32,
    seen: &mut [bool],
) -> Result<Option<Bottom>, ViewFault>
    requires width { IsListWidth width }
    requires root { 0 < root }
    requires some { 0 < length seen.old }
    ensures answer { IfOk result (λ o. IsTrue V.tells → length seen.old ≡ length (V.content view.old file)
        → BottomAnswer width (slice_get (V.content view.old file)) root seen.old seen.new o) }
    ensures long { length seen.new ≡ length seen.old }
    ensures few { IfOk result (λ o. IfSome o (λ b. b.met ≤ length seen.old)) }
    ensures looks { Looked V.View view.old view.new result }
{
    let mut level = top_level(alloc, root)?;
    let mut met: usize = 0;
    for _turn in 0..seen.len() {
        if !mark_all(seen, &level.numbers) {
            return Ok(None);
        }
        met += level.numbers.len();
        if !is_inner_level(view, alloc, file, width, &level.numbers)? {
            return Ok(Some(Bottom { level, met }));
        }
        level = match level_under(view, alloc, file, width, root, &level, seen.len() - met)? {
            Some(under) => under,
            None => return Ok(None),
        };
    }
    Ok(None)
}
