//! The leaves of a tree, one by one along the level that they are.

ghost use Rattle.std.specs.Prelude.{◌≡◌, ◌+◌, ◌-◌, ◌<◌, IfOk, IsTrue, None, length, slice_get, slice_index_or};
ghost use Rattle.dms_chain.specs.Leads.{last_of};
ghost use Rattle.dms_chain.specs.Linked.{said_by};
ghost use Rattle.dms_chain.specs.ListBlocks.{leaf_in};
ghost use Rattle.dms_chain.specs.Seen.{IsListWidth};
ghost use Rattle.dms_shapes.specs.Leafage.{are_leaves, bar_before, ends_below, fits_place, is_ahead, is_behind, is_leaf_at};
ghost use Rattle.dms_shapes.specs.Marks.{AreBelow};
ghost use Rattle.dms_tree.specs.TreeBlocks.{leaf_half};
ghost use Rattle.dms_view.specs.Looked.{Looked};

use crate::leaves::leaf_at;
use crate::level::{Level, is_half};
use dms_base::Bytes;
use dms_chain::LeafBlock;
use dms_view::{View, ViewFault};
use std::alloc::Global;
use std::cmp::Ordering;

/// Whether entries may stand behind the separator before a place.
fn is_behind(fences: &[Bytes], place: usize, entries: &[Bytes]) -> bool
    ensures { result ≡ is_behind (bar_before fences.now place) entries.now }
{
    if place == 0 {
        return true;
    }
    match (fences.get(place - 1), entries) {
        (Some(fence), [first, ..]) => !matches!(
            fence.as_slice().cmp(first.as_slice()),
            Ordering::Greater
        ),
        _ => true,
    }
}

/// Whether the entry at a place is less than a separator.
fn stands_below(entries: &[Bytes], place: usize, fence: &[u8]) -> bool
    ensures { result ≡ ends_below fence.now (slice_get entries.now place) }
{
    match entries.get(place) {
        Some(entry) => matches!(entry.as_slice().cmp(fence), Ordering::Less),
        None => true,
    }
}

/// Whether the last entry is less than a separator.
fn ends_below(entries: &[Bytes], fence: &[u8]) -> bool
    ensures { result ≡ ends_below fence.now (last_of entries.now) }
{
    if entries.is_empty() {
        return true;
    }
    stands_below(entries, entries.len() - 1, fence)
}

/// Whether entries may stand before the separator at a place.
fn is_ahead(fences: &[Bytes], place: usize, entries: &[Bytes]) -> bool
    ensures { result ≡ is_ahead entries.now (slice_get fences.now place) }
{
    match fences.get(place) {
        Some(fence) => ends_below(entries, fence.as_slice()),
        None => true,
    }
}

/// The number at a place, 0 behind the last one.
pub(crate) fn number_at(numbers: &[u32], place: usize) -> u32
    ensures { result ≡ slice_index_or numbers.now place 0 }
{
    match numbers.get(place) {
        Some(number) => *number,
        None => 0,
    }
}

/// Whether a leaf fits at a place of the level: it names the next leaf, is the root or at least half full, and stands between two
/// separators.
fn fits_place(width: usize, root: u32, level: &Level, place: usize, leaf: &LeafBlock) -> bool
    requires width { IsListWidth width }
    requires place { place < length level.now.numbers.items }
    ensures { result ≡ fits_place width root level.now.numbers.items level.now.fences.items place (leaf.now.next, leaf.now.entries.items) }
{
    let number = number_at(&level.numbers, place);
    leaf.next == number_at(&level.numbers, place + 1)
        && is_half(root, 1017 / width / 2, number, leaf.entries.len())
        && is_behind(&level.fences, place, &leaf.entries)
        && is_ahead(&level.fences, place, &leaf.entries)
}

/// Whether a leaf stands at a place of the level that fits there.
fn is_leaf_at<V: View>(
    view: &mut V,
    alloc: Global,
    file: u32,
    width: usize,
    root: u32,
    level: &Level,
    place: usize,
) -> Result<bool, ViewFault>
    requires width { IsListWidth width }
    requires place { place < length level.now.numbers.items }
    ensures is { IfOk result (λ b. IsTrue V.tells → slice_index_or level.now.numbers.items place 0 < length (V.content view.old file)
        → b ≡ is_leaf_at width root level.now.numbers.items level.now.fences.items place (said_by (leaf_in width) (slice_get (V.content view.old file) (slice_index_or level.now.numbers.items place 0)))) }
    ensures looks { Looked V.View view.old view.new result }
{
    let number = number_at(&level.numbers, place);
    match leaf_at(view, alloc, file, width, number)? {
        Some(leaf) => Ok(fits_place(width, root, level, place, &leaf)),
        None => Ok(false),
    }
}

/// Whether leaves in one chain stand at the numbers of a level, with its separators between them.
pub(crate) fn are_leaves<V: View>(
    view: &mut V,
    alloc: Global,
    file: u32,
    width: usize,
    root: u32,
    level: &Level,
) -> Result<bool, ViewFault>
    requires width { IsListWidth width }
    ensures are { IfOk result (λ b. IsTrue V.tells → AreBelow (length (V.content view.old file)) level.now.numbers.items
        → b ≡ are_leaves width root (slice_get (V.content view.old file)) None level.now.numbers.items level.now.fences.items) }
    ensures looks { Looked V.View view.old view.new result }
{
    for place in 0..level.numbers.len() {
        if !is_leaf_at(view, alloc, file, width, root, level, place)? {
            return Ok(false);
        }
    }
    Ok(true)
}
