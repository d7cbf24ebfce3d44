//! The chain of blocks of entries.

ghost use Rattle.std.specs.Prelude.{◌≡◌, ◌<◌, ◌≤◌, IfOk, IfSome, IsTrue, length, slice_get};
ghost use Rattle.dms_chain.specs.Leads.{last_of};
ghost use Rattle.dms_chain.specs.Linked.{said_by};
ghost use Rattle.dms_chain.specs.ListBlocks.{leaf_in};
ghost use Rattle.dms_chain.specs.Seen.{IsListWidth};
ghost use Rattle.dms_chain.specs.Spelled.{leaf_opt};
ghost use Rattle.dms_shapes.specs.Walks.{goes_on, LeavesAnswer};
ghost use Rattle.dms_view.specs.Looked.{Looked};

use crate::marks::is_fresh;
use dms_base::{Bytes, Memory};
use dms_block::BlockId;
use dms_chain::{LeafBlock, entry_at, leaf_of};
use dms_view::{View, ViewFault};
use std::alloc::Global;
use std::cmp::Ordering;

/// Whether entries may stand behind a last one.
fn goes_on(last: &Option<Bytes>, entries: &[Bytes]) -> bool
    ensures { result ≡ goes_on last.now entries.now }
{
    match (last, entries) {
        (Some(last), [first, ..]) => matches!(
            last.as_slice().cmp(first.as_slice()),
            Ordering::Less
        ),
        _ => true,
    }
}

/// A copy of the last entry.
#[tactic(auto, using(crate::specs::WalkLaws::last_at))]
fn last_of(alloc: Global, entries: &[Bytes]) -> Result<Option<Bytes>, Memory>
    ensures { IfOk result (λ o. o ≡ last_of entries.now) }
{
    if entries.is_empty() {
        return Ok(None);
    }
    entry_at(entries, alloc, entries.len() - 1)
}

/// The block of entries at a number, if one stands there.
pub(crate) fn leaf_at<V: View>(
    view: &mut V,
    alloc: Global,
    file: u32,
    width: usize,
    at: u32,
) -> Result<Option<LeafBlock>, ViewFault>
    requires width { IsListWidth width }
    ensures leaf { IfOk result (λ o. IsTrue V.tells → at < length (V.content view.old file) → said_by (leaf_in width) (slice_get (V.content view.old file) at) ≡ leaf_opt o) }
    ensures looks { Looked V.View view.old view.new result }
{
    let block = view.block(BlockId { file, block: at })?;
    Ok(leaf_of(alloc, width, &block)?)
}

/// Walks along the chain of blocks of entries from `first` on, each of which wasn't met, and marks them: how many they are. None where
/// there is no such chain, or its entries don't rise.
pub(crate) fn leaves_from<V: View>(
    view: &mut V,
    alloc: Global,
    file: u32,
    width: usize,
    first: u32,
    seen: &mut [bool],
) -> Result<Option<usize>, ViewFault>
    requires width { IsListWidth width }
    ensures answer { IfOk result (λ o. IsTrue V.tells → length seen.old ≡ length (V.content view.old file)
        → LeavesAnswer width (slice_get (V.content view.old file)) first seen.old seen.new o) }
    ensures long { length seen.new ≡ length seen.old }
    ensures few { IfOk result (λ o. IfSome o (λ n. n ≤ length seen.old)) }
    ensures looks { Looked V.View view.old view.new result }
{
    let mut at = first;
    let mut last: Option<Bytes> = None;
    for met in 0..seen.len() {
        if at == 0 {
            return Ok(Some(met));
        }
        if !is_fresh(seen, at) {
            return Ok(None);
        }
        seen[at as usize] = true;
        let leaf = match leaf_at(view, alloc, file, width, at)? {
            Some(leaf) => leaf,
            None => return Ok(None),
        };
        if !goes_on(&last, &leaf.entries) {
            return Ok(None);
        }
        last = last_of(alloc, &leaf.entries)?;
        at = leaf.next;
    }
    if at == 0 {
        return Ok(Some(seen.len()));
    }
    Ok(None)
}
