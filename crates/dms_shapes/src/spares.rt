//! The chain of free blocks.

ghost use Rattle.std.specs.Prelude.{◌≡◌, ◌<◌, ◌≤◌, IfOk, IfSome, IsTrue, length, option_map, slice_get};
ghost use Rattle.dms_chain.specs.Linked.{said_by};
ghost use Rattle.dms_chain.specs.ListBlocks.{free_in};
ghost use Rattle.dms_shapes.specs.Walks.{SparesAnswer};
ghost use Rattle.dms_view.specs.Looked.{Looked};

use crate::marks::is_fresh;
use dms_block::BlockId;
use dms_chain::free_of;
use dms_view::{View, ViewFault};

/// The number behind the free block at a number, if one stands there.
fn spare_at<V: View>(view: &mut V, file: u32, at: u32) -> Result<Option<u32>, ViewFault>
    ensures spare { IfOk result (λ o. IsTrue V.tells → at < length (V.content view.old file) → said_by free_in (slice_get (V.content view.old file) at) ≡ option_map (λ n. (n, tt)) o) }
    ensures looks { Looked V.View view.old view.new result }
{
    let block = view.block(BlockId { file, block: at })?;
    Ok(free_of(&block))
}

/// Walks along the chain of free blocks from `first` on, each of which wasn't met, and marks them: how many they are. None where there is no
/// such chain.
pub(crate) fn spares_from<V: View>(
    view: &mut V,
    file: u32,
    first: u32,
    seen: &mut [bool],
) -> Result<Option<usize>, ViewFault>
    ensures answer { IfOk result (λ o. IsTrue V.tells → length seen.old ≡ length (V.content view.old file)
        → SparesAnswer (slice_get (V.content view.old file)) first seen.old seen.new o) }
    ensures long { length seen.new ≡ length seen.old }
    ensures few { IfOk result (λ o. IfSome o (λ n. n ≤ length seen.old)) }
    ensures looks { Looked V.View view.old view.new result }
{
    let mut at = first;
    for met in 0..seen.len() {
        if at == 0 {
            return Ok(Some(met));
        }
        if !is_fresh(seen, at) {
            return Ok(None);
        }
        seen[at as usize] = true;
        at = match spare_at(view, file, at)? {
            Some(next) => next,
            None => return Ok(None),
        };
    }
    if at == 0 {
        return Ok(Some(seen.len()));
    }
    Ok(None)
}
