//! The levels of a tree, one from the one above it.

ghost use Rattle.std.specs.Prelude.{◌≡◌, ◌+◌, ◌++◌, ◌<◌, ◌≤◌, ◌∷◌, [], IfOk, IfSome, IsTrue, OnOk, length, slice_get};
ghost use Rattle.dms_chain.specs.Seen.{IsListWidth};
ghost use Rattle.dms_shapes.specs.Levels.{LevelAnswer, bar_at, full_inner, is_inner_level};
ghost use Rattle.dms_shapes.specs.Marks.{AreBelow};
ghost use Rattle.dms_tree.specs.Nodes.{inner_opt};
ghost use Rattle.dms_tree.specs.TreeBlocks.{inner_half, inner_in};
ghost use Rattle.dms_tree.specs.TreeIn.{is_half, says};
ghost use Rattle.dms_view.specs.Looked.{Looked};

use dms_base::{Bytes, Memory};
use dms_block::BlockId;
use dms_tree::{InnerBlock, inner_of};
use dms_view::{View, ViewFault};
use std::alloc::Global;

/// The blocks of one level of a tree, in their order: their numbers, and the separators between them.
#[derive(Drop)]
pub(crate) struct Level {
    pub(crate) numbers: Vec<u32>,
    pub(crate) fences: Vec<Bytes>,
}

/// The level of one block.
pub(crate) fn top_level(alloc: Global, root: u32) -> Result<Level, Memory>
    ensures numbers { IfOk result (λ l. l.numbers.items ≡ root ∷ []) }
    ensures fences { IfOk result (λ l. l.fences.items ≡ []) }
{
    let mut numbers = Vec::new(alloc);
    numbers.push(root)?;
    Ok(Level {
        numbers,
        fences: Vec::new(alloc),
    })
}

/// Whether a block is the root, or has at least so many.
pub(crate) fn is_half(root: u32, least: usize, number: u32, size: usize) -> bool
    ensures { result ≡ is_half root least number size }
{
    number == root || least <= size
}

/// The inner block at a number, if one stands there.
fn inner_at<V: View>(
    view: &mut V,
    alloc: Global,
    file: u32,
    width: usize,
    at: u32,
) -> Result<Option<InnerBlock>, ViewFault>
    requires width { IsListWidth width }
    ensures inner { IfOk result (λ o. IsTrue V.tells → at < length (V.content view.old file) → says (inner_in width) (slice_get (V.content view.old file) at) ≡ inner_opt o) }
    ensures looks { Looked V.View view.old view.new result }
{
    let block = view.block(BlockId { file, block: at })?;
    Ok(inner_of(alloc, width, &block)?)
}

/// Whether an inner block stands at the first of these numbers.
pub(crate) fn is_inner_level<V: View>(
    view: &mut V,
    alloc: Global,
    file: u32,
    width: usize,
    numbers: &[u32],
) -> Result<bool, ViewFault>
    requires width { IsListWidth width }
    ensures is { IfOk result (λ b. IsTrue V.tells → AreBelow (length (V.content view.old file)) numbers.now → b ≡ is_inner_level width (slice_get (V.content view.old file)) numbers.now) }
    ensures looks { Looked V.View view.old view.new result }
{
    match numbers {
        [] => Ok(false),
        [first, ..] => match inner_at(view, alloc, file, width, *first)? {
            Some(_inner) => Ok(true),
            None => Ok(false),
        },
    }
}

fn is_full(width: usize, root: u32, number: u32, inner: &InnerBlock) -> bool
    requires width { IsListWidth width }
    ensures { result ≡ is_half root (inner_half width) number (length inner.now.seps.items) }
{
    is_half(root, 1017 / (width + 4) / 2, number, inner.seps.len())
}

/// The inner block at a number, if one stands there that is the root or at least half full.
fn full_inner_at<V: View>(
    view: &mut V,
    alloc: Global,
    file: u32,
    width: usize,
    root: u32,
    at: u32,
) -> Result<Option<InnerBlock>, ViewFault>
    requires width { IsListWidth width }
    ensures inner { IfOk result (λ o. IsTrue V.tells → at < length (V.content view.old file) → inner_opt o ≡ full_inner width root at (says (inner_in width) (slice_get (V.content view.old file) at))) }
    ensures looks { Looked V.View view.old view.new result }
{
    match inner_at(view, alloc, file, width, at)? {
        None => Ok(None),
        Some(inner) => {
            if is_full(width, root, at, &inner) {
                return Ok(Some(inner));
            }
            Ok(None)
        }
    }
}

/// Adds the separator at a place, if there is one.
fn add_fence(
    alloc: Global,
    fences: &mut Vec<Bytes>,
    above: &[Bytes],
    place: usize,
) -> Result<(), Memory>
    ensures { OnOk result (fences.new.items ≡ fences.old.items ++ bar_at above.now place) }
{
    match above.get(place) {
        Some(fence) => {
            fences.push(fence.copy(alloc)?)?;
            Ok(())
        }
        None => Ok(()),
    }
}

/// Adds the children of a block and the separators between them to their level, and the separator at a place among those above.
fn add_block(
    alloc: Global,
    level: &mut Level,
    inner: InnerBlock,
    above: &[Bytes],
    place: usize,
) -> Result<(), Memory>
    ensures numbers { OnOk result (level.new.numbers.items ≡ level.old.numbers.items ++ inner.kids.items) }
    ensures fences { OnOk result (level.new.fences.items ≡ (level.old.fences.items ++ inner.seps.items) ++ bar_at above.now place) }
{
    let InnerBlock { mut kids, mut seps } = inner;
    level.numbers.append(&mut kids)?;
    level.fences.append(&mut seps)?;
    add_fence(alloc, &mut level.fences, above, place)?;
    Ok(())
}

/// The level under a level of inner blocks; none where another block stands there, where one but the root is less than half full, or
/// where they have more children than there is room for.
pub(crate) fn level_under<V: View>(
    view: &mut V,
    alloc: Global,
    file: u32,
    width: usize,
    root: u32,
    level: &Level,
    room: usize,
) -> Result<Option<Level>, ViewFault>
    requires width { IsListWidth width }
    ensures answer { IfOk result (λ o. IsTrue V.tells → AreBelow (length (V.content view.old file)) level.now.numbers.items → length level.now.fences.items + 1 ≡ length level.now.numbers.items
        → LevelAnswer width root (slice_get (V.content view.old file)) level.now.numbers.items level.now.fences.items room o) }
    ensures few { IfOk result (λ o. IfSome o (λ l. length l.numbers.items ≤ room)) }
    ensures looks { Looked V.View view.old view.new result }
{
    let mut under = Level {
        numbers: Vec::new(alloc),
        fences: Vec::new(alloc),
    };
    for place in 0..level.numbers.len() {
        let inner = match full_inner_at(view, alloc, file, width, root, level.numbers[place])? {
            Some(inner) => inner,
            None => return Ok(None),
        };
        if inner.kids.len() > room - under.numbers.len() {
            return Ok(None);
        }
        add_block(alloc, &mut under, inner, &level.fences, place)?;
    }
    Ok(Some(under))
}
