ghost use Rattle.std.specs.Prelude.{◌≡◌, ◌+◌, ◌≤◌, ◌<◌, IfOk, IfSome, length, suc, take};
ghost use Rattle.std.proofs.Common.{get_or};
ghost use Rattle.dms_block.specs.Held.{HasCausesOr};
ghost use Rattle.dms_block.specs.View.{ReadsOverlay, seen_counts, under};
ghost use Rattle.dms_chain.specs.Leads.{last_of, lead};
ghost use Rattle.dms_chain.specs.Lists.{or_else};
ghost use Rattle.dms_chain.specs.Seen.{IsListWidth};
ghost use Rattle.dms_chain.specs.SpellLaws.{AllWide, IsLeaf};
ghost use Rattle.dms_tree.specs.Levels.{marked};
ghost use Rattle.dms_tree.specs.Order.{key_of};
ghost use Rattle.dms_tree.specs.Reached.{is_left};
ghost use Rattle.dms_tree.specs.TreeSpells.{IsInner};
ghost use Rattle.dms_tree.specs.Ways.{IfTreeFrom, IsTreeSpot, NoTreeFrom, is_through};

use crate::node::{InnerBlock, Node};
use crate::reading::read_node;
use dms_base::Bytes;
use dms_block::{BlockFault, Blocks, Overlay};
use dms_chain::LeafBlock;
use std::alloc::Global;
use std::cmp::Ordering;

/// Where a separator belongs that is the byte string itself: `Through` to its left, `Below` to its right.
#[derive(Clone, Copy)]
pub enum Side {
    Through,
    Below,
}

/// The leaf where bytes belong, with its number, and the separator before it.
#[derive(Drop)]
pub struct TreeSpot {
    pub number: u32,
    pub leaf: LeafBlock,
    pub fence: Option<Bytes>,
}

/// Whether a separator belongs to the left of these bytes.
fn is_left(side: Side, bytes: &[u8], sep: &Bytes) -> bool
    ensures { result ≡ is_left side bytes.now sep.now }
{
    match bytes.cmp(sep.as_slice()) {
        Ordering::Greater => true,
        Ordering::Equal => matches!(side, Side::Through),
        Ordering::Less => false,
    }
}

/// How many separators from the front are to the left of these bytes.
pub fn turn(side: Side, seps: &[Bytes], bytes: &[u8]) -> usize
    requires wide { AllWide (length bytes.now) seps.now }
    ensures lead { result ≡ lead (key_of (is_through side) bytes.now) (marked 0 seps.now) }
    ensures most { result ≤ length seps.now }
{
    for (i, sep) in seps.iter().enumerate() {
        if !is_left(side, bytes, sep) {
            return i;
        }
    }
    seps.len()
}

/// The child of an inner block under which these bytes belong, and the last separator before it: one of the block's, or
/// that before the block.
fn child(inner: InnerBlock, side: Side, bytes: &[u8], fence: Option<Bytes>) -> (u32, Option<Bytes>)
    requires inner { IsInner (length bytes.now) inner.kids.items inner.seps.items }
    requires wide { IfSome fence (λ f. length f ≡ length bytes.now) }
    ensures wide { IfSome result.1 (λ f. length f ≡ length bytes.now) }
    ensures child { result.0 ≡ get_or inner.kids.items (lead (key_of (is_through side) bytes.now) (marked 0 inner.seps.items)) 0 }
    ensures fence { result.1 ≡ or_else (last_of (take (lead (key_of (is_through side) bytes.now) (marked 0 inner.seps.items)) inner.seps.items)) fence }
{
    let InnerBlock { kids, mut seps } = inner;
    let taken = turn(side, &seps, bytes);
    let kid = kids[taken];
    if taken == 0 {
        return (kid, fence);
    }
    (kid, Some(seps.remove(taken - 1)))
}

/// The leaf where bytes of the entries' width belong in the tree under a block.
pub fn descend<B: Blocks>(
    over: &mut Overlay<B>,
    alloc: Global,
    file: u32,
    root: u32,
    side: Side,
    bytes: &[u8],
) -> Result<TreeSpot, BlockFault>
    requires sound { (under over.old).sound }
    requires width { IsListWidth (length bytes.now) }
    requires there { 0 < seen_counts over.old file }
    ensures spot { IfOk result (λ p. IfTreeFrom over.old file (length bytes.now) root (λ us ls. IsTreeSpot side bytes.now us ls p)) }
    ensures holds { IfOk result (λ p. IsLeaf (length bytes.now) p.leaf.next p.leaf.entries.items) }
    ensures found { IfOk result (λ p. p.number < seen_counts over.old file) }
    ensures fence { IfOk result (λ p. IfSome p.fence (λ f. length f ≡ length bytes.now)) }
    ensures few { IfTreeFrom over.old file (length bytes.now) root (λ us ls. (under over.new).uses.reads ≤ (under over.old).uses.reads + (length us + 1)) }
    ensures reads { ReadsOverlay (seen_counts over.old file) result over.old over.new }
    ensures causes { HasCausesOr (NoTreeFrom (length bytes.now) over.old file root) result (under over.old) (under over.new) }
{
    let count = over.count(file);
    let mut named = 0;
    let mut at = root;
    let mut fence = None;
    for _turn in 0..count {
        match read_node(over, alloc, file, bytes.len(), named, at) {
            Ok(Node::Leaf(leaf)) => {
                return Ok(TreeSpot {
                    number: at,
                    leaf,
                    fence,
                });
            }
            Ok(Node::Inner(inner)) => {
                named = at;
                let (kid, before) = child(inner, side, bytes, fence);
                at = kid;
                fence = before;
            }
            Err(fault) => return Err(fault),
        }
    }
    Err(BlockFault::Damaged(file, named))
}
