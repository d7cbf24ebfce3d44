ghost use Rattle.std.specs.Prelude.{◌≡◌, ◌+◌, ◌*◌, ◌/◌, ◌≤◌, ◌<◌, ◌⊎◌, ℕ, IfOk, OnErr, OnOk, IsErrOf, IsTrue, Some, false, length, true};
ghost use Rattle.dms_block.specs.Content.{limit, put_block};
ghost use Rattle.dms_block.specs.Held.{HasCausesOr};
ghost use Rattle.dms_block.specs.View.{ReadsOverlay, WritesOverlay, overlay_changes, overlay_content, seen_counts, under};
ghost use Rattle.dms_chain.specs.ListBlocks.{flat, free_bytes, leaf_bytes};
ghost use Rattle.dms_chain.specs.Seen.{IsListWidth};
ghost use Rattle.dms_chain.specs.SpellLaws.{IsLeaf};
ghost use Rattle.dms_tree.specs.Around.{IsAroundUp, NoAround};
ghost use Rattle.dms_tree.specs.Climbs.{Shrinks};
ghost use Rattle.dms_tree.specs.Coming.{KeepsOthers};
ghost use Rattle.dms_tree.specs.Lessens.{IfLess, LessHolds, NoLess};
ghost use Rattle.dms_tree.specs.TreeBlocks.{leaf_half, root_bytes};
ghost use Rattle.dms_tree.specs.TreeIn.{tree_in};
ghost use Rattle.dms_tree.specs.LeafJoints.{SaysLeaf, ShortLeafHolds};
ghost use Rattle.dms_tree.specs.UpMates.{MatesHold, SayMates, mate_of};
ghost use Rattle.dms_tree.specs.Ups.{ArePassed, IsPassed};

use crate::climbing::shrink;
use crate::leaving::{ShortLeaf, mated_leaves};
use crate::neighbours::{mate_number, read_mates};
use crate::node::{InnerBlock, TreeHead, root_block};
use crate::raising::PathStep;
use dms_base::Bytes;
use dms_block::{BlockFault, BlockId, Blocks, Overlay};
use dms_chain::{LeafBlock, free_block, leaf_block, read_leaf};
use std::alloc::Global;

/// The neighbour of a leaf, and those of the blocks above it, the lowest last.
#[derive(Drop)]
pub struct Around {
    pub leaf: LeafBlock,
    pub mates: Vec<InnerBlock>,
}

/// The neighbours of a leaf that the last step leads to, and of the blocks that the other ones lead to.
fn read_around<B: Blocks>(
    over: &mut Overlay<B>,
    alloc: Global,
    file: u32,
    width: usize,
    path: &[PathStep],
    step: &PathStep,
) -> Result<Around, BlockFault>
    requires sound { (under over.old).sound }
    requires width { IsListWidth width }
    requires passed { ArePassed width (seen_counts over.old file) path.now }
    requires here { IsPassed width (seen_counts over.old file) step.now }
    ensures leaf { IfOk result (λ x. IsTrue (under over.old).told → SaysLeaf (overlay_content over.old file) width step.now x.leaf) }
    ensures is_leaf { IfOk result (λ x. IsLeaf width x.leaf.next x.leaf.entries.items) }
    ensures near { IfOk result (λ x. mate_of step.now < seen_counts over.old file) }
    ensures mates { IfOk result (λ x. IsTrue (under over.old).told → SayMates (overlay_content over.old file) width path.now x.mates.items) }
    ensures hold { IfOk result (λ x. MatesHold width (seen_counts over.old file) path.now x.mates.items) }
    ensures reads { ReadsOverlay (length path.now + 1) result over.old over.new }
    ensures causes { HasCausesOr (NoAround width over.old file path.now step.now) result (under over.old) (under over.new) }
{
    let mates = match read_mates(over, alloc, file, width, path) {
        Ok(mates) => mates,
        Err(fault) => return Err(fault),
    };
    let at = mate_number(step);
    match read_leaf(over, alloc, file, width, step.number, at) {
        Ok(leaf) => Ok(Around { leaf, mates }),
        Err(fault) => Err(fault),
    }
}

/// A leaf with too few entries and its neighbour become one or two, and so the blocks above them as far as they lack
/// separators.
fn shrink_leaf<B: Blocks>(
    over: &mut Overlay<B>,
    alloc: Global,
    file: u32,
    short: ShortLeaf,
    step: PathStep,
    around: Around,
) -> Result<(), BlockFault>
    requires owned { IsTrue ((under over.old).owns file) }
    requires holds { ShortLeafHolds (seen_counts over.old file) short }
    requires here { IsPassed short.width (seen_counts over.old file) step }
    requires leaf { IsLeaf short.width around.leaf.next around.leaf.entries.items }
    requires near { mate_of step < seen_counts over.old file }
    requires mates { MatesHold short.width (seen_counts over.old file) short.path.items around.mates.items }
    requires end { seen_counts over.old file ≤ limit }
    ensures below { over.new.below ≡ over.old.below }
    ensures shrinks { OnOk result (Shrinks over.old over.new file short.width (IsAroundUp (seen_counts over.old file) (overlay_content over.old file) short step around)) }
    ensures more { length (overlay_changes over.new) ≤ length (overlay_changes over.old) + (4 + 2 * length around.mates.items) }
    ensures memory { OnErr result (IsErrOf result BlockFault.Memory) }
{
    let Around { leaf, mates } = around;
    let joint = mated_leaves(short, step, leaf)?;
    shrink(over, alloc, file, joint, mates)
}

/// A leaf with too few entries, which isn't the root: all neighbours that may be needed are read, and then the tree
/// shrinks.
fn shrink_at<B: Blocks>(
    over: &mut Overlay<B>,
    alloc: Global,
    file: u32,
    width: usize,
    head: TreeHead,
    path: Vec<PathStep>,
    number: u32,
    leaf: LeafBlock,
) -> Result<(), BlockFault>
    requires sound { (under over.old).sound }
    requires owned { IsTrue ((under over.old).owns file) }
    requires room { seen_counts over.old file ≤ 1048576 }
    requires holds { LessHolds (seen_counts over.old file) width path.items number head.free leaf.entries.items }
    requires some { 0 < length path.items }
    ensures list { OnOk result (IfLess over.old file width head.root head.free path.items number leaf.next leaf.entries.items (λ xs. tree_in width (overlay_content over.new file) ≡ Some xs)) }
    ensures others { OnOk result (KeepsOthers file over.old over.new) }
    ensures counts { OnOk result ((f : ℕ) → seen_counts over.new f ≡ seen_counts over.old f) }
    ensures writes { WritesOverlay 9 20 result over.old over.new }
    ensures idle { (f b : ℕ) → IsErrOf result (BlockFault.Damaged f b) → overlay_changes over.new ≡ overlay_changes over.old }
    ensures causes { HasCausesOr (NoLess over.old file width head.root head.free path.items number leaf.next leaf.entries.items) result (under over.old) (under over.new) }
{
    let mut path = path;
    let above = path.len() - 1;
    let step = path.remove(above);
    let around = match read_around(over, alloc, file, width, path.as_slice(), &step) {
        Ok(around) => around,
        Err(fault) => return Err(fault),
    };
    let short = ShortLeaf {
        width,
        root: head.root,
        free: head.free,
        path,
        number,
        leaf,
    };
    shrink_leaf(over, alloc, file, short, step, around)
}

/// The last entry left: the tree is empty, and the block of its leaf is the first free one.
fn clear<B: Blocks>(
    over: &mut Overlay<B>,
    file: u32,
    free: u32,
    number: u32,
) -> Result<(), BlockFault>
    requires owned { IsTrue ((under over.old).owns file) }
    requires near { number < seen_counts over.old file }
    requires end { seen_counts over.old file ≤ limit }
    ensures below { over.new.below ≡ over.old.below }
    ensures seen { OnOk result (IsTrue (under over.old).told → (under over.old).sound → overlay_content over.new file ≡ put_block 0 (root_bytes 0 number) (put_block number (free_bytes free) (overlay_content over.old file))) }
    ensures others { OnOk result (KeepsOthers file over.old over.new) }
    ensures counts { OnOk result ((f : ℕ) → seen_counts over.new f ≡ seen_counts over.old f) }
    ensures more { length (overlay_changes over.new) ≤ length (overlay_changes over.old) + 2 }
    ensures memory { OnErr result (IsErrOf result BlockFault.Memory) }
{
    over.write(
        BlockId {
            file,
            block: number,
        },
        &free_block(free),
    )?;
    let head = TreeHead {
        root: 0,
        free: number,
    };
    over.write(BlockId { file, block: 0 }, &root_block(head))
}

/// Whether the leaf is the root, and no entry is left.
fn is_cleared(path: &[PathStep], entries: &[Bytes]) -> bool
    ensures on { result ≡ true → (length path.now ≡ 0) × (length entries.now ≡ 0) }
    ensures off { result ≡ false → 0 < length path.now + length entries.now }
{
    if path.is_empty() {
        return entries.is_empty();
    }
    false
}

/// Whether the leaf isn't the root, and has fewer entries than half a leaf.
fn is_sparse(width: usize, path: &[PathStep], entries: &[Bytes]) -> bool
    requires { 0 < width }
    ensures on { result ≡ true → 0 < length path.now }
    ensures off { result ≡ false → (length path.now ≡ 0) ⊎ (leaf_half width ≤ length entries.now) }
{
    if path.is_empty() {
        return false;
    }
    entries.len() < 1017 / width / 2
}

/// An entry left this leaf, and the file's blocks are to say so. Only Damaged of the reads before the first write, and
/// Memory, are answered.
pub fn lessen<B: Blocks>(
    over: &mut Overlay<B>,
    alloc: Global,
    file: u32,
    width: usize,
    head: TreeHead,
    path: Vec<PathStep>,
    number: u32,
    leaf: LeafBlock,
) -> Result<(), BlockFault>
    requires sound { (under over.old).sound }
    requires owned { IsTrue ((under over.old).owns file) }
    requires room { seen_counts over.old file ≤ 1048576 }
    requires holds { LessHolds (seen_counts over.old file) width path.items number head.free leaf.entries.items }
    ensures list { OnOk result (IfLess over.old file width head.root head.free path.items number leaf.next leaf.entries.items (λ xs. tree_in width (overlay_content over.new file) ≡ Some xs)) }
    ensures others { OnOk result (KeepsOthers file over.old over.new) }
    ensures counts { OnOk result ((f : ℕ) → seen_counts over.new f ≡ seen_counts over.old f) }
    ensures writes { WritesOverlay 9 20 result over.old over.new }
    ensures idle { (f b : ℕ) → IsErrOf result (BlockFault.Damaged f b) → overlay_changes over.new ≡ overlay_changes over.old }
    ensures causes { HasCausesOr (NoLess over.old file width head.root head.free path.items number leaf.next leaf.entries.items) result (under over.old) (under over.new) }
{
    if is_cleared(path.as_slice(), leaf.entries.as_slice()) {
        return clear(over, file, head.free, number);
    }
    if is_sparse(width, path.as_slice(), leaf.entries.as_slice()) {
        return shrink_at(over, alloc, file, width, head, path, number, leaf);
    }
    over.write(
        BlockId {
            file,
            block: number,
        },
        &leaf_block(&leaf),
    )
}
