ghost use Rattle.std.specs.Prelude.{◌≡◌, ◌+◌, ◌≤◌, ◌<◌, ℕ, [], ◌∷◌, IfOk, IfSome, OnOk, IsErrOf, IsTrue, Some, false, length, max, not};
ghost use Rattle.dms_block.specs.Held.{HasCausesOr};
ghost use Rattle.dms_block.specs.View.{WritesOverlay, overlay_content, seen_counts, under, overlay_changes};
ghost use Rattle.dms_chain.specs.Changed.{LeavesOthers};
ghost use Rattle.dms_chain.specs.Lists.{has_entry, with_entry};
ghost use Rattle.dms_chain.specs.Seen.{IsListWidth, MayChange};
ghost use Rattle.dms_chain.specs.Written.{GrownBy};
ghost use Rattle.dms_tree.specs.Begins.{IfBare};
ghost use Rattle.dms_tree.specs.Looks.{IfTree, NoTree};
ghost use Rattle.dms_tree.specs.Takings.{NoFreeFrom};
ghost use Rattle.dms_tree.specs.TreeAts.{IfTreeAt};
ghost use Rattle.dms_tree.specs.TreeIn.{tree_in};
ghost use Rattle.dms_tree.specs.TreeLooks.{IfLooked};
ghost use Rattle.dms_tree.specs.Trails.{TrailHolds};

use crate::looking::{TreeLook, look};
use crate::node::{TreeHead, root_block};
use crate::rooming::make_room;
use crate::taking::take_block;
use crate::tracing::Trail;
use dms_base::Bytes;
use dms_block::{BlockFault, BlockId, Blocks, Overlay};
use dms_chain::{lead, leaf_block, leaf_with, stands_at, write_two};
use std::alloc::Global;

/// The first entry of an empty tree.
fn begin<B: Blocks>(
    over: &mut Overlay<B>,
    alloc: Global,
    file: u32,
    free: u32,
    entry: &[u8],
) -> Result<(), BlockFault>
    requires sound { (under over.old).sound }
    requires owned { IsTrue ((under over.old).owns file) }
    requires room { seen_counts over.old file ≤ 1048576 }
    requires width { IsListWidth (length entry.now) }
    requires new { seen_counts over.old file ≡ 0 → free ≡ 0 }
    ensures list { OnOk result (IfBare over.old file (length entry.now) free (tree_in (length entry.now) (overlay_content over.new file) ≡ Some (entry.now ∷ []))) }
    ensures others { OnOk result (LeavesOthers file over.old over.new) }
    ensures grows { OnOk result (GrownBy 11 file (seen_counts over.old) (seen_counts over.new)) }
    ensures room { OnOk result (IfBare over.old file (length entry.now) free (seen_counts over.new file ≤ max (seen_counts over.old file) 2)) }
    ensures writes { WritesOverlay 1 2 result over.old over.new }
    ensures idle { (f b : ℕ) → IsErrOf result (BlockFault.Damaged f b) → overlay_changes over.new ≡ overlay_changes over.old }
    ensures causes { HasCausesOr (NoFreeFrom over.old file free) result (under over.old) (under over.new) }
{
    let leaf = leaf_with(alloc, entry)?;
    let end = over.count(file).max(1);
    let taken = take_block(over, alloc, file, free, end)?;
    let head = TreeHead {
        root: taken.number,
        free: taken.free,
    };
    write_two(
        over,
        file,
        &root_block(head),
        taken.number,
        &leaf_block(&leaf),
    )
}

/// The entry comes into the leaf that a way led to. False exactly where it stands there already.
fn insert_at<B: Blocks>(
    over: &mut Overlay<B>,
    alloc: Global,
    file: u32,
    head: TreeHead,
    trail: Trail,
    entry: &[u8],
) -> Result<bool, BlockFault>
    requires sound { (under over.old).sound }
    requires owned { IsTrue ((under over.old).owns file) }
    requires room { seen_counts over.old file ≤ 1048576 }
    requires width { IsListWidth (length entry.now) }
    requires holds { TrailHolds (length entry.now) (seen_counts over.old file) trail }
    ensures list { OnOk result (IfTreeAt over.old file entry.now head.root head.free trail (λ xs. tree_in (length entry.now) (overlay_content over.new file) ≡ Some (with_entry entry.now xs))) }
    ensures answer { IfOk result (λ new. IfTreeAt over.old file entry.now head.root head.free trail (λ xs. new ≡ not (has_entry entry.now xs))) }
    ensures still { IfOk result (λ new. new ≡ false → overlay_changes over.new ≡ overlay_changes over.old) }
    ensures others { OnOk result (LeavesOthers file over.old over.new) }
    ensures grows { OnOk result (GrownBy 11 file (seen_counts over.old) (seen_counts over.new)) }
    ensures room { OnOk result (IfTreeAt over.old file entry.now head.root head.free trail (λ xs. seen_counts over.new file ≤ max (seen_counts over.old file) (2 + length xs))) }
    ensures writes { WritesOverlay 11 22 result over.old over.new }
    ensures idle { (f b : ℕ) → IsErrOf result (BlockFault.Damaged f b) → overlay_changes over.new ≡ overlay_changes over.old }
    ensures causes { HasCausesOr (NoFreeFrom over.old file head.free) result (under over.old) (under over.new) }
{
    let Trail {
        path,
        number,
        mut leaf,
    } = trail;
    let i = lead(&leaf.entries, entry);
    if stands_at(&leaf.entries, i, entry) {
        return Ok(false);
    }
    leaf.entries.insert(i, Bytes::copy_of(alloc, entry)?)?;
    if leaf.entries.len() * entry.len() <= 1017 {
        let block = BlockId {
            file,
            block: number,
        };
        over.write(block, &leaf_block(&leaf))?;
        return Ok(true);
    }
    make_room(over, alloc, file, entry.len(), head, path, number, leaf)?;
    Ok(true)
}

/// The entry comes into the tree that was looked at. False exactly where it stands there already.
fn insert_in<B: Blocks>(
    over: &mut Overlay<B>,
    alloc: Global,
    file: u32,
    found: TreeLook,
    entry: &[u8],
) -> Result<bool, BlockFault>
    requires sound { (under over.old).sound }
    requires owned { IsTrue ((under over.old).owns file) }
    requires room { seen_counts over.old file ≤ 1048576 }
    requires width { IsListWidth (length entry.now) }
    requires new { seen_counts over.old file ≡ 0 → found.head.free ≡ 0 }
    requires holds { IfSome found.trail (TrailHolds (length entry.now) (seen_counts over.old file)) }
    ensures list { OnOk result (IfLooked over.old file entry.now found (λ xs. tree_in (length entry.now) (overlay_content over.new file) ≡ Some (with_entry entry.now xs))) }
    ensures answer { IfOk result (λ new. IfLooked over.old file entry.now found (λ xs. new ≡ not (has_entry entry.now xs))) }
    ensures still { IfOk result (λ new. new ≡ false → overlay_changes over.new ≡ overlay_changes over.old) }
    ensures others { OnOk result (LeavesOthers file over.old over.new) }
    ensures grows { OnOk result (GrownBy 11 file (seen_counts over.old) (seen_counts over.new)) }
    ensures room { OnOk result (IfLooked over.old file entry.now found (λ xs. seen_counts over.new file ≤ max (seen_counts over.old file) (2 + length xs))) }
    ensures writes { WritesOverlay 11 22 result over.old over.new }
    ensures idle { (f b : ℕ) → IsErrOf result (BlockFault.Damaged f b) → overlay_changes over.new ≡ overlay_changes over.old }
    ensures causes { HasCausesOr (NoFreeFrom over.old file found.head.free) result (under over.old) (under over.new) }
{
    let TreeLook { head, trail } = found;
    match trail {
        Some(trail) => insert_at(over, alloc, file, head, trail, entry),
        None => match begin(over, alloc, file, head.free, entry) {
            Ok(()) => Ok(true),
            Err(fault) => Err(fault),
        },
    }
}

/// An entry comes into a file's tree. False exactly where it stands there already, and then nothing is written. Its
/// width is that of the file's entries. After a fault the overlay is to be forgotten.
pub fn insert<B: Blocks>(
    over: &mut Overlay<B>,
    alloc: Global,
    file: u32,
    entry: &[u8],
) -> Result<bool, BlockFault>
    requires may { MayChange over.old file (length entry.now) }
    ensures list { OnOk result (IfTree over.old file (length entry.now) (λ xs. tree_in (length entry.now) (overlay_content over.new file) ≡ Some (with_entry entry.now xs))) }
    ensures answer { IfOk result (λ new. IfTree over.old file (length entry.now) (λ xs. new ≡ not (has_entry entry.now xs))) }
    ensures still { IfOk result (λ new. new ≡ false → overlay_changes over.new ≡ overlay_changes over.old) }
    ensures others { OnOk result (LeavesOthers file over.old over.new) }
    ensures grows { OnOk result (GrownBy 11 file (seen_counts over.old) (seen_counts over.new)) }
    ensures room { OnOk result (IfTree over.old file (length entry.now) (λ xs. seen_counts over.new file ≤ max (seen_counts over.old file) (2 + length xs))) }
    ensures writes { WritesOverlay 22 22 result over.old over.new }
    ensures idle { (f b : ℕ) → IsErrOf result (BlockFault.Damaged f b) → overlay_changes over.new ≡ overlay_changes over.old }
    ensures causes { HasCausesOr (NoTree over.old file (length entry.now)) result (under over.old) (under over.new) }
{
    let found = look(over, alloc, file, entry)?;
    insert_in(over, alloc, file, found, entry)
}
