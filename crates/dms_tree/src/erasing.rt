ghost use Rattle.std.specs.Prelude.{◌≡◌, ◌≤◌, ℕ, IfOk, OnOk, IsErrOf, IsTrue, Some, false, length};
ghost use Rattle.dms_block.specs.Held.{HasCausesOr};
ghost use Rattle.dms_block.specs.View.{WritesOverlay, overlay_changes, overlay_content, seen_counts, under};
ghost use Rattle.dms_chain.specs.Changed.{LeavesOthers};
ghost use Rattle.dms_chain.specs.Lists.{has_entry, without};
ghost use Rattle.dms_chain.specs.Seen.{IsListWidth, MayChange};
ghost use Rattle.dms_tree.specs.Erases.{NoTreeAt};
ghost use Rattle.dms_tree.specs.Looks.{IfTree, NoTree};
ghost use Rattle.dms_tree.specs.TreeAts.{IfTreeAt};
ghost use Rattle.dms_tree.specs.TreeIn.{tree_in};
ghost use Rattle.dms_tree.specs.Trails.{TrailHolds};

use crate::lessening::lessen;
use crate::looking::{TreeLook, look};
use crate::node::TreeHead;
use crate::tracing::Trail;
use dms_block::{BlockFault, Blocks, Overlay};
use dms_chain::{lead, stands_at};
use std::alloc::Global;

/// The entry leaves the leaf that a way led to. False exactly where it doesn't stand there.
fn remove_at<B: Blocks>(
    over: &mut Overlay<B>,
    alloc: Global,
    file: u32,
    root: u32,
    free: u32,
    trail: Trail,
    entry: &[u8],
) -> Result<bool, BlockFault>
    requires sound { (under over.old).sound }
    requires owned { IsTrue ((under over.old).owns file) }
    requires room { seen_counts over.old file ≤ 1048576 }
    requires width { IsListWidth (length entry.now) }
    requires holds { TrailHolds (length entry.now) (seen_counts over.old file) trail }
    ensures list { OnOk result (IfTreeAt over.old file entry.now root free trail (λ xs. tree_in (length entry.now) (overlay_content over.new file) ≡ Some (without entry.now xs))) }
    ensures answer { IfOk result (λ was. IfTreeAt over.old file entry.now root free trail (λ xs. was ≡ has_entry entry.now xs)) }
    ensures still { IfOk result (λ was. was ≡ false → overlay_changes over.new ≡ overlay_changes over.old) }
    ensures others { OnOk result (LeavesOthers file over.old over.new) }
    ensures counts { OnOk result ((f : ℕ) → seen_counts over.new f ≡ seen_counts over.old f) }
    ensures writes { WritesOverlay 9 20 result over.old over.new }
    ensures idle { (f b : ℕ) → IsErrOf result (BlockFault.Damaged f b) → overlay_changes over.new ≡ overlay_changes over.old }
    ensures causes { HasCausesOr (NoTreeAt over.old file entry.now root free trail) result (under over.old) (under over.new) }
{
    let Trail {
        path,
        number,
        mut leaf,
    } = trail;
    let i = lead(&leaf.entries, entry);
    if !stands_at(&leaf.entries, i, entry) {
        return Ok(false);
    }
    let _ = leaf.entries.remove(i);
    match lessen(
        over,
        alloc,
        file,
        entry.len(),
        TreeHead { root, free },
        path,
        number,
        leaf,
    ) {
        Ok(()) => Ok(true),
        Err(fault) => Err(fault),
    }
}

/// An entry leaves a file's tree. False exactly where it doesn't stand there, and then nothing is written. Its width is
/// that of the file's entries. After a fault the overlay is to be forgotten.
pub fn remove<B: Blocks>(
    over: &mut Overlay<B>,
    alloc: Global,
    file: u32,
    entry: &[u8],
) -> Result<bool, BlockFault>
    requires may { MayChange over.old file (length entry.now) }
    ensures list { OnOk result (IfTree over.old file (length entry.now) (λ xs. tree_in (length entry.now) (overlay_content over.new file) ≡ Some (without entry.now xs))) }
    ensures answer { IfOk result (λ was. IfTree over.old file (length entry.now) (λ xs. was ≡ has_entry entry.now xs)) }
    ensures still { IfOk result (λ was. was ≡ false → overlay_changes over.new ≡ overlay_changes over.old) }
    ensures others { OnOk result (LeavesOthers file over.old over.new) }
    ensures counts { OnOk result ((f : ℕ) → seen_counts over.new f ≡ seen_counts over.old f) }
    ensures writes { WritesOverlay 20 20 result over.old over.new }
    ensures idle { (f b : ℕ) → IsErrOf result (BlockFault.Damaged f b) → overlay_changes over.new ≡ overlay_changes over.old }
    ensures causes { HasCausesOr (NoTree over.old file (length entry.now)) result (under over.old) (under over.new) }
{
    let found = look(over, alloc, file, entry)?;
    let TreeLook { head, trail } = found;
    match trail {
        Some(trail) => remove_at(over, alloc, file, head.root, head.free, trail, entry),
        None => Ok(false),
    }
}
