ghost use Rattle.std.specs.Prelude.{◌≡◌, ◌+◌, ◌≤◌, ◌<◌, ℕ, List, IfOk, OnOk, IsErrOf, IsTrue, Some, length};
ghost use Rattle.dms_block.specs.Held.{HasCausesOr};
ghost use Rattle.dms_block.specs.View.{WritesOverlay, overlay_content, seen_counts, under, overlay_changes};
ghost use Rattle.dms_chain.specs.Written.{GrownBy};
ghost use Rattle.dms_tree.specs.Coming.{IfLong, KeepsOthers};
ghost use Rattle.dms_tree.specs.Rooms.{IfTaken, LeafReady, WithinTaken};
ghost use Rattle.dms_tree.specs.Takings.{NoFreeFrom};
ghost use Rattle.dms_tree.specs.TreeIn.{tree_in};

use crate::growing::grow;
use crate::needing::blocks_needed;
use crate::node::TreeHead;
use crate::raising::PathStep;
use crate::taking::take_blocks;
use dms_block::{BlockFault, Blocks, Overlay};
use dms_chain::LeafBlock;
use std::alloc::Global;

/// Cuts a leaf that has an entry too many, and blocks above it as far as they are too full. All blocks for that are taken
/// before the first one is written.
pub fn make_room<B: Blocks>(
    over: &mut Overlay<B>,
    alloc: Global,
    file: u32,
    width: usize,
    head: TreeHead,
    path: Vec<PathStep>,
    number: u32,
    leaf: LeafBlock,
) -> Result<(), BlockFault>
    requires sound { (under over.old).sound }
    requires owned { IsTrue ((under over.old).owns file) }
    requires room { seen_counts over.old file ≤ 1048576 }
    requires holds { LeafReady (seen_counts over.old file) width path.items number leaf.entries.items }
    requires short { length path.items + 1 < seen_counts over.old file }
    requires low { length path.items ≤ 9 }
    ensures list { OnOk result (IfLong file over.old ((xs : List (List ℕ)) → IfTaken over.old file width head.root head.free path.items number leaf.next leaf.entries.items xs → tree_in width (overlay_content over.new file) ≡ Some xs)) }
    ensures others { OnOk result (KeepsOthers file over.old over.new) }
    ensures grows { OnOk result (GrownBy 11 file (seen_counts over.old) (seen_counts over.new)) }
    ensures room { OnOk result (WithinTaken over.old over.new file head.free (length path.items + 2)) }
    ensures writes { WritesOverlay 11 22 result over.old over.new }
    ensures idle { (f b : ℕ) → IsErrOf result (BlockFault.Damaged f b) → overlay_changes over.new ≡ overlay_changes over.old }
    ensures causes { HasCausesOr (NoFreeFrom over.old file head.free) result (under over.old) (under over.new) }
{
    let needed = blocks_needed(width, path.as_slice());
    let taken = take_blocks(over, alloc, file, head.free, needed)?;
    let head = TreeHead {
        root: head.root,
        free: taken.free,
    };
    grow(
        over,
        alloc,
        file,
        width,
        head,
        taken.fresh,
        path,
        number,
        leaf,
    )
}
