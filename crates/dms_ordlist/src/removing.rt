ghost use Rattle.std.specs.Prelude.{◌≡◌, ◌+◌, ◌≤◌, ◌<◌, ℕ, IfOk, IfSome, OnOk, IsErrOf, IsTrue, Some, false, length};
ghost use Rattle.dms_block.specs.Held.{HasCausesOr};
ghost use Rattle.dms_block.specs.View.{WritesOverlay, overlay_content, seen_counts, under, overlay_changes};
ghost use Rattle.dms_chain.specs.Changed.{LeavesOthers};
ghost use Rattle.dms_ordlist.specs.ListCalls.{BecomesList};
ghost use Rattle.dms_chain.specs.ListIn.{list_in};
ghost use Rattle.dms_ordlist.specs.ListRemoves.{LeafSpotFits, release_block};
ghost use Rattle.dms_chain.specs.Lists.{has_entry, without};
ghost use Rattle.dms_ordlist.specs.Looks.{IfLook};
ghost use Rattle.dms_ordlist.specs.Places.{PlaceHolds};
ghost use Rattle.dms_chain.specs.Seen.{IfList, IsListWidth, MayChange, NoList};

use crate::looking::look;
use crate::place::{ListPlace, Look, NumberedLeaf};
use crate::writing::{write_three, write_two};
use dms_block::{BlockFault, BlockId, Blocks, Overlay};
use dms_chain::{LeafBlock, ListHead, free_block, lead, leaf_block, stands_at};
use std::alloc::Global;

/// A block leaves the chain and becomes the first free one. The block before it, or the head, leads to the next one.
fn release<B: Blocks>(
    over: &mut Overlay<B>,
    file: u32,
    head: ListHead,
    before: Option<NumberedLeaf>,
    number: u32,
    next: u32,
) -> Result<(), BlockFault>
    requires sound { (under over.old).sound }
    requires owned { IsTrue ((under over.old).owns file) }
    requires room { seen_counts over.old file ≤ 1048576 }
    requires there { number < seen_counts over.old file }
    requires fits { IfSome before (LeafSpotFits (seen_counts over.old file)) }
    ensures seen { OnOk result (IsTrue (under over.old).told → overlay_content over.new file ≡ release_block before head.first head.free number next (overlay_content over.old file)) }
    ensures others { OnOk result (LeavesOthers file over.old over.new) }
    ensures counts { OnOk result (seen_counts over.new ≡ seen_counts over.old) }
    ensures writes { WritesOverlay 0 3 result over.old over.new }
    ensures idle { (f b : ℕ) → IsErrOf result (BlockFault.Damaged f b) → overlay_changes over.new ≡ overlay_changes over.old }
    ensures causes { HasCausesOr (λ f b. ⊥) result (under over.old) (under over.new) }
{
    let freed = free_block(head.free);
    match before {
        None => {
            let head = ListHead {
                first: next,
                free: number,
            };
            write_two(over, file, head, number, &freed)
        }
        Some(NumberedLeaf { number: at, leaf }) => {
            let head = ListHead {
                first: head.first,
                free: number,
            };
            let leaf = LeafBlock {
                next,
                entries: leaf.entries,
            };
            write_three(over, file, head, at, &leaf_block(&leaf), number, &freed)
        }
    }
}

/// The entry leaves the list that was looked at. False exactly where it doesn't stand there.
fn remove_in<B: Blocks>(
    over: &mut Overlay<B>,
    file: u32,
    found: Look,
    entry: &[u8],
) -> Result<bool, BlockFault>
    requires sound { (under over.old).sound }
    requires owned { IsTrue ((under over.old).owns file) }
    requires room { seen_counts over.old file ≤ 1048576 }
    requires width { IsListWidth (length entry.now) }
    requires holds { IfSome found.place (PlaceHolds (length entry.now) (seen_counts over.old file)) }
    ensures list { OnOk result (IfLook over.old file entry.now found (λ xs. BecomesList file (length entry.now) over.old over.new xs (without entry.now xs))) }
    ensures answer { IfOk result (λ was. IfLook over.old file entry.now found (λ xs. was ≡ has_entry entry.now xs)) }
    ensures still { IfOk result (λ was. was ≡ false → overlay_changes over.new ≡ overlay_changes over.old) }
    ensures others { OnOk result (LeavesOthers file over.old over.new) }
    ensures counts { OnOk result (seen_counts over.new ≡ seen_counts over.old) }
    ensures writes { WritesOverlay 0 3 result over.old over.new }
    ensures idle { (f b : ℕ) → IsErrOf result (BlockFault.Damaged f b) → overlay_changes over.new ≡ overlay_changes over.old }
    ensures causes { HasCausesOr (λ f b. ⊥) result (under over.old) (under over.new) }
{
    let Look { head, place } = found;
    let (before, here) = match place {
        Some(ListPlace { before, here }) => (before, here),
        None => return Ok(false),
    };
    let NumberedLeaf { number, mut leaf } = here;
    let i = lead(&leaf.entries, entry);
    if !stands_at(&leaf.entries, i, entry) {
        return Ok(false);
    }
    let _ = leaf.entries.remove(i);
    if leaf.entries.is_empty() {
        release(over, file, head, before, number, leaf.next)?;
        return Ok(true);
    }
    let block = BlockId {
        file,
        block: number,
    };
    over.write(block, &leaf_block(&leaf))?;
    Ok(true)
}

/// An entry leaves a file's list. False exactly where it doesn't stand there, and then nothing is written. Its width is
/// that of the file's entries. After a fault the overlay is to be forgotten.
pub fn remove<B: Blocks>(
    over: &mut Overlay<B>,
    alloc: Global,
    file: u32,
    entry: &[u8],
) -> Result<bool, BlockFault>
    requires may { MayChange over.old file (length entry.now) }
    ensures list { OnOk result (IfList over.old file (length entry.now) (λ xs. list_in (length entry.now) (overlay_content over.new file) ≡ Some (without entry.now xs))) }
    ensures answer { IfOk result (λ was. IfList over.old file (length entry.now) (λ xs. was ≡ has_entry entry.now xs)) }
    ensures still { IfOk result (λ was. was ≡ false → overlay_changes over.new ≡ overlay_changes over.old) }
    ensures others { OnOk result (LeavesOthers file over.old over.new) }
    ensures counts { OnOk result (seen_counts over.new ≡ seen_counts over.old) }
    ensures writes { WritesOverlay (1 + seen_counts over.old file) 3 result over.old over.new }
    ensures idle { (f b : ℕ) → IsErrOf result (BlockFault.Damaged f b) → overlay_changes over.new ≡ overlay_changes over.old }
    ensures causes { HasCausesOr (NoList over.old file (length entry.now)) result (under over.old) (under over.new) }
{
    let found = look(over, alloc, file, entry)?;
    remove_in(over, file, found, entry)
}
