ghost use Rattle.std.specs.Prelude.{◌≡◌, ◌+◌, ◌*◌, ◌/◌, ◌≤◌, ◌<◌, ℕ, [], ◌∷◌, IfOk, IfSome, OnOk, IsErrOf, IsTrue, Some, false, length, not, max};
ghost use Rattle.dms_block.specs.Held.{HasCausesOr};
ghost use Rattle.dms_block.specs.View.{WritesOverlay, overlay_content, seen_counts, under, overlay_changes};
ghost use Rattle.dms_chain.specs.ListBlocks.{free_in};
ghost use Rattle.dms_chain.specs.Changed.{LeavesOthers};
ghost use Rattle.dms_ordlist.specs.ListCalls.{BecomesList, CountGrown, IfEmpty, TakesBlock, laid_head, with_halves};
ghost use Rattle.dms_chain.specs.ListIn.{list_in};
ghost use Rattle.dms_chain.specs.Lists.{has_entry, with_entry};
ghost use Rattle.dms_ordlist.specs.Looks.{IfLook};
ghost use Rattle.dms_ordlist.specs.Places.{PlaceHolds};
ghost use Rattle.dms_chain.specs.Seen.{IfList, IsListWidth, MayChange, NoList, NotAt};
ghost use Rattle.dms_chain.specs.SpellLaws.{AllWide};

use crate::looking::look;
use crate::place::{ListPlace, Look, NumberedLeaf};
use crate::writing::{next_free, write_three, write_two};
use dms_base::Bytes;
use dms_block::{BlockFault, BlockId, Blocks, Overlay};
use dms_chain::{LeafBlock, ListHead, lead, leaf_block, leaf_with, stands_at};
use std::alloc::Global;

/// The first entry of an empty list.
fn begin<B: Blocks>(
    over: &mut Overlay<B>,
    alloc: Global,
    file: u32,
    head: ListHead,
    entry: &[u8],
) -> Result<(), BlockFault>
    requires sound { (under over.old).sound }
    requires owned { IsTrue ((under over.old).owns file) }
    requires room { seen_counts over.old file ≤ 1048576 }
    requires width { IsListWidth (length entry.now) }
    ensures list { OnOk result (IfEmpty file (length entry.now) head.free over.old (list_in (length entry.now) (overlay_content over.new file) ≡ Some (entry.now ∷ []))) }
    ensures others { OnOk result (LeavesOthers file over.old over.new) }
    ensures grows { OnOk result (CountGrown file (seen_counts over.old) (seen_counts over.new)) }
    ensures room { OnOk result (IfEmpty file (length entry.now) head.free over.old (seen_counts over.new file ≤ max (seen_counts over.old file) 2)) }
    ensures writes { WritesOverlay 1 2 result over.old over.new }
    ensures idle { (f b : ℕ) → IsErrOf result (BlockFault.Damaged f b) → overlay_changes over.new ≡ overlay_changes over.old }
    ensures causes { HasCausesOr (λ f b. (head.free ≡ 0 → ⊥) × NotAt free_in over.old file head.free f b) result (under over.old) (under over.new) }
{
    let leaf = leaf_with(alloc, entry)?;
    let (number, free) = next_free(over, alloc, file, head)?;
    let first = ListHead {
        first: number,
        free,
    };
    write_two(over, file, first, number, &leaf_block(&leaf))
}

/// Parts a block that has one entry too many: its upper half goes to another block. Answers that block's number, and
/// that of the first free one behind it.
fn split<B: Blocks>(
    over: &mut Overlay<B>,
    alloc: Global,
    file: u32,
    head: ListHead,
    number: u32,
    leaf: LeafBlock,
    width: usize,
) -> Result<(u32, u32), BlockFault>
    requires sound { (under over.old).sound }
    requires owned { IsTrue ((under over.old).owns file) }
    requires room { seen_counts over.old file ≤ 1048576 }
    requires width { IsListWidth width }
    requires wide { AllWide width leaf.entries.items }
    requires almost { length leaf.entries.items * width ≤ 1017 + width }
    requires there { number < seen_counts over.old file }
    ensures seen { IfOk result (λ t. IsTrue (under over.old).told → overlay_content over.new file ≡ with_halves number t.0 leaf.next leaf.entries.items (laid_head head.first t.1 (overlay_content over.old file))) }
    ensures taken { IfOk result (λ t. TakesBlock file head.free over.old t.0 t.1) }
    ensures others { OnOk result (LeavesOthers file over.old over.new) }
    ensures grows { OnOk result (CountGrown file (seen_counts over.old) (seen_counts over.new)) }
    ensures count { IfOk result (λ t. seen_counts over.new file ≡ max (seen_counts over.old file) (t.0 + 1)) }
    ensures writes { WritesOverlay 1 3 result over.old over.new }
    ensures idle { (f b : ℕ) → IsErrOf result (BlockFault.Damaged f b) → overlay_changes over.new ≡ overlay_changes over.old }
    ensures causes { HasCausesOr (λ f b. (head.free ≡ 0 → ⊥) × NotAt free_in over.old file head.free f b) result (under over.old) (under over.new) }
{
    let (fresh, free) = next_free(over, alloc, file, head)?;
    let LeafBlock { next, mut entries } = leaf;
    let half = entries.len() / 2;
    let others = entries.split_off(half)?;
    let upper = leaf_block(&LeafBlock {
        next,
        entries: others,
    });
    let lower = leaf_block(&LeafBlock {
        next: fresh,
        entries,
    });
    let head = ListHead {
        first: head.first,
        free,
    };
    write_three(over, file, head, fresh, &upper, number, &lower)?;
    Ok((fresh, free))
}

/// The entry comes into the list that was looked at. False exactly where it stands there already.
fn insert_in<B: Blocks>(
    over: &mut Overlay<B>,
    alloc: Global,
    file: u32,
    found: Look,
    entry: &[u8],
) -> Result<bool, BlockFault>
    requires sound { (under over.old).sound }
    requires owned { IsTrue ((under over.old).owns file) }
    requires room { seen_counts over.old file ≤ 1048576 }
    requires width { IsListWidth (length entry.now) }
    requires holds { IfSome found.place (PlaceHolds (length entry.now) (seen_counts over.old file)) }
    ensures list { OnOk result (IfLook over.old file entry.now found (λ xs. BecomesList file (length entry.now) over.old over.new xs (with_entry entry.now xs))) }
    ensures answer { IfOk result (λ new. IfLook over.old file entry.now found (λ xs. new ≡ not (has_entry entry.now xs))) }
    ensures still { IfOk result (λ new. new ≡ false → overlay_changes over.new ≡ overlay_changes over.old) }
    ensures others { OnOk result (LeavesOthers file over.old over.new) }
    ensures grows { OnOk result (CountGrown file (seen_counts over.old) (seen_counts over.new)) }
    ensures room { OnOk result (IfLook over.old file entry.now found (λ xs. seen_counts over.new file ≤ max (seen_counts over.old file) (2 + length xs))) }
    ensures writes { WritesOverlay 1 3 result over.old over.new }
    ensures idle { (f b : ℕ) → IsErrOf result (BlockFault.Damaged f b) → overlay_changes over.new ≡ overlay_changes over.old }
    ensures causes { HasCausesOr (λ f b. (found.head.free ≡ 0 → ⊥) × NotAt free_in over.old file found.head.free f b) result (under over.old) (under over.new) }
{
    let Look { head, place } = found;
    let here = match place {
        Some(
            ListPlace {
                before: _before,
                here,
            },
        ) => here,
        None => {
            begin(over, alloc, file, head, entry)?;
            return Ok(true);
        }
    };
    let NumberedLeaf { number, mut leaf } = here;
    let i = lead(&leaf.entries, entry);
    if stands_at(&leaf.entries, i, entry) {
        return Ok(false);
    }
    leaf.entries.insert(i, Bytes::copy_of(alloc, entry)?)?;
    if leaf.entries.len() * entry.len() <= 1017 {
        let block = BlockId {
            file,
            block: number,
        };
        over.write(block, &leaf_block(&leaf))?;
        return Ok(true);
    }
    split(over, alloc, file, head, number, leaf, entry.len())?;
    Ok(true)
}

/// An entry comes into a file's list. False exactly where it stands there already, and then nothing is written. Its
/// width is that of the file's entries. After a fault the overlay is to be forgotten.
pub fn insert<B: Blocks>(
    over: &mut Overlay<B>,
    alloc: Global,
    file: u32,
    entry: &[u8],
) -> Result<bool, BlockFault>
    requires may { MayChange over.old file (length entry.now) }
    ensures list { OnOk result (IfList over.old file (length entry.now) (λ xs. list_in (length entry.now) (overlay_content over.new file) ≡ Some (with_entry entry.now xs))) }
    ensures answer { IfOk result (λ new. IfList over.old file (length entry.now) (λ xs. new ≡ not (has_entry entry.now xs))) }
    ensures still { IfOk result (λ new. new ≡ false → overlay_changes over.new ≡ overlay_changes over.old) }
    ensures others { OnOk result (LeavesOthers file over.old over.new) }
    ensures grows { OnOk result (CountGrown file (seen_counts over.old) (seen_counts over.new)) }
    ensures room { OnOk result (IfList over.old file (length entry.now) (λ xs. seen_counts over.new file ≤ max (seen_counts over.old file) (2 + length xs))) }
    ensures writes { WritesOverlay (2 + seen_counts over.old file) 3 result over.old over.new }
    ensures idle { (f b : ℕ) → IsErrOf result (BlockFault.Damaged f b) → overlay_changes over.new ≡ overlay_changes over.old }
    ensures causes { HasCausesOr (NoList over.old file (length entry.now)) result (under over.old) (under over.new) }
{
    let found = look(over, alloc, file, entry)?;
    insert_in(over, alloc, file, found, entry)
}
