ghost use Rattle.std.specs.Prelude.{◌≡◌, ◌+◌, ◌*◌, ◌<◌, ◌≤◌, true, IfOk, OnOk, OnErr, IsTrue, length, replicate};
ghost use Rattle.dms_desc.specs.Shape.{shape_of};
ghost use Rattle.dms_fields.specs.Fields.{lay_bytes};
ghost use Rattle.dms_layout.specs.Slots.{slot_bytes, slot_width};
ghost use Rattle.dms_desc.specs.Fitting.{values_fit};
ghost use Rattle.dms_block.specs.Content.{raise_count};
ghost use Rattle.dms_block.specs.Held.{HasCausesOr};
ghost use Rattle.dms_block.specs.View.{ReadsOverlay, WritesOverlay, overlay_content, seen_counts, under, overlay_changes};
ghost use Rattle.dms_slots.specs.Seen.{blocks_of, count_of, BadAt, with_slot};
ghost use Rattle.dms_desc.specs.Files.{file_of};
ghost use Rattle.dms_slots.specs.SlotBlocks.{block_of, is_block, block_at};

use crate::cutting::{ahead, is_block, per_block, width_of};
use dms_block::{Block, BlockFault, BlockId, Blocks, Overlay};
use dms_desc::{Structure, file_of};
use dms_layout::{Slot, to_slot};
use std::alloc::Global;

// Lays bytes over those of a block from a place on.
#[tactic(auto, using(std::proofs::lemmas::List::places), unfolding(dms_fields::specs::Fields::lay_bytes))]
fn patch(block: &mut Block, at: usize, bytes: &[u8])
    requires { at + length bytes.now ≤ 1024 }
    ensures { block.new.0 ≡ lay_bytes at bytes.now block.old.0 }
{
    block.0[at..at + bytes.len()].copy_from_slice(bytes);
}

// A block of zeros.
fn blank() -> Block
    ensures { result.0 ≡ replicate 1024 0 }
{
    Block([0; 1024])
}

// A block of the data set's file, zeros where it is new.
fn block_at<B: Blocks>(
    b: &mut Overlay<B>,
    alloc: Global,
    s: &Structure,
    block: u32,
) -> Result<Block, BlockFault>
    requires sound { (under b.old).sound }
    requires few { length s.now.items ≤ 60 }
    ensures block { IfOk result (λ x. IsTrue (under b.old).told → x.0 ≡ block_at (blocks_of (shape_of s.now) b.old) block) }
    ensures good { IfOk result (λ x. block < count_of (shape_of s.now) b.old → is_block (shape_of s.now) x.0 ≡ true) }
    ensures reads { ReadsOverlay 1 result b.old b.new }
    ensures causes { HasCausesOr (BadAt (shape_of s.now) block b.old) result (under b.old) (under b.new) }
{
    let file = file_of(s.number);
    if b.count(file) <= block {
        return Ok(blank());
    }
    let bytes = b.read(alloc, BlockId { file, block })?;
    if !is_block(s, &bytes) {
        return Err(BlockFault::Damaged(file, block));
    }
    Ok(bytes)
}

// Writes the bytes of the slot of a record.
fn write_bytes<B: Blocks>(
    b: &mut Overlay<B>,
    alloc: Global,
    s: &Structure,
    number: u64,
    bytes: &[u8],
) -> Result<(), BlockFault>
    requires sound { (under b.old).sound }
    requires owned { IsTrue ((under b.old).owns (file_of s.now.number)) }
    requires few { length s.now.items ≤ 60 }
    requires fits { slot_width s.now.items ≤ 1024 }
    requires number { 1 ≤ number }
    requires most { number ≤ 1000000 }
    requires next { block_of s.now.items number ≤ count_of (shape_of s.now) b.old }
    requires long { length bytes.now ≡ slot_width s.now.items }
    ensures seen { OnOk result (IsTrue (under b.old).told → overlay_content b.new ≡ with_slot (shape_of s.now) number bytes.now b.old) }
    ensures counts { OnOk result (seen_counts b.new ≡ raise_count (seen_counts b.old) (file_of s.now.number) (block_of s.now.items number)) }
    ensures writes { WritesOverlay 1 1 result b.old b.new }
    ensures err { OnErr result (overlay_changes b.new ≡ overlay_changes b.old) }
    ensures causes { HasCausesOr (BadAt (shape_of s.now) (block_of s.now.items number) b.old) result (under b.old) (under b.new) }
{
    let per = per_block(s) as u64;
    let block = ((number - 1) / per) as u32;
    let place = ((number - 1) % per) as usize;
    let mut new = block_at(b, alloc, s, block)?;
    patch(&mut new, place * width_of(s), bytes);
    b.write(
        BlockId {
            file: file_of(s.number),
            block,
        },
        &new,
    )
}

/// Writes a record's slot, over another one or into the next block of the file. `Damaged` where the slot's block isn't
/// one of a data set. After want of memory nothing is written.
pub fn write_slot<B: Blocks>(
    b: &mut Overlay<B>,
    alloc: Global,
    s: &Structure,
    number: u64,
    slot: &Slot,
) -> Result<(), BlockFault>
    requires sound { (under b.old).sound }
    requires owned { IsTrue ((under b.old).owns (file_of s.now.number)) }
    requires few { length s.now.items ≤ 60 }
    requires fits { slot_width s.now.items ≤ 1024 }
    requires number { 1 ≤ number }
    requires most { number ≤ 1000000 }
    requires next { block_of s.now.items number ≤ count_of (shape_of s.now) b.old }
    requires values { IsTrue (values_fit s.now.items slot.now.rec.values) }
    ensures seen { OnOk result (IsTrue (under b.old).told → overlay_content b.new ≡ with_slot (shape_of s.now) number (slot_bytes s.now.items slot.now) b.old) }
    ensures counts { OnOk result (seen_counts b.new ≡ raise_count (seen_counts b.old) (file_of s.now.number) (block_of s.now.items number)) }
    ensures writes { WritesOverlay 1 1 result b.old b.new }
    ensures err { OnErr result (overlay_changes b.new ≡ overlay_changes b.old) }
    ensures causes { HasCausesOr (BadAt (shape_of s.now) (block_of s.now.items number) b.old) result (under b.old) (under b.new) }
{
    let bytes = to_slot(alloc, s, slot)?;
    write_bytes(b, alloc, s, number, bytes.as_slice())
}

/// Makes a record's slot free. `Damaged` where the slot's block isn't one of a data set. After want of memory nothing
/// is written.
pub fn free_slot<B: Blocks>(
    b: &mut Overlay<B>,
    alloc: Global,
    s: &Structure,
    number: u64,
) -> Result<(), BlockFault>
    requires sound { (under b.old).sound }
    requires owned { IsTrue ((under b.old).owns (file_of s.now.number)) }
    requires few { length s.now.items ≤ 60 }
    requires fits { slot_width s.now.items ≤ 1024 }
    requires number { 1 ≤ number }
    requires most { number ≤ 1000000 }
    requires next { block_of s.now.items number ≤ count_of (shape_of s.now) b.old }
    ensures seen { OnOk result (IsTrue (under b.old).told → overlay_content b.new ≡ with_slot (shape_of s.now) number (replicate (slot_width s.now.items) 0) b.old) }
    ensures counts { OnOk result (seen_counts b.new ≡ raise_count (seen_counts b.old) (file_of s.now.number) (block_of s.now.items number)) }
    ensures writes { WritesOverlay 1 1 result b.old b.new }
    ensures err { OnErr result (overlay_changes b.new ≡ overlay_changes b.old) }
    ensures causes { HasCausesOr (BadAt (shape_of s.now) (block_of s.now.items number) b.old) result (under b.old) (under b.new) }
{
    let zeros = blank();
    write_bytes(b, alloc, s, number, ahead(&zeros.0, width_of(s)))
}
