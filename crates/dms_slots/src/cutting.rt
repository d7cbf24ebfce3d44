ghost use Rattle.std.specs.Prelude.{◌≡◌, ◌<◌, ◌≤◌, IfOk, length, slice_get, take, drop};
ghost use Rattle.std.specs.List.{list_all};
ghost use Rattle.dms_desc.specs.Shape.{shape_of};
ghost use Rattle.dms_layout.specs.Slots.{slot_width, slot_of, is_zero};
ghost use Rattle.dms_slots.specs.SlotBlocks.{per_block, is_slot, is_free, is_block, slot_chunks, slots_in, or_free, before_free};

use dms_base::Memory;
use dms_block::Block;
use dms_desc::Structure;
use dms_layout::{SlotRead, from_slot, is_bad_slot, is_free_slot, slot_width};
use std::alloc::Global;

/// How many bytes a slot has.
pub fn width_of(s: &Structure) -> usize
    requires few { length s.now.items ≤ 60 }
    ensures width { result ≡ slot_width s.now.items }
    ensures low { 13 ≤ result }
    ensures most { result ≤ 20000 }
{
    slot_width(s.items.as_slice())
}

/// How many slots a block has.
pub fn per_block(s: &Structure) -> usize
    requires few { length s.now.items ≤ 60 }
    ensures count { result ≡ per_block s.now.items }
    ensures most { result ≤ 1024 }
    ensures some { slot_width s.now.items ≤ 1024 → 0 < result }
{
    1024 / width_of(s)
}

// Whether bytes are a slot, free or used.
#[tactic(auto, using(crate::specs::SlotBlockLaws::slot_read))]
fn is_slot(s: &Structure, bytes: &[u8]) -> bool
    ensures { result ≡ is_slot (slot_of (shape_of s.now) bytes.now) }
{
    !is_bad_slot(s, bytes)
}

#[tactic(auto, using(crate::specs::SlotBlockLaws::free_read))]
fn is_free(s: &Structure, bytes: &[u8]) -> bool
    ensures { result ≡ is_free (slot_of (shape_of s.now) bytes.now) }
{
    is_free_slot(s, bytes)
}

/// The first bytes; fewer where there are no more.
pub fn ahead(bytes: &[u8], n: usize) -> &[u8]
    ensures { result.now ≡ take n bytes.now }
{
    &bytes[..n.min(bytes.len())]
}

// The bytes behind the first ones.
fn behind(bytes: &[u8], n: usize) -> &[u8]
    ensures { result.now ≡ drop n bytes.now }
{
    &bytes[n.min(bytes.len())..]
}

fn are_zeros(bytes: &[u8]) -> bool
    ensures { result ≡ list_all is_zero bytes.now }
{
    bytes.iter().all(|byte| *byte == 0)
}

// The bytes of a block: there are 1,024.
fn bytes_of(block: &Block) -> &[u8]
    ensures same { result.now ≡ block.now.0 }
    ensures whole { length result.now ≡ 1024 }
{
    &block.0
}

/// Whether each slot of a block is free or used, with zeros behind the last one; a block has 1,024 bytes.
#[tactic(auto, unfolding(crate::specs::SlotBlocks::is_block))]
pub fn is_block(s: &Structure, block: &Block) -> bool
    requires few { length s.now.items ≤ 60 }
    ensures { result ≡ is_block (shape_of s.now) block.now.0 }
{
    let width = width_of(s);
    let mut rest = bytes_of(block);
    for _i in 0..per_block(s) {
        if !is_slot(s, ahead(rest, width)) {
            return false;
        }
        rest = behind(rest, width);
    }
    are_zeros(rest)
}

/// What stands at a place of a block; bad where the block is none.
#[tactic(auto, unfolding(crate::specs::SlotBlocks::slots_in))]
pub fn slot_in(
    alloc: Global,
    s: &Structure,
    block: &Block,
    place: usize,
) -> Result<SlotRead, Memory>
    requires few { length s.now.items ≤ 60 }
    requires place { place < per_block s.now.items }
    ensures { IfOk result (λ r. r ≡ or_free (slice_get (slots_in (shape_of s.now) block.now.0) place)) }
{
    if !is_block(s, block) {
        return Ok(SlotRead::Bad);
    }
    let width = width_of(s);
    from_slot(alloc, s, ahead(behind(&block.0, place * width), width))
}

/// How many slots stand before the first free one, in the bytes of a block.
pub fn before_free(s: &Structure, bytes: &[u8]) -> usize
    requires few { length s.now.items ≤ 60 }
    ensures first { result ≡ before_free (slot_chunks (shape_of s.now) (per_block s.now.items) bytes.now) }
    ensures most { result ≤ per_block s.now.items }
{
    let width = width_of(s);
    let per = per_block(s);
    let mut rest = bytes;
    for i in 0..per {
        if is_free(s, ahead(rest, width)) {
            return i;
        }
        rest = behind(rest, width);
    }
    per
}
