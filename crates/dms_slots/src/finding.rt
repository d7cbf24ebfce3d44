ghost use Rattle.std.specs.Prelude.{◌≡◌, ◌+◌, ◌-◌, ◌<◌, ◌≤◌, IfOk, IfSome, IsTrue, length};
ghost use Rattle.dms_desc.specs.Shape.{shape_of};
ghost use Rattle.dms_layout.specs.Slots.{slot_width, SlotFits};
ghost use Rattle.dms_block.specs.Held.{HasCausesOr};
ghost use Rattle.dms_block.specs.View.{ReadsOverlay, under};
ghost use Rattle.std.specs.Prelude.{◌/◌, min, slice_index_or, []};
ghost use Rattle.dms_slots.specs.Seen.{blocks_of, count_of, BadAt, BadIn};
ghost use Rattle.dms_desc.specs.Files.{file_of};
ghost use Rattle.dms_slots.specs.SlotBlocks.{per_block, block_of, slot_at, slot_opt, slots_in, before_free, within, least_free, AreTaken};

use crate::cutting::{before_free, is_block, per_block, slot_in};
use dms_block::{BlockFault, BlockId, Blocks, Overlay};
use dms_desc::{Structure, file_of};
use dms_layout::{Slot, SlotRead};
use std::alloc::Global;

/// What stands in the slot of a record; none where it is free or was never needed. The record fits its data set.
/// `Damaged` where the slot's block isn't one of a data set, and names that block.
pub fn read_slot<B: Blocks>(
    b: &mut Overlay<B>,
    alloc: Global,
    s: &Structure,
    number: u64,
) -> Result<Option<Slot>, BlockFault>
    requires sound { (under b.old).sound }
    requires few { length s.now.items ≤ 60 }
    requires fits { slot_width s.now.items ≤ 1024 }
    requires number { 1 ≤ number }
    ensures slot { IfOk result (λ o. IsTrue (under b.old).told → slot_at (shape_of s.now) (blocks_of (shape_of s.now) b.old) number ≡ slot_opt o) }
    ensures reads { ReadsOverlay 1 result b.old b.new }
    ensures fits { IfOk result (λ o. IfSome o (SlotFits (shape_of s.now))) }
    ensures there { IfOk result (λ o. IfSome o (λ x. block_of s.now.items number < count_of (shape_of s.now) b.old)) }
    ensures causes { HasCausesOr (BadAt (shape_of s.now) (block_of s.now.items number) b.old) result (under b.old) (under b.new) }
{
    let file = file_of(s.number);
    let per = per_block(s) as u64;
    let at = (number - 1) / per;
    if u64::from(b.count(file)) <= at {
        return Ok(None);
    }
    let block = at as u32;
    let bytes = b.read(alloc, BlockId { file, block })?;
    match slot_in(alloc, s, &bytes, ((number - 1) % per) as usize)? {
        SlotRead::Free => Ok(None),
        SlotRead::Used(slot) => Ok(Some(slot)),
        SlotRead::Bad => Err(BlockFault::Damaged(file, block)),
    }
}

// How many slots stand before the first free one in a block.
fn taken_in<B: Blocks>(
    b: &mut Overlay<B>,
    alloc: Global,
    s: &Structure,
    block: u32,
) -> Result<usize, BlockFault>
    requires sound { (under b.old).sound }
    requires few { length s.now.items ≤ 60 }
    requires there { block < count_of (shape_of s.now) b.old }
    ensures taken { IfOk result (λ n. IsTrue (under b.old).told → n ≡ before_free (slots_in (shape_of s.now) (slice_index_or (blocks_of (shape_of s.now) b.old) block []))) }
    ensures most { IfOk result (λ n. n ≤ per_block s.now.items) }
    ensures reads { ReadsOverlay 1 result b.old b.new }
    ensures causes { HasCausesOr (BadAt (shape_of s.now) block b.old) result (under b.old) (under b.new) }
{
    let file = file_of(s.number);
    let bytes = b.read(alloc, BlockId { file, block })?;
    if !is_block(s, &bytes) {
        return Err(BlockFault::Damaged(file, block));
    }
    Ok(before_free(s, &bytes.0))
}

// A number, where it isn't above POPULATION.
fn within(s: &Structure, number: u64) -> Option<u64>
    ensures is { result ≡ within s.now.population number }
    ensures some { IfSome result (λ n. (n ≡ number) × (n ≤ s.now.population)) }
{
    if number <= u64::from(s.population) {
        return Some(number);
    }
    None
}

// How many blocks the first slots fill, at most those that there are.
fn full_blocks(per: u64, taken: u64, count: u32) -> u32
    requires { 0 < per }
    ensures { result ≡ min (taken / per) count }
{
    (taken / per).min(u64::from(count)) as u32
}

/// The least number whose slot is free, where the first `taken` slots aren't; none exactly where that number is above
/// POPULATION. Only blocks from that of the next slot on are read. `Damaged` where one of them before the free slot isn't
/// one of a data set.
pub fn next_free<B: Blocks>(
    b: &mut Overlay<B>,
    alloc: Global,
    s: &Structure,
    taken: u64,
) -> Result<Option<u64>, BlockFault>
    requires sound { (under b.old).sound }
    requires few { length s.now.items ≤ 60 }
    requires fits { slot_width s.now.items ≤ 1024 }
    ensures least { IfOk result (λ o. IsTrue (under b.old).told → AreTaken (shape_of s.now) (blocks_of (shape_of s.now) b.old) taken → o ≡ least_free (shape_of s.now) (blocks_of (shape_of s.now) b.old)) }
    ensures place { IfOk result (λ o. IfSome o (λ n. (1 ≤ n) × (n ≤ s.now.population) × (block_of s.now.items n ≤ count_of (shape_of s.now) b.old))) }
    ensures reads { ReadsOverlay (count_of (shape_of s.now) b.old) result b.old b.new }
    ensures causes { HasCausesOr (BadIn (shape_of s.now) b.old) result (under b.old) (under b.new) }
{
    let per = per_block(s);
    let count = b.count(file_of(s.number));
    for i in full_blocks(per as u64, taken, count)..count {
        let here = taken_in(b, alloc, s, i)?;
        if here < per {
            return Ok(within(s, u64::from(i) * per as u64 + here as u64 + 1));
        }
    }
    Ok(within(s, u64::from(count) * per as u64 + 1))
}

/// The least number whose slot is free; none exactly where that is above POPULATION. `Damaged` where a block before it
/// isn't one of a data set.
pub fn take_least<B: Blocks>(
    b: &mut Overlay<B>,
    alloc: Global,
    s: &Structure,
) -> Result<Option<u64>, BlockFault>
    requires sound { (under b.old).sound }
    requires few { length s.now.items ≤ 60 }
    requires fits { slot_width s.now.items ≤ 1024 }
    ensures least { IfOk result (λ o. IsTrue (under b.old).told → o ≡ least_free (shape_of s.now) (blocks_of (shape_of s.now) b.old)) }
    ensures place { IfOk result (λ o. IfSome o (λ n. (1 ≤ n) × (n ≤ s.now.population) × (block_of s.now.items n ≤ count_of (shape_of s.now) b.old))) }
    ensures reads { ReadsOverlay (count_of (shape_of s.now) b.old) result b.old b.new }
    ensures causes { HasCausesOr (BadIn (shape_of s.now) b.old) result (under b.old) (under b.new) }
{
    next_free(b, alloc, s, 0)
}
