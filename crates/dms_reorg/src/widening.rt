//! The file of a data set that has further items.

ghost use Rattle.std.specs.Prelude.{◌≡◌, ◌≤◌, ◌<◌, ◌+◌, ◌*◌, ℕ, [], IfOk, IfSome, IsTrue, OnOk, length, max, min, replicate};
ghost use Rattle.dms_block.specs.Content.{limit, raise_count};
ghost use Rattle.dms_block.specs.Faults.{IfFull};
ghost use Rattle.dms_block.specs.Held.{Alters, HasCausesOr};
ghost use Rattle.dms_block.specs.View.{ReadsOverlay, overlay_changes, overlay_content, seen_counts, under};
ghost use Rattle.dms_desc.specs.Files.{file_of};
ghost use Rattle.dms_desc.specs.Shape.{shape_of};
ghost use Rattle.dms_fields.specs.Fields.{lay_bytes};
ghost use Rattle.dms_layout.specs.Slots.{slot_width};
ghost use Rattle.dms_slots.specs.Seen.{BadAt, blocks_of, count_of};
ghost use Rattle.dms_slots.specs.SlotBlocks.{block_of, per_block, slot_at};
ghost use Rattle.dms_reorg.specs.Damage.{BadBefore, BadFile, HasCausesSince, IsDamaged};
ghost use Rattle.dms_reorg.specs.InPlace.{IsInTurn};
ghost use Rattle.dms_reorg.specs.OneFile.{ChangesFile, MakesBlocks, WidensSeen};
ghost use Rattle.dms_reorg.specs.Widened.{IsWidened, IsWidenedSlot, up_to, Widens, WidensAt, with_values};

use dms_base::{Bytes, Memory};
use dms_block::{Block, BlockFault, BlockId, Blocks, Overlay};
use dms_desc::{Structure, Values, file_of};
use dms_layout::{Slot, slot_width, to_slot};
use dms_slots::{per_block, read_slot};
use std::alloc::Global;

/// A slot with these values behind those of its record.
pub(crate) fn with_values(alloc: Global, slot: Slot, first: &Values) -> Result<Slot, Memory>
    ensures { IfOk result (λ s. s ≡ with_values first.now slot) }
{
    let mut slot = slot;
    for value in first.as_slice() {
        slot.rec.values.push(value.copy(alloc)?)?;
    }
    Ok(slot)
}

/// Lays bytes over those of a block from a place on.
#[tactic(auto, using(std::proofs::lemmas::List::places), unfolding(dms_fields::specs::Fields::lay_bytes))]
fn lay(block: &mut Block, at: usize, bytes: &[u8])
    requires { at + length bytes.now ≤ 1024 }
    ensures { block.new.0 ≡ lay_bytes at bytes.now block.old.0 }
{
    block.0[at..at + bytes.len()].copy_from_slice(bytes);
}

/// A block of zeros.
fn blank() -> Block
    ensures { result.0 ≡ replicate 1024 0 }
{
    Block([0; 1024])
}

/// The bytes of the slot with a number, with these values behind those of its record; none where it is free, or stands behind the last one.
fn widened_slot<B: Blocks>(
    over: &mut Overlay<B>,
    alloc: Global,
    s: &Structure,
    t: &Structure,
    first: &Values,
    last: u64,
    number: u64,
) -> Result<Option<Bytes>, BlockFault>
    requires sound { (under over.old).sound }
    requires few { length s.now.items ≤ 60 }
    requires fits { slot_width s.now.items ≤ 1024 }
    requires widens { Widens (shape_of s.now) (shape_of t.now) first.now }
    requires number { 1 ≤ number }
    ensures slot { IfOk result (λ o. IsTrue (under over.old).told → IsWidenedSlot (shape_of t.now) first.now (up_to last (slot_at (shape_of s.now) (blocks_of (shape_of s.now) over.old)) number) o) }
    ensures long { IfOk result (λ o. IfSome o (λ b. length b ≡ slot_width t.now.items)) }
    ensures reads { ReadsOverlay 1 result over.old over.new }
    ensures causes { HasCausesOr (λ f b. BadAt (shape_of s.now) (block_of s.now.items number) over.old f b × (number ≤ last)) result (under over.old) (under over.new) }
{
    if number > last {
        return Ok(None);
    }
    match read_slot(over, alloc, s, number)? {
        None => Ok(None),
        Some(slot) => {
            let wide = with_values(alloc, slot, first)?;
            Ok(Some(to_slot(alloc, t, &wide)?))
        }
    }
}

/// A block of the file of a data set with further items: each of its slots is the one with its number, with these values behind those of its record. No
/// slot behind the last one is read, since blocks that were made stand there.
pub fn widened_block<B: Blocks>(
    over: &mut Overlay<B>,
    alloc: Global,
    s: &Structure,
    t: &Structure,
    first: &Values,
    last: u64,
    block: u32,
) -> Result<Block, BlockFault>
    requires sound { (under over.old).sound }
    requires few { length s.now.items ≤ 60 }
    requires few_then { length t.now.items ≤ 60 }
    requires fits { slot_width s.now.items ≤ 1024 }
    requires widens { Widens (shape_of s.now) (shape_of t.now) first.now }
    ensures block { IfOk result (λ x. IsTrue (under over.old).told → IsWidened (shape_of t.now) first.now (up_to last (slot_at (shape_of s.now) (blocks_of (shape_of s.now) over.old))) block x.0) }
    ensures reads { ReadsOverlay (per_block t.now.items) result over.old over.new }
    ensures causes { HasCausesOr (BadBefore (shape_of s.now) last block over.old) result (under over.old) (under over.new) }
{
    let mut made = blank();
    let per = per_block(t);
    let width = slot_width(t.items.as_slice());
    for place in 0..per {
        let number = u64::from(block) * per as u64 + place as u64 + 1;
        let slot = match widened_slot(over, alloc, s, t, first, last, number) {
            Ok(slot) => slot,
            Err(fault) => return Err(fault),
        };
        match slot {
            None => {}
            Some(bytes) => lay(&mut made, place * width, bytes.as_slice()),
        }
    }
    Ok(made)
}

/// Makes a block of the file of a data set the one with further items, in its place.
fn widen_at<B: Blocks>(
    over: &mut Overlay<B>,
    alloc: Global,
    s: &Structure,
    t: &Structure,
    first: &Values,
    last: u64,
    block: u32,
) -> Result<(), BlockFault>
    requires sound { (under over.old).sound }
    requires clean { overlay_changes over.old ≡ [] }
    requires few { length s.now.items ≤ 60 }
    requires few_then { length t.now.items ≤ 60 }
    requires fits { slot_width s.now.items ≤ 1024 }
    requires widens { Widens (shape_of s.now) (shape_of t.now) first.now }
    requires owned { IsTrue ((under over.old).owns (file_of s.now.number)) }
    requires low { block < limit }
    requires next { block ≤ count_of (shape_of s.now) over.old }
    ensures clean { overlay_changes over.new ≡ [] }
    ensures counts { OnOk result (seen_counts over.new ≡ raise_count (seen_counts over.old) (file_of s.now.number) block) }
    ensures widened { OnOk result (IsTrue (under over.old).told → WidensAt (shape_of s.now) (shape_of t.now) first.now last block (overlay_content over.old) (overlay_content over.new)) }
    ensures alters { Alters (per_block t.now.items + 1) 1 result (under over.old) (under over.new) }
    ensures causes { HasCausesOr (BadBefore (shape_of s.now) last block over.old) result (under over.old) (under over.new) }
    ensures full { IfFull result (λ f. f ≡ (B.pace over.old.below).last) }
    ensures same { B.same_blocks over.old.below over.new.below }
{
    let made = match widened_block(over, alloc, s, t, first, last, block) {
        Ok(made) => made,
        Err(fault) => return Err(fault),
    };
    let id = BlockId {
        file: file_of(s.number),
        block,
    };
    match over.write(id, &made) {
        Ok(()) => over.finish(alloc),
        Err(fault) => Err(fault),
    }
}

/// Which block is made in a turn: first those behind the old ones, rising, and then the old ones, from the last to the first.
fn block_in_turn(old: u32, count: u32, turn: u32) -> u32
    requires within { old ≤ count }
    requires low { turn < count }
    ensures turn { IsInTurn old count turn result }
    ensures below { result < count }
{
    if turn < count - old {
        old + turn
    } else {
        count - 1 - turn
    }
}

/// Makes so many blocks of the file of a data set the ones with further items, in their place.
fn widen_blocks<B: Blocks>(
    over: &mut Overlay<B>,
    alloc: Global,
    s: &Structure,
    t: &Structure,
    first: &Values,
    count: u32,
) -> Result<(), BlockFault>
    requires sound { (under over.old).sound }
    requires clean { overlay_changes over.old ≡ [] }
    requires few { length s.now.items ≤ 60 }
    requires few_then { length t.now.items ≤ 60 }
    requires fits { slot_width s.now.items ≤ 1024 }
    requires widens { Widens (shape_of s.now) (shape_of t.now) first.now }
    requires owned { IsTrue ((under over.old).owns (file_of s.now.number)) }
    requires more { count_of (shape_of s.now) over.old ≤ count }
    requires low { count ≤ limit }
    ensures count { OnOk result (count_of (shape_of s.now) over.new ≡ count) }
    ensures made { OnOk result (MakesBlocks (shape_of s.now) (shape_of t.now) first.now count over.old over.new) }
    ensures changes { ChangesFile (file_of s.now.number) (count * (per_block t.now.items + 1)) count result over.old over.new }
    ensures causes { HasCausesSince (IsDamaged (shape_of s.now) over.old) result (under over.old) (under over.new) }
    ensures full { IfFull result (λ f. f ≡ (B.pace over.old.below).last) }
{
    let old = over.count(file_of(s.number));
    let last = u64::from(old) * per_block(s) as u64;
    for turn in 0..count {
        let block = block_in_turn(old, count, turn);
        match widen_at(over, alloc, s, t, first, last, block) {
            Ok(()) => {}
            Err(fault) => return Err(fault),
        }
    }
    Ok(())
}

/// How many blocks a file has once each slot of its old ones, up to POPULATION, has its place in a block of so many.
fn blocks_needed(old: u32, per: usize, per_then: usize, population: u32) -> u32
    requires per { per ≤ 1024 }
    requires some { 0 < per_then }
    requires per_then { per_then ≤ 1024 }
    ensures room { min (old * per) population ≤ result * per_then }
    ensures not_fewer { old ≤ result }
    ensures most { result ≤ max old population }
{
    let slots = (u64::from(old) * per as u64).min(u64::from(population));
    let needed = (slots + per_then as u64 - 1) / per_then as u64;
    old.max(needed as u32)
}

/// Gives the file of a data set further items, in its place. `Damaged` where a block of it isn't one of the data set, and names that block, or where it has more
/// than 1,048,576 blocks. Behind a fault some of its blocks are made, and others aren't.
pub fn widen_file<B: Blocks>(
    over: &mut Overlay<B>,
    alloc: Global,
    s: &Structure,
    t: &Structure,
    first: &Values,
) -> Result<(), BlockFault>
    requires sound { (under over.old).sound }
    requires clean { overlay_changes over.old ≡ [] }
    requires few { length s.now.items ≤ 60 }
    requires few_then { length t.now.items ≤ 60 }
    requires fits { slot_width s.now.items ≤ 1024 }
    requires widens { Widens (shape_of s.now) (shape_of t.now) first.now }
    requires owned { IsTrue ((under over.old).owns (file_of s.now.number)) }
    requires population { s.now.population ≤ 1000000 }
    ensures widened { OnOk result (WidensSeen (shape_of s.now) (shape_of t.now) first.now over.old over.new) }
    ensures count { OnOk result (count_of (shape_of s.now) over.new ≤ 1048576) }
    ensures changes { let most = max (count_of (shape_of s.now) over.old) s.now.population in ChangesFile (file_of s.now.number) (most * (per_block t.now.items + 1)) most result over.old over.new }
    ensures causes { HasCausesSince (BadFile (shape_of s.now) over.old) result (under over.old) (under over.new) }
    ensures full { IfFull result (λ f. f ≡ (B.pace over.old.below).last) }
{
    let file = file_of(s.number);
    let old = over.count(file);
    if old > 1_048_576 {
        return Err(BlockFault::Damaged(file, 0));
    }
    let count = blocks_needed(old, per_block(s), per_block(t), s.population);
    widen_blocks(over, alloc, s, t, first, count)
}
