ghost use Rattle.std.specs.Prelude.{◌≡◌, ◌≤◌, ◌+◌, IfOk, IfSome, IsTrue, drop, length, take};
ghost use Rattle.dms_block.specs.Held.{HasCausesOr};
ghost use Rattle.dms_block.specs.View.{ReadsOverlay, under};
ghost use Rattle.dms_desc.specs.Shape.{shape_of};
ghost use Rattle.dms_layout.specs.Slots.{slot_width};
ghost use Rattle.dms_slots.specs.Seen.{BadIn, blocks_of};
ghost use Rattle.dms_slots.specs.SlotBlocks.{slot_at, slot_opt};
ghost use Rattle.dms_store.specs.Finding.{most_slots, seen_slots};
ghost use Rattle.dms_store.specs.Scans.{IsRecordSpot, first_used, last_used, owned_spot};

use dms_block::{BlockFault, Blocks, Overlay};
use dms_desc::{Structure, Values, file_of};
use dms_layout::Slot;
use dms_model::Spot;
use dms_slots::{per_block, read_slot};
use std::alloc::Global;

/// How many slots of a data set's file may have a record: those that there are, up to POPULATION.
pub fn slot_count<B: Blocks>(over: &Overlay<B>, s: &Structure) -> u64
    requires few { length s.now.items ≤ 60 }
    ensures { result ≡ most_slots (shape_of s.now) over.now }
{
    let slots = u64::from(over.count(file_of(s.number))) * per_block(s) as u64;
    slots.min(u64::from(s.population))
}

// The record of a slot as a member, where it is this owner's.
fn owned_spot(alloc: Global, owner: u64, number: u64, slot: Option<Slot>) -> Option<Spot>
    ensures { result ≡ owned_spot owner number (slot_opt slot) }
{
    match slot {
        None => None,
        Some(slot) => {
            if owner == slot.rec.owner {
                return Some(Spot {
                    number,
                    key: Values::new(alloc),
                    rec: slot.rec,
                });
            }
            None
        }
    }
}

// The record with a number as a member, where it is this owner's.
fn owned_at<B: Blocks>(
    over: &mut Overlay<B>,
    alloc: Global,
    s: &Structure,
    owner: u64,
    number: u64,
) -> Result<Option<Spot>, BlockFault>
    requires sound { (under over.old).sound }
    requires few { length s.now.items ≤ 60 }
    requires fits { slot_width s.now.items ≤ 1024 }
    requires low { 1 ≤ number }
    requires most { number ≤ s.now.population }
    ensures found { IfOk result (λ o. IsTrue (under over.old).told → o ≡ owned_spot owner number (slot_at (shape_of s.now) (blocks_of (shape_of s.now) over.old) number)) }
    ensures fits { IfOk result (λ o. IfSome o (IsRecordSpot (shape_of s.now))) }
    ensures reads { ReadsOverlay 1 result over.old over.new }
    ensures causes { HasCausesOr (BadIn (shape_of s.now) over.old) result (under over.old) (under over.new) }
{
    match read_slot(over, alloc, s, number) {
        Err(e) => Err(e),
        Ok(slot) => Ok(owned_spot(alloc, owner, number, slot)),
    }
}

/// The first record of an owner behind so many slots, of those that may have one.
pub fn next_used<B: Blocks>(
    over: &mut Overlay<B>,
    alloc: Global,
    s: &Structure,
    owner: u64,
    from: u64,
) -> Result<Option<Spot>, BlockFault>
    requires sound { (under over.old).sound }
    requires few { length s.now.items ≤ 60 }
    requires fits { slot_width s.now.items ≤ 1024 }
    ensures found { IfOk result (λ o. IsTrue (under over.old).told → o ≡ first_used owner (1 + from) (drop from (take s.now.population (seen_slots (shape_of s.now) over.old)))) }
    ensures fits { IfOk result (λ o. IfSome o (IsRecordSpot (shape_of s.now))) }
    ensures reads { ReadsOverlay s.now.population result over.old over.new }
    ensures causes { HasCausesOr (BadIn (shape_of s.now) over.old) result (under over.old) (under over.new) }
{
    let count = slot_count(over, s);
    for i in from..count {
        match owned_at(over, alloc, s, owner, i + 1) {
            Err(e) => return Err(e),
            Ok(Some(found)) => return Ok(Some(found)),
            Ok(None) => {}
        }
    }
    Ok(None)
}

/// The last record of an owner among the first so many slots, of those that may have one.
pub fn last_used<B: Blocks>(
    over: &mut Overlay<B>,
    alloc: Global,
    s: &Structure,
    owner: u64,
    stop: u64,
) -> Result<Option<Spot>, BlockFault>
    requires sound { (under over.old).sound }
    requires few { length s.now.items ≤ 60 }
    requires fits { slot_width s.now.items ≤ 1024 }
    requires within { stop ≤ most_slots (shape_of s.now) over.old }
    ensures found { IfOk result (λ o. IsTrue (under over.old).told → o ≡ last_used owner 1 (take stop (seen_slots (shape_of s.now) over.old))) }
    ensures fits { IfOk result (λ o. IfSome o (IsRecordSpot (shape_of s.now))) }
    ensures reads { ReadsOverlay stop result over.old over.new }
    ensures causes { HasCausesOr (BadIn (shape_of s.now) over.old) result (under over.old) (under over.new) }
{
    for i in 0..stop {
        match owned_at(over, alloc, s, owner, stop - i) {
            Err(e) => return Err(e),
            Ok(Some(found)) => return Ok(Some(found)),
            Ok(None) => {}
        }
    }
    Ok(None)
}
