ghost use Rattle.std.specs.Prelude.{◌≡◌, ◌≤◌, IfOk, IfSome, IsTrue, length, min, take};
ghost use Rattle.dms_block.specs.Held.{HasCausesOr};
ghost use Rattle.dms_block.specs.View.{ReadsOverlay, under};
ghost use Rattle.dms_desc.specs.Lookups.{structure_of};
ghost use Rattle.dms_desc.specs.Shape.{as_described, shape_of};
ghost use Rattle.dms_layout.specs.Slots.{slot_width};
ghost use Rattle.dms_model.specs.Fitting.{IsDataSet, SpotFits, population_of};
ghost use Rattle.dms_model.specs.Members.{first_member, last_member};
ghost use Rattle.dms_model.specs.Stores.{Tells};
ghost use Rattle.dms_slots.specs.Seen.{BadIn};
ghost use Rattle.dms_store.specs.Finding.{BadSlot, seen_slots, slots_before};
ghost use Rattle.dms_store.specs.Lifted.{IsUsable, db_under};
ghost use Rattle.dms_store.specs.Scans.{IsRecordSpot, first_by, last_used, start_of, stop_of};

use crate::scanning::{last_used, next_used, slot_count};
use dms_block::{BlockFault, Blocks, Overlay};
use dms_desc::{Bound, Description, Structure};
use dms_model::Spot;
use std::alloc::Global;

// How many slots stand before those that a search from a bound on goes through.
fn start_of(from: &Bound) -> Option<u64>
    ensures { result ≡ start_of from.now }
{
    match from {
        Bound::Start => Some(0),
        Bound::End => None,
        Bound::At(_, n) => Some(*n),
        Bound::From(_) => Some(0),
    }
}

// How many of so many slots a search up to a bound goes through.
fn stop_of(to: &Bound, count: u64) -> u64
    ensures { result ≡ min (stop_of to.now count) count }
{
    match to {
        Bound::Start => 0,
        Bound::End => count,
        Bound::At(_, n) => n.saturating_sub(1).min(count),
        Bound::From(_) => 0,
    }
}

// The first record of an owner behind a bound.
fn first_in<B: Blocks>(
    over: &mut Overlay<B>,
    alloc: Global,
    s: &Structure,
    owner: u64,
    from: &Bound,
) -> Result<Option<Spot>, BlockFault>
    requires sound { (under over.old).sound }
    requires few { length s.now.items ≤ 60 }
    requires fits { slot_width s.now.items ≤ 1024 }
    ensures found { IfOk result (λ o. IsTrue (under over.old).told → o ≡ first_by owner (start_of from.now) (take s.now.population (seen_slots (shape_of s.now) over.old))) }
    ensures fits { IfOk result (λ o. IfSome o (IsRecordSpot (shape_of s.now))) }
    ensures reads { ReadsOverlay s.now.population result over.old over.new }
    ensures causes { HasCausesOr (BadIn (shape_of s.now) over.old) result (under over.old) (under over.new) }
{
    match start_of(from) {
        None => Ok(None),
        Some(start) => next_used(over, alloc, s, owner, start),
    }
}

// The last record of an owner before a bound.
fn last_in<B: Blocks>(
    over: &mut Overlay<B>,
    alloc: Global,
    s: &Structure,
    owner: u64,
    to: &Bound,
) -> Result<Option<Spot>, BlockFault>
    requires sound { (under over.old).sound }
    requires few { length s.now.items ≤ 60 }
    requires fits { slot_width s.now.items ≤ 1024 }
    ensures found { IfOk result (λ o. IsTrue (under over.old).told → o ≡ last_used owner 1 (slots_before (shape_of s.now) to.now over.old)) }
    ensures fits { IfOk result (λ o. IfSome o (IsRecordSpot (shape_of s.now))) }
    ensures reads { ReadsOverlay s.now.population result over.old over.new }
    ensures causes { HasCausesOr (BadIn (shape_of s.now) over.old) result (under over.old) (under over.new) }
{
    let stop = stop_of(to, slot_count(over, s));
    last_used(over, alloc, s, owner, stop)
}

/// The first record of a data set, for an owner (0 where it is disjoint), behind a bound.
pub fn first_record<B: Blocks>(
    over: &mut Overlay<B>,
    alloc: Global,
    desc: &Description,
    path: u16,
    owner: u64,
    from: &Bound,
) -> Result<Option<Spot>, BlockFault>
    requires usable { IsUsable (as_described desc.now) over.old }
    requires path { IsDataSet (as_described desc.now) path }
    ensures found { Tells (db_under (as_described desc.now) over.old) result (λ d. first_member (as_described desc.now) d path owner from.now) }
    ensures fits { IfOk result (λ o. IfSome o (SpotFits (as_described desc.now) path)) }
    ensures reads { ReadsOverlay (population_of (structure_of (as_described desc.now) path)) result over.old over.new }
    ensures causes { HasCausesOr (BadSlot (as_described desc.now) path over.old) result (under over.old) (under over.new) }
{
    match desc.structure(path) {
        None => Ok(None),
        Some(s) => first_in(over, alloc, s, owner, from),
    }
}

/// The last record of a data set, for an owner (0 where it is disjoint), before a bound.
pub fn last_record<B: Blocks>(
    over: &mut Overlay<B>,
    alloc: Global,
    desc: &Description,
    path: u16,
    owner: u64,
    to: &Bound,
) -> Result<Option<Spot>, BlockFault>
    requires usable { IsUsable (as_described desc.now) over.old }
    requires path { IsDataSet (as_described desc.now) path }
    ensures found { Tells (db_under (as_described desc.now) over.old) result (λ d. last_member (as_described desc.now) d path owner to.now) }
    ensures fits { IfOk result (λ o. IfSome o (SpotFits (as_described desc.now) path)) }
    ensures reads { ReadsOverlay (population_of (structure_of (as_described desc.now) path)) result over.old over.new }
    ensures causes { HasCausesOr (BadSlot (as_described desc.now) path over.old) result (under over.old) (under over.new) }
{
    match desc.structure(path) {
        None => Ok(None),
        Some(s) => last_in(over, alloc, s, owner, to),
    }
}
