ghost use Rattle.std.specs.Prelude.{◌≡◌, ◌-◌, ◌+◌, ◌++◌, IfOk, IsTrue, slice_get};
ghost use Rattle.std.specs.Option.{option_copied};
ghost use Rattle.dms_block.specs.Held.{HasCausesOr};
ghost use Rattle.dms_block.specs.View.{overlay_content, under};
ghost use Rattle.dms_desc.specs.Conds.{or_null};
ghost use Rattle.dms_desc.specs.Shape.{as_described};
ghost use Rattle.dms_links.specs.Altering.{WritesSlots};
ghost use Rattle.dms_links.specs.AlteringIn.{MayChangeIn};
ghost use Rattle.dms_links.specs.Setting.{LinksIn, count_steps, counts_in, link_steps, moved_steps, old_target, target_of};
ghost use Rattle.dms_links.specs.Stepping.{AreSlotFiles, HoldsSets};
ghost use Rattle.dms_links.specs.Taking.{TakesSteps};
ghost use Rattle.dms_links.specs.declared.altering.SlotChange.TheVariants.{Linked};

use crate::altering::{SlotChange, alter_in, is_slot, item_at};
use crate::walking::value_at;
use dms_base::{ItemKind, Value};
use dms_block::{BlockFault, Blocks, Overlay};
use dms_desc::{Description, Item};
use dms_layout::Slot;
use dms_slots::read_slot;
use std::alloc::Global;

// The data set whose records count links of an item, 0 for none.
fn counts_in(item: Option<&Item>) -> u16
    ensures { result ≡ counts_in (option_copied item.entry) }
{
    match item {
        None => 0,
        Some(item) => match item.kind {
            ItemKind::Link(set, counted) => { if counted { set } else { 0 } }
            _ => 0,
        },
    }
}

// The number to which a value refers.
fn target_of(value: Option<&Value>) -> Option<u64>
    ensures { result ≡ target_of (or_null (option_copied value.entry)) }
{
    match value {
        Some(Value::Link(number)) => Some(*number),
        _ => None,
    }
}

// The number to which the link of a slot refers.
fn old_target(slot: &Slot, item: u8) -> Option<u64>
    ensures { result ≡ old_target item slot.now }
{
    let at = (item as usize).saturating_sub(1);
    target_of(value_at(slot.rec.values.as_slice(), at))
}

// Changes what a record counts, where a link refers to it and is counted there. False where the slot isn't changed.
fn recount<B: Blocks>(
    over: &mut Overlay<B>,
    alloc: Global,
    desc: &Description,
    set: u16,
    number: Option<u64>,
    change: SlotChange,
) -> Result<bool, BlockFault>
    requires sound { (under over.old).sound }
    requires holds { HoldsSets (as_described desc.now) (under over.old) }
    requires may { MayChangeIn (as_described desc.now) set change }
    ensures { TakesSteps (as_described desc.now) (count_steps set number change) 1 result over.old over.new }
{
    match number {
        None => Ok(true),
        Some(number) => {
            if set == 0 {
                return Ok(true);
            }
            alter_in(over, alloc, desc, set, number, change)
        }
    }
}

// The record that a link referred to counts it no more, and the one that it is to refer to does. False where one of
// their slots isn't changed.
fn move_count<B: Blocks>(
    over: &mut Overlay<B>,
    alloc: Global,
    desc: &Description,
    set: u16,
    old: Option<u64>,
    to: Option<u64>,
) -> Result<bool, BlockFault>
    requires sound { (under over.old).sound }
    requires holds { HoldsSets (as_described desc.now) (under over.old) }
    ensures { TakesSteps (as_described desc.now) (moved_steps set old to) 2 result over.old over.new }
{
    match recount(over, alloc, desc, set, old, SlotChange::Uncounted) {
        Err(e) => Err(e),
        Ok(false) => Ok(false),
        Ok(true) => recount(over, alloc, desc, set, to, SlotChange::Counted),
    }
}

// The same, and then the link is set.
fn relink<B: Blocks>(
    over: &mut Overlay<B>,
    alloc: Global,
    desc: &Description,
    set: u16,
    number: u64,
    item: u8,
    to: Option<u64>,
    counts: u16,
    old: Option<u64>,
) -> Result<bool, BlockFault>
    requires sound { (under over.old).sound }
    requires holds { HoldsSets (as_described desc.now) (under over.old) }
    requires may { MayChangeIn (as_described desc.now) set (Linked item to) }
    ensures { TakesSteps (as_described desc.now) (link_steps set number item to counts old) 3 result over.old over.new }
{
    match move_count(over, alloc, desc, counts, old, to) {
        Err(e) => Err(e),
        Ok(false) => Ok(false),
        Ok(true) => alter_in(over, alloc, desc, set, number, SlotChange::Linked(item, to)),
    }
}

/// Sets a link of a record, by its item's number from 1, to null or to the record with a number below 2^32, and counts it
/// where it is counted: the record that it referred to counts one less, the one that it refers to one more. At most 3
/// blocks are written. False where no record stands there, where one of these two has no slot, or where its count stands
/// at its type's end, or at 0: then what was written is to be forgotten.
pub fn set_link<B: Blocks>(
    over: &mut Overlay<B>,
    alloc: Global,
    desc: &Description,
    set: u16,
    number: u64,
    item: u8,
    to: Option<u64>,
) -> Result<bool, BlockFault>
    requires sound { (under over.old).sound }
    requires holds { HoldsSets (as_described desc.now) (under over.old) }
    requires may { MayChangeIn (as_described desc.now) set (Linked item to) }
    ensures writes { WritesSlots 3 result over.old over.new }
    ensures linked { IfOk result (λ done. IsTrue (under over.old).told → LinksIn (as_described desc.now) set number item to (overlay_content over.old) (overlay_content over.new) done) }
    ensures causes { IsTrue (under over.old).told → AreSlotFiles (as_described desc.now) (overlay_content over.old) → HasCausesOr (λ f k. ⊥) result (under over.old) (under over.new) }
{
    match desc.structure(set) {
        None => Ok(false),
        Some(s) => {
            if !is_slot(s, number) {
                return Ok(false);
            }
            let at = (item as usize).saturating_sub(1);
            let counts = counts_in(item_at(s.items.as_slice(), at));
            match read_slot(over, alloc, s, number) {
                Err(e) => Err(e),
                Ok(None) => Ok(false),
                Ok(Some(slot)) => {
                    let old = old_target(&slot, item);
                    relink(over, alloc, desc, set, number, item, to, counts, old)
                }
            }
        }
    }
}
