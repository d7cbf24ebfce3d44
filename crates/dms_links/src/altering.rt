ghost use Rattle.std.specs.Prelude.{◌≡◌, ◌≤◌, ◌-◌, IfOk, IsTrue, length, slice_get, slice_set};
ghost use Rattle.std.specs.Option.{option_copied};
ghost use Rattle.dms_block.specs.Held.{HasCausesOr};
ghost use Rattle.dms_block.specs.View.{overlay_content, under};
ghost use Rattle.dms_desc.specs.Files.{file_of};
ghost use Rattle.dms_desc.specs.Shape.{as_described, shape_of};
ghost use Rattle.dms_layout.specs.Slots.{slot_width};
ghost use Rattle.dms_links.specs.Altered.{Alters, MayChange, counted_fewer, counted_more, is_item_into, owned_fewer, owned_more, slot_after, with_count, with_owned, with_values};
ghost use Rattle.dms_links.specs.Altering.{WritesSlots};
ghost use Rattle.dms_links.specs.AlteringIn.{AltersIn, BadOf, HoldsSet, MayChangeIn, is_slot};
ghost use Rattle.dms_model.specs.Uses.{corrected, corrected_value, link_value};
ghost use Rattle.dms_slots.specs.Seen.{BadAt};
ghost use Rattle.dms_slots.specs.SlotBlocks.{block_of};

use crate::walking::{is_link_into, refers_to};
use dms_base::{Memory, Value};
use dms_block::{BlockFault, Blocks, Overlay};
use dms_desc::{Description, Item, Record, Structure, Values};
use dms_layout::Slot;
use dms_slots::{read_slot, write_slot};
use std::alloc::Global;

/// What becomes of the slot of a record.
#[derive(Clone, Copy, Debug)]
pub enum SlotChange {
    /// One counted link more refers to the record.
    Counted,
    /// One counted link fewer does.
    Uncounted,
    /// Its self-correcting links to the record with this number of a data set are null.
    Corrected(u16, u64),
    /// A link, by its item's number from 1, is null, or refers to the record with this number.
    Linked(u8, Option<u64>),
    /// The record owns one record or entry more.
    Owned,
    /// It owns one fewer.
    Disowned,
}

// A link that is null, or refers to the record with this number.
fn link_value(to: Option<u64>) -> Value
    ensures { result ≡ link_value to }
{
    match to {
        None => Value::Null,
        Some(number) => Value::Link(number),
    }
}

// Whether an item is a self-correcting link into a data set.
fn is_item_into(item: Option<&Item>, to: u16) -> bool
    ensures { result ≡ is_item_into (option_copied item.entry) to }
{
    match item {
        None => false,
        Some(item) => is_link_into(item.kind, to),
    }
}

// A copy of a value, or null where it is a self-correcting link to a record.
fn corrected_value(
    alloc: Global,
    item: Option<&Item>,
    to: u16,
    number: u64,
    value: &Value,
) -> Result<Value, Memory>
    ensures { IfOk result (λ v. v ≡ corrected_value (option_copied item.entry) to number value.now) }
{
    if is_item_into(item, to) && refers_to(Some(value), number) {
        return Ok(Value::Null);
    }
    value.copy(alloc)
}

/// An item, where there is one.
pub(crate) fn item_at(items: &[Item], i: usize) -> Option<&Item>
    ensures { option_copied result ≡ slice_get items.now i }
{
    items.get(i)
}

// A copy of values, where the self-correcting links to a record are null.
fn corrected(
    alloc: Global,
    items: &[Item],
    values: &[Value],
    to: u16,
    number: u64,
) -> Result<Values, Memory>
    ensures { IfOk result (λ v. v ≡ corrected to number 0 items.now values.now) }
{
    let mut made = Values::new(alloc);
    for (i, value) in values.iter().enumerate() {
        made.push(corrected_value(alloc, item_at(items, i), to, number, value)?)?;
    }
    Ok(made)
}

// A copy of values with a link set.
fn linked(alloc: Global, values: &Values, item: u8, to: Option<u64>) -> Result<Values, Memory>
    ensures { IfOk result (λ v. v ≡ slice_set values.now (item - 1) (link_value to)) }
{
    let mut made = values.copy(alloc)?;
    made.set((item as usize).saturating_sub(1), link_value(to));
    Ok(made)
}

// A slot with these values.
fn with_values(slot: &Slot, values: Values) -> Slot
    ensures { result ≡ with_values values slot.now }
{
    Slot {
        rec: Record {
            owner: slot.rec.owner,
            values,
        },
        counted: slot.counted,
        owned: slot.owned,
    }
}

// A slot that counts so many links.
fn with_count(alloc: Global, slot: &Slot, counted: u32) -> Result<Slot, Memory>
    ensures { IfOk result (λ x. x ≡ with_count counted slot.now) }
{
    Ok(Slot {
        rec: slot.rec.copy(alloc)?,
        counted,
        owned: slot.owned,
    })
}

// A slot that counts one link more; none where its count stands at its type's end.
fn counted_more(alloc: Global, slot: &Slot) -> Result<Option<Slot>, Memory>
    ensures { IfOk result (λ o. o ≡ counted_more slot.now) }
{
    if slot.counted == u32::MAX {
        return Ok(None);
    }
    Ok(Some(with_count(alloc, slot, slot.counted + 1)?))
}

// A slot that counts one link fewer; none where it counts none.
fn counted_fewer(alloc: Global, slot: &Slot) -> Result<Option<Slot>, Memory>
    ensures { IfOk result (λ o. o ≡ counted_fewer slot.now) }
{
    if slot.counted == 0 {
        return Ok(None);
    }
    Ok(Some(with_count(alloc, slot, slot.counted - 1)?))
}

// A slot that owns so many records and entries.
fn with_owned(alloc: Global, slot: &Slot, owned: u32) -> Result<Slot, Memory>
    ensures { IfOk result (λ x. x ≡ with_owned owned slot.now) }
{
    Ok(Slot {
        rec: slot.rec.copy(alloc)?,
        counted: slot.counted,
        owned,
    })
}

// A slot that owns one more; none where its count stands at its type's end.
fn owned_more(alloc: Global, slot: &Slot) -> Result<Option<Slot>, Memory>
    ensures { IfOk result (λ o. o ≡ owned_more slot.now) }
{
    if slot.owned == u32::MAX {
        return Ok(None);
    }
    Ok(Some(with_owned(alloc, slot, slot.owned + 1)?))
}

// A slot that owns one fewer; none where it owns none.
fn owned_fewer(alloc: Global, slot: &Slot) -> Result<Option<Slot>, Memory>
    ensures { IfOk result (λ o. o ≡ owned_fewer slot.now) }
{
    if slot.owned == 0 {
        return Ok(None);
    }
    Ok(Some(with_owned(alloc, slot, slot.owned - 1)?))
}

// The slot after a change; none where its count stands at its type's end, or at 0.
fn slot_after(
    alloc: Global,
    items: &[Item],
    change: SlotChange,
    slot: &Slot,
) -> Result<Option<Slot>, Memory>
    ensures { IfOk result (λ o. o ≡ slot_after items.now change slot.now) }
{
    match change {
        SlotChange::Counted => counted_more(alloc, slot),
        SlotChange::Uncounted => counted_fewer(alloc, slot),
        SlotChange::Corrected(to, number) => {
            let values = corrected(alloc, items, slot.rec.values.as_slice(), to, number)?;
            Ok(Some(with_values(slot, values)))
        }
        SlotChange::Linked(item, to) => {
            let values = linked(alloc, &slot.rec.values, item, to)?;
            Ok(Some(with_values(slot, values)))
        }
        SlotChange::Owned => owned_more(alloc, slot),
        SlotChange::Disowned => owned_fewer(alloc, slot),
    }
}

/// Changes the slot of a record. False where no record stands there, or its count stands at its type's end, or at 0:
/// then nothing is written.
pub fn alter<B: Blocks>(
    over: &mut Overlay<B>,
    alloc: Global,
    s: &Structure,
    number: u64,
    change: SlotChange,
) -> Result<bool, BlockFault>
    requires sound { (under over.old).sound }
    requires owned { IsTrue ((under over.old).owns (file_of s.now.number)) }
    requires few { length s.now.items ≤ 60 }
    requires fits { slot_width s.now.items ≤ 1024 }
    requires number { 1 ≤ number }
    requires most { number ≤ 1000000 }
    requires may { MayChange s.now.items change }
    ensures writes { WritesSlots 1 result over.old over.new }
    ensures altered { IfOk result (λ done. IsTrue (under over.old).told → Alters (shape_of s.now) number change done (overlay_content over.old) (overlay_content over.new)) }
    ensures causes { HasCausesOr (BadAt (shape_of s.now) (block_of s.now.items number) over.old) result (under over.old) (under over.new) }
{
    match read_slot(over, alloc, s, number) {
        Err(e) => Err(e),
        Ok(None) => Ok(false),
        Ok(Some(slot)) => match slot_after(alloc, s.items.as_slice(), change, &slot) {
            Err(_memory) => Err(BlockFault::Memory),
            Ok(None) => Ok(false),
            Ok(Some(next)) => match write_slot(over, alloc, s, number, &next) {
                Err(e) => Err(e),
                Ok(()) => Ok(true),
            },
        },
    }
}

/// Whether a structure is a data set, and a record of it may have this number.
#[tactic(auto, using(dms_desc::specs::Numbered::above_none))]
pub(crate) fn is_slot(s: &Structure, number: u64) -> bool
    ensures { result ≡ is_slot (shape_of s.now) number }
{
    s.is_data_set() && 1 <= number && number <= u64::from(s.population)
}

/// Changes the slot of a record of a data set. False where `alter` answers so, and where there is no such data set, or
/// no record of it may have this number: then nothing is written.
pub fn alter_in<B: Blocks>(
    over: &mut Overlay<B>,
    alloc: Global,
    desc: &Description,
    set: u16,
    number: u64,
    change: SlotChange,
) -> Result<bool, BlockFault>
    requires sound { (under over.old).sound }
    requires holds { HoldsSet (as_described desc.now) set (under over.old) }
    requires may { MayChangeIn (as_described desc.now) set change }
    ensures writes { WritesSlots 1 result over.old over.new }
    ensures altered { IfOk result (λ done. IsTrue (under over.old).told → AltersIn (as_described desc.now) set number change (overlay_content over.old) (overlay_content over.new) done) }
    ensures causes { HasCausesOr (BadOf (as_described desc.now) set over.old) result (under over.old) (under over.new) }
{
    match desc.structure(set) {
        None => Ok(false),
        Some(s) => {
            if !is_slot(s, number) {
                return Ok(false);
            }
            alter(over, alloc, s, number, change)
        }
    }
}
