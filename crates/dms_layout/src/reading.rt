ghost use Rattle.std.specs.Prelude.{◌≡◌, ◌==◌, IfOk, length, drop};
ghost use Rattle.std.specs.List.{list_all};
ghost use Rattle.dms_desc.specs.Shape.{shape_of};
ghost use Rattle.dms_layout.specs.Slots.{shift_down, text_or_null, value_in, value_at, values_at, slot_in, is_zero, is_free, may_own, raw_of, slot_of, slot_width};
ghost use Rattle.dms_base.specs.Text.{text_of};

use crate::judging::{is_raw, is_used};
use crate::{Slot, SlotRead};
use dms_base::{ItemKind, Memory, Text, Value};
use dms_desc::{Item, Record, Structure, Values, item_width};
use dms_fields::{take_u32, take_u64};
use std::alloc::Global;

// The number that was moved so that the least one is 0.
pub fn shift_down(number: u64) -> i64
    ensures { result ≡ shift_down number }
{
    if number < 1 << 63 {
        -(((1 << 63) - number - 1) as i64) - 1
    } else {
        (number - (1 << 63)) as i64
    }
}

// The text behind the byte for its presence; null where it is none.
fn text_in(alloc: Global, field: &[u8]) -> Result<Value, Memory>
    ensures { IfOk result (λ v. v ≡ text_or_null (text_of (drop 1 field.now))) }
{
    let bytes = match field {
        [] => &[],
        [_, bytes @ ..] => bytes,
    };
    match Text::read(alloc, bytes)? {
        None => Ok(Value::Null),
        Some(text) => Ok(Value::Text(text)),
    }
}

// What a value's bytes say behind the byte for its presence.
fn value_in(alloc: Global, kind: ItemKind, field: &[u8]) -> Result<Value, Memory>
    ensures { IfOk result (λ v. v ≡ value_in kind field.now) }
{
    match kind {
        ItemKind::Alpha(_) => text_in(alloc, field),
        ItemKind::Number(_, _, _) => Ok(Value::Number(shift_down(take_u64(field, 1).unwrap_or(0)))),
        ItemKind::Bool => Ok(Value::Bool(field.len() > 1 && field[1] == 1)),
        ItemKind::Field(_) => Ok(Value::Bits(take_u64(field, 1).unwrap_or(0))),
        ItemKind::Link(_, _) => Ok(Value::Link(u64::from(take_u32(field, 1).unwrap_or(0)))),
    }
}

fn value_at(alloc: Global, kind: ItemKind, field: &[u8]) -> Result<Value, Memory>
    ensures { IfOk result (λ v. v ≡ value_at kind field.now) }
{
    if !field.is_empty() && field[0] == 255 {
        return Ok(Value::Null);
    }
    value_in(alloc, kind, field)
}

// The values of a record.
fn values_at(alloc: Global, items: &[Item], bytes: &[u8]) -> Result<Values, Memory>
    ensures { IfOk result (λ vs. vs ≡ values_at items.now bytes.now) }
{
    let mut values = Values::new(alloc);
    let mut rest = bytes;
    for item in items {
        let width = (item_width(item.kind) as usize).min(rest.len());
        values.push(value_at(alloc, item.kind, &rest[..width])?)?;
        rest = &rest[width..];
    }
    Ok(values)
}

// What stands behind the first 13 bytes.
pub fn record_in(bytes: &[u8]) -> &[u8]
    ensures { result.now ≡ drop 13 bytes.now }
{
    &bytes[bytes.len().min(13)..]
}

fn slot_in(alloc: Global, items: &[Item], bytes: &[u8]) -> Result<Slot, Memory>
    ensures { IfOk result (λ slot. slot ≡ slot_in items.now bytes.now) }
{
    let values = values_at(alloc, items, record_in(bytes))?;
    Ok(Slot {
        rec: Record {
            owner: u64::from(take_u32(bytes, 1).unwrap_or(0)),
            values,
        },
        counted: take_u32(bytes, 5).unwrap_or(0),
        owned: take_u32(bytes, 9).unwrap_or(0),
    })
}

fn are_zeros(bytes: &[u8]) -> bool
    ensures { result ≡ list_all is_zero bytes.now }
{
    bytes.iter().all(|byte| *byte == 0)
}

// Whether bytes are as many as a slot of a data set with these items has.
fn has_width(items: &[Item], bytes: &[u8]) -> bool
    ensures { result ≡ (length bytes.now == slot_width items.now) }
{
    if bytes.len() < 13 {
        return false;
    }
    let mut left = bytes.len() - 13;
    for item in items {
        let width = item_width(item.kind) as usize;
        if left < width {
            return false;
        }
        left -= width;
    }
    left == 0
}

#[tactic(auto, unfolding(crate::specs::Slots::is_free))]
pub fn is_free(items: &[Item], bytes: &[u8]) -> bool
    ensures { result ≡ is_free items.now bytes.now }
{
    are_zeros(bytes) && has_width(items, bytes)
}

pub fn may_own(desc: &Structure, owner: u64) -> bool
    ensures { result ≡ may_own (shape_of desc.now) owner }
{
    desc.owner != 0 || owner == 0
}

/// What the bytes of a slot say. `Free` exactly for zeros alone, `Used` exactly for the spelling of a record whose
/// values fit and whose texts are printable and have no space at their end, `Bad` for all else. A record of a data set
/// that stands in no other has no owner. Answers Err where memory is refused.
#[tactic(auto, unfolding(crate::specs::Slots::slot_of))]
pub fn from_slot(alloc: Global, desc: &Structure, bytes: &[u8]) -> Result<SlotRead, Memory>
    ensures { IfOk result (λ r. r ≡ slot_of (shape_of desc.now) bytes.now) }
{
    let items = desc.items.as_slice();
    if is_free(items, bytes) {
        return Ok(SlotRead::Free);
    }
    if !is_used(desc, bytes) {
        return Ok(SlotRead::Bad);
    }
    Ok(SlotRead::Used(slot_in(alloc, items, bytes)?))
}

/// What the bytes of a slot say, whatever the ranges of its values: as `from_slot`, but `Used` also where a number or a field of bits doesn't
/// fit its item. Answers Err where memory is refused.
#[tactic(auto, unfolding(crate::specs::Slots::raw_of))]
pub fn raw_slot(alloc: Global, desc: &Structure, bytes: &[u8]) -> Result<SlotRead, Memory>
    ensures { IfOk result (λ r. r ≡ raw_of (shape_of desc.now) bytes.now) }
{
    let items = desc.items.as_slice();
    if is_free(items, bytes) {
        return Ok(SlotRead::Free);
    }
    if !is_raw(desc, bytes) {
        return Ok(SlotRead::Bad);
    }
    Ok(SlotRead::Used(slot_in(alloc, items, bytes)?))
}
