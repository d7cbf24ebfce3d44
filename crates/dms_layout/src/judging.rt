ghost use Rattle.std.specs.List.{list_all};
ghost use Rattle.std.specs.Prelude.{◌≡◌, ◌==◌, ◌∷◌, ◌++◌, ◌-◌, length, take, drop, replicate};
ghost use Rattle.std.specs.Str.{bytes_eq};
ghost use Rattle.dms_base.specs.declared.value.Value.TheVariants.{Null};
ghost use Rattle.dms_desc.specs.Shape.{shape_of};
ghost use Rattle.dms_key.specs.KeyBytes.{field_bytes};
ghost use Rattle.dms_base.specs.declared.kind.ItemKind.TheVariants.{Alpha, Number, Field, Link, Bool as OneBit};
ghost use Rattle.dms_layout.specs.Judging.{is_value, is_field, are_fields};
ghost use Rattle.dms_layout.specs.Slots.{are_raw_fields, head_bytes, is_raw, is_raw_field, is_raw_slot, is_spelled, slot_in, slot_of, reads_bad, reads_free, value_in};

use crate::reading::{is_free, may_own, record_in, shift_down};
use dms_base::{ItemKind, TEXT_BYTES, Value, fits, has_printable, trim_spaces};
use dms_desc::{Item, Structure, item_width};
use dms_fields::{take_u32, take_u64};

// The first bytes; fewer where there are no more.
fn ahead(bytes: &[u8], n: usize) -> &[u8]
    ensures { result.now ≡ take n bytes.now }
{
    &bytes[..n.min(bytes.len())]
}

// The bytes behind the first ones.
fn behind(bytes: &[u8], n: usize) -> &[u8]
    ensures { result.now ≡ drop n bytes.now }
{
    &bytes[n.min(bytes.len())..]
}

fn are_all(bytes: &[u8], byte: u8) -> bool
    ensures { result ≡ list_all (λ x. x == byte) bytes.now }
{
    bytes.iter().all(
        |b| -> bool
            ensures { result ≡ (b.now == byte) }
        { *b == byte },
    )
}

fn has_length(bytes: &[u8], count: usize) -> bool
    ensures { result ≡ (length bytes.now == count) }
{
    bytes.len() == count
}

// Whether these are so many bytes that are all the same.
fn are_same(bytes: &[u8], count: usize, byte: u8) -> bool
    ensures { result ≡ bytes_eq bytes.now (replicate count byte) }
{
    has_length(bytes, count) && are_all(bytes, byte)
}

// Whether a field is a 1 and these bytes.
fn is_marked(field: &[u8], bytes: &[u8]) -> bool
    ensures { result ≡ bytes_eq field.now (1 ∷ bytes.now) }
{
    match field {
        [] => false,
        [first, rest @ ..] => *first == 1 && rest == bytes,
    }
}

// Whether bytes are a text with spaces up to its width.
#[tactic(auto, using(crate::specs::Judging::eq_parts))]
fn is_filled(bytes: &[u8], text: &[u8], width: usize) -> bool
    ensures { result ≡ bytes_eq bytes.now (text.now ++ replicate (width - length text.now) 32) }
{
    ahead(bytes, text.len()) == text
        && are_same(
            behind(bytes, text.len()),
            width.saturating_sub(text.len()),
            b' ',
        )
}

// Whether a field is null's.
fn is_null(kind: ItemKind, field: &[u8]) -> bool
    ensures { result ≡ bytes_eq field.now (field_bytes kind Null) }
{
    are_same(field, item_width(kind) as usize, 255)
}

// Whether a field is a 1 and a text with spaces up to its width.
fn is_spaced(width: u8, field: &[u8], text: &[u8]) -> bool
    ensures { result ≡ bytes_eq field.now (1 ∷ (text.now ++ replicate (width - length text.now) 32)) }
{
    match field {
        [] => false,
        [first, rest @ ..] => *first == 1 && is_filled(rest, text, width as usize),
    }
}

// Whether a field of a text spells what is read of it.
#[tactic(auto, unfolding(dms_base::specs::Text::text_of))]
fn is_text(width: u8, field: &[u8]) -> bool
    ensures { result ≡ is_value (Alpha width) field.now }
{
    let rest = behind(field, 1);
    if !has_printable(rest) {
        return is_null(ItemKind::Alpha(width), field);
    }
    let text = trim_spaces(rest);
    if text.len() > TEXT_BYTES {
        return is_null(ItemKind::Alpha(width), field);
    }
    is_spaced(width, field, text) && text.len() <= width as usize
}

// Whether a field of a number spells what is read of it.
#[tactic(auto, using(crate::specs::Judging::shifted))]
fn is_number(kind: ItemKind, field: &[u8], digits: u8, decimals: u8, signed: bool) -> bool
    requires { kind ≡ Number digits decimals signed }
    ensures { result ≡ is_value kind field.now }
{
    let number = take_u64(field, 1).unwrap_or(0);
    is_marked(field, &number.to_be_bytes()) && fits(&kind, &Value::Number(shift_down(number)))
}

// Whether a field spells what is read of it behind the byte for its presence.
fn is_value(kind: ItemKind, field: &[u8]) -> bool
    ensures { result ≡ is_value kind field.now }
{
    match kind {
        ItemKind::Alpha(width) => is_text(width, field),
        ItemKind::Number(digits, decimals, signed) => {
            is_number(kind, field, digits, decimals, signed)
        }
        ItemKind::Bool => is_marked(field, &[u8::from(field.len() > 1 && field[1] == 1)]),
        ItemKind::Field(_) => {
            let bits = take_u64(field, 1).unwrap_or(0);
            is_marked(field, &bits.to_be_bytes()) && fits(&kind, &Value::Bits(bits))
        }
        ItemKind::Link(_, _) => {
            let number = take_u32(field, 1).unwrap_or(0);
            is_marked(field, &number.to_be_bytes()) && fits(&kind, &Value::Link(u64::from(number)))
        }
    }
}

// Whether a field spells what is read of it, and that fits.
fn is_field(kind: ItemKind, field: &[u8]) -> bool
    ensures { result ≡ is_field kind field.now }
{
    if !field.is_empty() && field[0] == 255 {
        return is_null(kind, field);
    }
    is_value(kind, field)
}

// Whether bytes are the fields of a record whose values fit.
fn are_fields(items: &[Item], bytes: &[u8]) -> bool
    ensures { result ≡ are_fields items.now bytes.now }
{
    let mut rest = bytes;
    for item in items {
        let width = item_width(item.kind) as usize;
        if !is_field(item.kind, ahead(rest, width)) {
            return false;
        }
        rest = behind(rest, width);
    }
    rest.is_empty()
}

// The first 13 bytes of the slot that is read.
fn head_of(bytes: &[u8]) -> [u8; 13]
    ensures { result ≡ head_bytes bytes.now }
{
    let [a, b, c, d] = take_u32(bytes, 1).unwrap_or(0).to_be_bytes();
    let [e, f, g, h] = take_u32(bytes, 5).unwrap_or(0).to_be_bytes();
    let [i, j, k, l] = take_u32(bytes, 9).unwrap_or(0).to_be_bytes();
    [1, a, b, c, d, e, f, g, h, i, j, k, l]
}

fn is_head(bytes: &[u8]) -> bool
    ensures { result ≡ bytes_eq (take 13 bytes.now) (head_bytes bytes.now) }
{
    ahead(bytes, 13) == head_of(bytes).as_slice()
}

// Whether bytes are the spelling of the slot that is read of them, and it fits. Nothing is made of them.
#[tactic(auto, using(crate::specs::Judging::parts_spelled))]
pub fn is_used(desc: &Structure, bytes: &[u8]) -> bool
    ensures { result ≡ is_spelled (shape_of desc.now) bytes.now (slot_in desc.now.items bytes.now) }
{
    is_head(bytes)
        && may_own(desc, u64::from(take_u32(bytes, 1).unwrap_or(0)))
        && are_fields(desc.items.as_slice(), record_in(bytes))
}

// Whether a field of a text spells what is read of it, whatever its length.
#[tactic(auto, unfolding(dms_base::specs::Text::text_of))]
fn is_raw_text(width: u8, field: &[u8]) -> bool
    ensures { result ≡ bytes_eq field.now (field_bytes (Alpha width) (value_in (Alpha width) field.now)) }
{
    let rest = behind(field, 1);
    if !has_printable(rest) {
        return is_null(ItemKind::Alpha(width), field);
    }
    let text = trim_spaces(rest);
    if text.len() > TEXT_BYTES {
        return is_null(ItemKind::Alpha(width), field);
    }
    is_spaced(width, field, text)
}

// Whether a field of a number spells what is read of it, whatever its range.
#[tactic(auto, using(crate::specs::Judging::shifted))]
fn is_raw_number(kind: ItemKind, field: &[u8], digits: u8, decimals: u8, signed: bool) -> bool
    requires { kind ≡ Number digits decimals signed }
    ensures { result ≡ bytes_eq field.now (field_bytes kind (value_in kind field.now)) }
{
    is_marked(field, &take_u64(field, 1).unwrap_or(0).to_be_bytes())
}

// Whether a field spells what is read of it behind the byte for its presence, whatever its range.
fn is_raw_value(kind: ItemKind, field: &[u8]) -> bool
    ensures { result ≡ bytes_eq field.now (field_bytes kind (value_in kind field.now)) }
{
    match kind {
        ItemKind::Alpha(width) => is_raw_text(width, field),
        ItemKind::Number(digits, decimals, signed) => {
            is_raw_number(kind, field, digits, decimals, signed)
        }
        ItemKind::Bool => is_marked(field, &[u8::from(field.len() > 1 && field[1] == 1)]),
        ItemKind::Field(_) => is_marked(field, &take_u64(field, 1).unwrap_or(0).to_be_bytes()),
        ItemKind::Link(_, _) => is_marked(field, &take_u32(field, 1).unwrap_or(0).to_be_bytes()),
    }
}

// Whether a field spells what is read of it, whatever its range.
fn is_raw_field(kind: ItemKind, field: &[u8]) -> bool
    ensures { result ≡ is_raw_field kind field.now }
{
    if !field.is_empty() && field[0] == 255 {
        return is_null(kind, field);
    }
    is_raw_value(kind, field)
}

// Whether bytes are the fields of a record, whatever the ranges of its values.
fn are_raw_fields(items: &[Item], bytes: &[u8]) -> bool
    ensures { result ≡ are_raw_fields items.now bytes.now }
{
    let mut rest = bytes;
    for item in items {
        let width = item_width(item.kind) as usize;
        if !is_raw_field(item.kind, ahead(rest, width)) {
            return false;
        }
        rest = behind(rest, width);
    }
    rest.is_empty()
}

// Whether bytes are the spelling of the slot that is read of them, whatever the ranges of its values.
#[tactic(auto, unfolding(crate::specs::Slots::is_raw))]
pub fn is_raw(desc: &Structure, bytes: &[u8]) -> bool
    ensures { result ≡ is_raw (shape_of desc.now) bytes.now }
{
    is_head(bytes)
        && may_own(desc, u64::from(take_u32(bytes, 1).unwrap_or(0)))
        && are_raw_fields(desc.items.as_slice(), record_in(bytes))
}

/// Whether the bytes of a slot are in the format, whatever the ranges of its values: zeros alone, or the spelling of the slot that is
/// read of them.
pub fn is_raw_slot(desc: &Structure, bytes: &[u8]) -> bool
    ensures { result ≡ is_raw_slot (shape_of desc.now) bytes.now }
{
    is_free(desc.items.as_slice(), bytes) || is_raw(desc, bytes)
}

/// Whether the bytes of a slot are bad, as `from_slot` says, without the record.
pub fn is_bad_slot(desc: &Structure, bytes: &[u8]) -> bool
    ensures { result ≡ reads_bad (slot_of (shape_of desc.now) bytes.now) }
{
    if is_free(desc.items.as_slice(), bytes) {
        return false;
    }
    !is_used(desc, bytes)
}

/// Whether the bytes of a slot are those of a free one, as `from_slot` says.
pub fn is_free_slot(desc: &Structure, bytes: &[u8]) -> bool
    ensures { result ≡ reads_free (slot_of (shape_of desc.now) bytes.now) }
{
    is_free(desc.items.as_slice(), bytes)
}
