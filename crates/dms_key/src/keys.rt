ghost use Rattle.std.specs.Prelude.{◌≡◌, ◌++◌, ◌≤◌, OnOk, IfOk, length};
ghost use Rattle.dms_key.specs.KeyBytes.{turned_bytes, kind_of, part_bytes, part_width, key_bytes, key_width};

use crate::fields::put_field;
use dms_base::{Bytes, ItemKind, Memory, Value};
use dms_desc::{KeyPart, item_width};
use std::alloc::Global;

// The kind of a part's item.
fn kind_of<'a>(items: &'a [ItemKind], part: &KeyPart) -> Option<ItemKind>
    ensures { result ≡ kind_of items.now part.now }
{
    items.get((part.item as usize).saturating_sub(1)).copied()
}

// Adds bytes, each complemented where their part is descending.
fn put_turned(out: &mut Bytes, descending: bool, bytes: &[u8]) -> Result<(), Memory>
    ensures { OnOk result (out.new ≡ out.old ++ turned_bytes descending bytes.now) }
{
    if !descending {
        return out.extend(bytes);
    }
    for byte in bytes {
        out.push(255 - *byte)?;
    }
    Ok(())
}

fn put_part(
    alloc: Global,
    out: &mut Bytes,
    kind: Option<ItemKind>,
    descending: bool,
    value: &Value,
) -> Result<(), Memory>
    ensures { OnOk result (out.new ≡ out.old ++ part_bytes kind descending value.now) }
{
    match kind {
        None => Ok(()),
        Some(kind) => {
            let mut field = Bytes::new(alloc);
            put_field(&mut field, kind, value)?;
            put_turned(out, descending, field.as_slice())
        }
    }
}

/// The bytes of a key or of its first values. Byte order is key order. `items` are the kinds of a data set's items,
/// and `values` those of the first parts, in the order of the parts; further values are left out.
pub fn key_bytes(
    alloc: Global,
    parts: &[KeyPart],
    items: &[ItemKind],
    values: &[Value],
) -> Result<Bytes, Memory>
    ensures { IfOk result (λ b. b ≡ key_bytes items.now parts.now values.now) }
{
    let mut out = Bytes::new(alloc);
    let mut rest = values;
    for part in parts {
        match rest {
            [] => return Ok(out),
            [value, more @ ..] => {
                put_part(
                    alloc,
                    &mut out,
                    kind_of(items, part),
                    part.descending,
                    value,
                )?;
                rest = more;
            }
        }
    }
    Ok(out)
}

fn part_width(kind: Option<ItemKind>) -> u32
    ensures width { result ≡ part_width kind }
    ensures most { result ≤ 256 }
{
    match kind {
        None => 0,
        Some(kind) => item_width(kind),
    }
}

/// How many bytes a whole key has, at most 256 a part.
pub fn max_key(parts: &[KeyPart], items: &[ItemKind]) -> u32
    requires { length parts.now ≤ 16 }
    ensures { result ≡ key_width items.now parts.now }
{
    let mut width = 0u32;
    for part in parts {
        width += part_width(kind_of(items, part));
    }
    width
}
