ghost use Rattle.std.specs.Prelude.{◌≡◌, ◌++◌, ◌-◌, OnOk, replicate};
ghost use Rattle.dms_key.specs.KeyBytes.{shift_up, field_bytes, value_bytes};

use dms_base::{Bytes, ItemKind, Memory, Value};
use dms_desc::width_of;

/// A number moved so that the least one is 0: a number plus 2 to the power 63.
pub fn shift_up(number: i64) -> u64
    ensures { result ≡ shift_up number }
{
    if number < 0 {
        (1 << 63) - number.unsigned_abs()
    } else {
        (1 << 63) + number as u64
    }
}

// Adds so many bytes that are all the same.
fn fill(out: &mut Bytes, count: usize, byte: u8) -> Result<(), Memory>
    ensures { OnOk result (out.new ≡ out.old ++ replicate count byte) }
{
    for _i in 0..count {
        out.push(byte)?;
    }
    Ok(())
}

// Adds a value that isn't null.
fn put_value(out: &mut Bytes, kind: ItemKind, value: &Value) -> Result<(), Memory>
    ensures { OnOk result (out.new ≡ out.old ++ value_bytes kind value.now) }
{
    match (kind, value) {
        (ItemKind::Alpha(n), Value::Text(text)) => {
            out.extend(text.bytes())?;
            fill(out, (n as usize).saturating_sub(text.bytes().len()), b' ')
        }
        (ItemKind::Number(_, _, _), Value::Number(z)) => out.extend(&shift_up(*z).to_be_bytes()),
        (ItemKind::Bool, Value::Bool(b)) => out.push(u8::from(*b)),
        (ItemKind::Field(_), Value::Bits(bits)) => out.extend(&bits.to_be_bytes()),
        (ItemKind::Link(_, _), Value::Link(record)) => out.extend(&record.to_be_bytes()[4..]),
        _ => fill(out, width_of(kind) as usize, 0),
    }
}

/// Adds the bytes of an item's value: 255 in each byte for null, and else a 1 and the value. After want of memory a
/// part of them may stand there.
pub fn put_field(out: &mut Bytes, kind: ItemKind, value: &Value) -> Result<(), Memory>
    ensures { OnOk result (out.new ≡ out.old ++ field_bytes kind value.now) }
{
    match value {
        Value::Null => fill(out, width_of(kind) as usize + 1, 255),
        _ => {
            out.push(1)?;
            put_value(out, kind, value)
        }
    }
}
