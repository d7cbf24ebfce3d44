use crate::words::put_number;
use dms_base::{Bytes, ItemKind, Memory, Value};
use itoa::Buffer;

/// Adds a character of a string: a quote twice.
fn put_character(out: &mut Bytes, character: u8) -> Result<(), Memory> {
    if character == b'"' {
        return out.extend(b"\"\"");
    }
    out.push(character)
}

/// Adds a string in its quotes.
fn put_string(out: &mut Bytes, characters: &[u8]) -> Result<(), Memory> {
    out.push(b'"')?;
    for character in characters {
        put_character(out, *character)?;
    }
    out.push(b'"')
}

/// A number without the zeros at the end of its decimals, and how many decimals are left. A decimal has at most
/// 18 digits, and a number of 18 decimals would have one more before its point.
fn without_zeros(number: u64, decimals: u8) -> (u64, u8) {
    let mut rest = number;
    let mut left = decimals;
    while left > 0 && rest % 10 == 0 {
        rest /= 10;
        left -= 1;
    }
    (rest, left)
}

/// Adds digits, the last of them behind a point, and at least one before it.
fn put_digits(out: &mut Bytes, digits: &[u8], decimals: usize) -> Result<(), Memory> {
    let whole = digits.len().saturating_sub(decimals);
    if whole == 0 {
        out.push(b'0')?;
    }
    out.extend(&digits[..whole])?;
    if decimals == 0 {
        return Ok(());
    }
    out.push(b'.')?;
    for _ in digits.len()..decimals {
        out.push(b'0')?;
    }
    out.extend(&digits[whole..])
}

/// Adds a number that was multiplied by 10 to the power of its item's decimals.
fn put_decimal(out: &mut Bytes, number: i64, decimals: u8) -> Result<(), Memory> {
    if number < 0 {
        out.push(b'-')?;
    }
    let (rest, left) = without_zeros(number.unsigned_abs(), decimals);
    let mut buffer = Buffer::new();
    put_digits(out, buffer.format(rest).as_bytes(), usize::from(left))
}

/// The digits of a kind that stand after the point.
fn decimals_of(kind: ItemKind) -> u8 {
    match kind {
        ItemKind::Number(_, decimals, _) => decimals,
        _ => 0,
    }
}

fn truth(holds: bool) -> &'static [u8] {
    if holds {
        return b"TRUE";
    }
    b"FALSE"
}

/// Adds a value of an item as the literal that stands for it.
pub fn put_literal(out: &mut Bytes, kind: ItemKind, value: &Value) -> Result<(), Memory> {
    match value {
        Value::Null => out.extend(b"NULL"),
        Value::Text(text) => put_string(out, text.bytes()),
        Value::Number(number) => put_decimal(out, *number, decimals_of(kind)),
        Value::Bool(holds) => out.extend(truth(*holds)),
        Value::Bits(number) => put_number(out, *number),
        Value::Link(number) => put_number(out, *number),
    }
}
