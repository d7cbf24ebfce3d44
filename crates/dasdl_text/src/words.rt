use dms_base::{Bytes, Memory};
use itoa::Buffer;

/// Adds a number in digits.
pub fn put_number(out: &mut Bytes, n: u64) -> Result<(), Memory> {
    let mut buffer = Buffer::new();
    out.extend(buffer.format(n).as_bytes())
}

/// Adds words, and the number behind them.
pub fn put_said(out: &mut Bytes, words: &[u8], n: u64) -> Result<(), Memory> {
    out.extend(words)?;
    put_number(out, n)
}

/// Begins a line that stands in so many data sets: two blanks for each.
pub fn put_indent(out: &mut Bytes, levels: usize) -> Result<(), Memory> {
    for _ in 0..levels {
        out.extend(b"  ")?;
    }
    Ok(())
}
