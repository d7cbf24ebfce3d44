use crate::literals::put_literal;
use dms_base::{Bytes, Memory, Op, Value};
use dms_desc::{Cond, Item};

fn sign(op: Op) -> &'static [u8] {
    match op {
        Op::Equal => b" = ",
        Op::NotEqual => b" <> ",
        Op::Less => b" < ",
        Op::LessEqual => b" <= ",
        Op::Greater => b" > ",
        Op::GreaterEqual => b" >= ",
    }
}

/// Adds a comparison of an item, counted from 1 among these.
fn put_comparison(
    out: &mut Bytes,
    items: &[Item],
    number: u8,
    op: Op,
    value: &Value,
) -> Result<(), Memory> {
    match items.get(usize::from(number).saturating_sub(1)) {
        None => Ok(()),
        Some(item) => {
            out.extend(item.name.bytes())?;
            out.extend(sign(op))?;
            put_literal(out, item.kind, value)
        }
    }
}

/// Adds a condition on records of these items. Each part of AND, OR and NOT stands in brackets, so that it is read
/// as the tree that it was.
pub fn put_condition(out: &mut Bytes, items: &[Item], cond: &Cond) -> Result<(), Memory> {
    match cond {
        Cond::Nothing => Ok(()),
        Cond::Compare(number, op, value) => put_comparison(out, items, *number, *op, value),
        Cond::And(left, right) => {
            out.push(b'(')?;
            put_condition(out, items, left)?;
            out.extend(b") AND (")?;
            put_condition(out, items, right)?;
            out.push(b')')
        }
        Cond::Or(left, right) => {
            out.push(b'(')?;
            put_condition(out, items, left)?;
            out.extend(b") OR (")?;
            put_condition(out, items, right)?;
            out.push(b')')
        }
        Cond::Not(part) => {
            out.extend(b"NOT (")?;
            put_condition(out, items, part)?;
            out.push(b')')
        }
    }
}

/// Adds the words before a condition and the condition, and nothing where there is none.
pub fn put_clause(
    out: &mut Bytes,
    words: &[u8],
    items: &[Item],
    cond: &Cond,
) -> Result<(), Memory> {
    match cond {
        Cond::Nothing => Ok(()),
        _ => {
            out.extend(words)?;
            put_condition(out, items, cond)
        }
    }
}
