ghost use Rattle.std.specs.Prelude.{◌≡◌};
ghost use Rattle.dms_base.specs.Orders.{rank, value_cmp};

use crate::Value;
use std::cmp::Ordering;

/// The place of a value's kind, null above the others.
fn rank(a: &Value) -> u8
    ensures { result ≡ rank a.now }
{
    match a {
        Value::Text(_) => 0,
        Value::Number(_) => 1,
        Value::Bool(_) => 2,
        Value::Bits(_) => 3,
        Value::Link(_) => 4,
        Value::Null => 5,
    }
}

/// The order of two values, null above the others. Texts go by their bytes, FALSE is below TRUE, and values of two
/// kinds go by kind.
pub fn order(a: &Value, b: &Value) -> Ordering
    ensures { result ≡ value_cmp a.now b.now }
{
    match (a, b) {
        (Value::Text(x), Value::Text(y)) => x.bytes().cmp(y.bytes()),
        (Value::Number(x), Value::Number(y)) => x.cmp(y),
        (Value::Bool(x), Value::Bool(y)) => x.cmp(y),
        (Value::Bits(x), Value::Bits(y)) => x.cmp(y),
        (Value::Link(x), Value::Link(y)) => x.cmp(y),
        _ => rank(a).cmp(&rank(b)),
    }
}
