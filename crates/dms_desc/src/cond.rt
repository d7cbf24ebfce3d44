ghost use Rattle.std.specs.Prelude.{◌≡◌, IfOk};
ghost use Rattle.dms_desc.specs.Shape.{tree_of};
ghost use Rattle.dms_desc.specs.Conds.{meets, by_op, by_nulls, compares, is_null, item_of};

use dms_base::{Memory, Op, Value, order};
use std::alloc::Global;
use std::cmp::Ordering;

/// A condition on a record's values. `Nothing` is met by each record and stands only as a whole.
#[derive(Drop)]
pub enum Cond {
    Nothing,
    /// An item, counted from 1, compared with a value.
    Compare(u8, Op, Value),
    And(Box<Cond>, Box<Cond>),
    Or(Box<Cond>, Box<Cond>),
    Not(Box<Cond>),
}

fn by_op(op: Op, o: Ordering) -> bool
    ensures { result ≡ by_op op o }
{
    match op {
        Op::Equal => o.is_eq(),
        Op::NotEqual => !o.is_eq(),
        Op::Less => o.is_lt(),
        Op::LessEqual => !o.is_gt(),
        Op::Greater => o.is_gt(),
        Op::GreaterEqual => !o.is_lt(),
    }
}

fn by_nulls(op: Op, a: bool, b: bool) -> bool
    ensures { result ≡ by_nulls op a b }
{
    match op {
        Op::Equal => a && b,
        Op::NotEqual => !(a && b),
        _ => false,
    }
}

/// Whether a value is null.
pub fn is_null(value: &Value) -> bool
    ensures { result ≡ is_null value.now }
{
    matches!(value, Value::Null)
}

fn compares(op: Op, a: &Value, b: &Value) -> bool
    ensures { result ≡ compares op a.now b.now }
{
    let (left, right) = (is_null(a), is_null(b));
    if left || right {
        return by_nulls(op, left, right);
    }
    by_op(op, order(a, b))
}

/// Whether an item, counted from 1, of these values compares so with a value; an item that isn't
/// there counts as null.
fn tests(values: &[Value], item: u8, op: Op, literal: &Value) -> bool
    ensures { result ≡ compares op (item_of values.now item) literal.now }
{
    match values.get((item as usize).saturating_sub(1)) {
        None => compares(op, &Value::Null, literal),
        Some(value) => compares(op, value, literal),
    }
}

/// Whether a record's values meet a condition.
pub fn meets(cond: &Cond, values: &[Value]) -> bool
    ensures { result ≡ meets (tree_of cond.now) values.now }
{
    match cond {
        Cond::Nothing => true,
        Cond::Compare(item, op, literal) => tests(values, *item, *op, literal),
        Cond::And(a, b) => meets(a, values) && meets(b, values),
        Cond::Or(a, b) => meets(a, values) || meets(b, values),
        Cond::Not(a) => !meets(a, values),
    }
}

impl Cond {
    /// A copy of a condition. Answers Err where memory is refused.
    pub fn copy(&self, alloc: Global) -> Result<Cond, Memory>
        ensures { IfOk result (λ c. tree_of c ≡ tree_of self.now) }
    {
        match self {
            Cond::Nothing => Ok(Cond::Nothing),
            Cond::Compare(item, op, literal) => Ok(Cond::Compare(*item, *op, literal.copy(alloc)?)),
            Cond::And(a, b) => {
                let x = a.copy(alloc)?;
                let y = b.copy(alloc)?;
                Ok(Cond::And(Box::new(alloc, x)?, Box::new(alloc, y)?))
            }
            Cond::Or(a, b) => {
                let x = a.copy(alloc)?;
                let y = b.copy(alloc)?;
                Ok(Cond::Or(Box::new(alloc, x)?, Box::new(alloc, y)?))
            }
            Cond::Not(a) => {
                let x = a.copy(alloc)?;
                Ok(Cond::Not(Box::new(alloc, x)?))
            }
        }
    }
}
