ghost use Rattle.std.specs.Prelude.{◌≡◌, min};
ghost use Rattle.dms_desc.specs.Shape.{tree_of};
ghost use Rattle.dms_desc_bytes.specs.Conditions.{nodes, is_comparable, compares_well, is_nothing, is_condition};
ghost use Rattle.dms_desc_bytes.specs.Finding.{item_at};

use crate::finding::item_at;
use crate::members::is_plain;
use dms_base::{Value, fits};
use dms_desc::{Cond, Item};

/// The nodes of a condition; the count stops at 2^32 - 1.
fn nodes(cond: &Cond) -> u32
    ensures { result ≡ min (nodes (tree_of cond.now)) 4294967295 }
{
    match cond {
        Cond::Nothing => 1,
        Cond::Compare(_, _, _) => 1,
        Cond::And(a, b) => 1u32.saturating_add(nodes(a)).saturating_add(nodes(b)),
        Cond::Or(a, b) => 1u32.saturating_add(nodes(a)).saturating_add(nodes(b)),
        Cond::Not(a) => 1u32.saturating_add(nodes(a)),
    }
}

fn is_comparable(items: &[Item], item: u8, value: &Value) -> bool
    ensures { result ≡ is_comparable (item_at items.now item) value.now }
{
    match item_at(items, item) {
        None => false,
        Some(item) => !item.is_link() && fits(&item.kind, value) && is_plain(value),
    }
}

fn compares_well(items: &[Item], cond: &Cond) -> bool
    ensures { result ≡ compares_well items.now (tree_of cond.now) }
{
    match cond {
        Cond::Nothing => false,
        Cond::Compare(item, _, value) => is_comparable(items, *item, value),
        Cond::And(a, b) => compares_well(items, a) && compares_well(items, b),
        Cond::Or(a, b) => compares_well(items, a) && compares_well(items, b),
        Cond::Not(a) => compares_well(items, a),
    }
}

/// Whether there is no condition.
pub fn is_nothing(cond: &Cond) -> bool
    ensures { result ≡ is_nothing (tree_of cond.now) }
{
    matches!(cond, Cond::Nothing)
}

/// Whether a condition on these items is sound.
#[tactic(auto, unfolding(crate::specs::Conditions::is_condition))]
pub fn is_condition(items: &[Item], cond: &Cond) -> bool
    ensures { result ≡ is_condition items.now (tree_of cond.now) }
{
    nodes(cond) <= 100 && compares_well(items, cond)
}
