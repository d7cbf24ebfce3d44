//! Whether fields of descriptions are the same.

ghost use Rattle.std.specs.Prelude.{◌≡◌, ◌↔◌, IsTrue, drop, length, take};
ghost use Rattle.std.specs.List.{list_all};
ghost use Rattle.dms_desc.specs.Shape.{form_number, kind_number, shape_of, tree_of};
ghost use Rattle.dms_reorg.specs.Extends.{KeepsStructure, is_behind, shortened};

use dms_base::{SetForm, StructureKind, Value, order};
use dms_desc::{Cond, Group, Item, KeyPart, Structure};

/// Whether two values are one.
fn same_value(a: &Value, b: &Value) -> bool
    ensures { IsTrue result ↔ (a.now ≡ b.now) }
{
    order(a, b).is_eq()
}

/// Whether two items are one.
fn same_item(a: &Item, b: &Item) -> bool
    ensures { IsTrue result ↔ (a.now ≡ b.now) }
{
    a.name.equals(&b.name)
        && a.kind == b.kind
        && a.required == b.required
        && same_value(&a.initial, &b.initial)
}

/// Whether a list of items begins with another one.
fn begins_with(items: &[Item], first: &[Item]) -> bool
    ensures { IsTrue result ↔ (take (length first.now) items.now ≡ first.now) }
{
    if items.len() < first.len() {
        return false;
    }
    for (place, item) in first.iter().enumerate() {
        if !same_item(&items[place], item) {
            return false;
        }
    }
    true
}

/// Whether two conditions are one.
fn same_cond(a: &Cond, b: &Cond) -> bool
    ensures { IsTrue result ↔ (tree_of a.now ≡ tree_of b.now) }
{
    match (a, b) {
        (Cond::Nothing, Cond::Nothing) => true,
        (Cond::Compare(i, op, literal), Cond::Compare(j, other, value)) => {
            i == j && op == other && same_value(literal, value)
        }
        (Cond::And(x, y), Cond::And(z, w)) => same_cond(x, z) && same_cond(y, w),
        (Cond::Or(x, y), Cond::Or(z, w)) => same_cond(x, z) && same_cond(y, w),
        (Cond::Not(x), Cond::Not(y)) => same_cond(x, y),
        _ => false,
    }
}

/// Whether each of these groups holds items behind the first so many alone.
fn are_behind(groups: &[Group], count: usize) -> bool
    ensures { result ≡ list_all (is_behind count) groups.now }
{
    groups.iter().all(|group| count < group.first as usize)
}

/// Whether two kinds of structures are one.
fn same_kind(a: StructureKind, b: StructureKind) -> bool
    ensures { IsTrue result ↔ (kind_number a ≡ kind_number b) }
{
    a == b
}

/// Whether two forms of sets are one.
fn same_form(a: Option<SetForm>, b: Option<SetForm>) -> bool
    ensures { IsTrue result ↔ (form_number a ≡ form_number b) }
{
    a == b
}

/// Whether two keys are one.
fn same_key(a: &[KeyPart], b: &[KeyPart]) -> bool
    ensures { IsTrue result ↔ (a.now ≡ b.now) }
{
    a == b
}

/// Whether a list of groups begins with another one.
fn begins_with_groups(groups: &[Group], first: &[Group]) -> bool
    ensures { IsTrue result ↔ (take (length first.now) groups.now ≡ first.now) }
{
    groups.starts_with(first)
}

/// Whether the fields of a structure are those of another one, which may have further items and groups and another POPULATION.
fn same_fields(s: &Structure, t: &Structure) -> bool
    ensures { IsTrue result ↔ (shortened (shape_of s.now) (shape_of t.now) ≡ shape_of s.now) }
{
    t.number == s.number
        && same_kind(t.kind, s.kind)
        && t.name.equals(&s.name)
        && t.owner == s.owner
        && begins_with(t.items.as_slice(), s.items.as_slice())
        && begins_with_groups(t.groups.as_slice(), s.groups.as_slice())
        && same_cond(&t.cond, &s.cond)
        && t.set == s.set
        && same_form(t.form, s.form)
        && t.duplicates == s.duplicates
        && same_key(t.parts.as_slice(), s.parts.as_slice())
}

/// Whether the groups of a structure behind the first so many hold items behind the first so many alone.
fn are_apart(groups: &[Group], held: usize, count: usize) -> bool
    ensures { result ≡ list_all (is_behind count) (drop held groups.now) }
{
    if groups.len() < held {
        return true;
    }
    are_behind(&groups[held..], count)
}

/// Whether a structure stands in another one.
pub fn keeps_structure(s: &Structure, t: &Structure) -> bool
    ensures { IsTrue result ↔ KeepsStructure (shape_of s.now) (shape_of t.now) }
{
    let (items, groups) = (s.items.as_slice().len(), s.groups.as_slice().len());
    same_fields(s, t)
        && s.population <= t.population
        && are_apart(t.groups.as_slice(), groups, items)
}
