ghost use Rattle.std.specs.Prelude.{◌≡◌, false, map, IfSome, Some};
ghost use Rattle.std.specs.FinMap.{get};
ghost use Rattle.std.specs.List.{list_any};
ghost use Rattle.std.specs.Option.{option_copied};
ghost use Rattle.dms_desc.specs.Kinds.{is_manual};
ghost use Rattle.dms_desc.specs.Shape.{shape_of};
ghost use Rattle.dms_model.specs.Stores.{entered_owners, is_other, is_strict, has_equal, owners_in};
ghost use Rattle.dms_plain.specs.Listed.{AreLists, IsListOf};
ghost use Rattle.dms_plain.specs.Rows.{IsInOrder, entries_of, records_in};
ghost use Rattle.dms_plain.specs.Clashes.{clash_in, clashes_at, clashes_for_owner, clashes_with};

use crate::entry::Entry;
use crate::keys::order_of_keys;
use crate::manual::Manual;
use crate::members::Members;
use crate::rows::RecordRow;
use crate::scan::belongs;
use dms_base::Value;
use dms_desc::{Record, Structure};

/// Whether a number is another one.
pub fn is_other(number: Option<u64>, m: u64) -> bool
    ensures { result ≡ is_other number m }
{
    match number {
        None => true,
        Some(n) => n != m,
    }
}

/// Whether another record of an owner stands in the structure with a key equal to that of these values.
pub fn has_equal(
    s: &Structure,
    manual: &Manual,
    number: Option<u64>,
    owner: u64,
    values: &[Value],
    rows: &[RecordRow],
) -> bool
    ensures { result ≡ has_equal (shape_of s.now) manual.now.entries number (record { owner = owner; values = values.now }) (entries_of rows.now) }
{
    for row in rows {
        if belongs(s, manual, owner, row)
            && is_other(number, row.number)
            && order_of_keys(s.parts.as_slice(), row.rec.values.as_slice(), values).is_eq()
        {
            return true;
        }
    }
    false
}

/// The same of a set or automatic subset, by its list where that is kept.
fn has_equal_listed(
    s: &Structure,
    manual: &Manual,
    list: Option<&Members>,
    number: Option<u64>,
    owner: u64,
    values: &[Value],
    rows: &[RecordRow],
) -> bool
    requires in_order { IsInOrder rows.now }
    requires listed { IfSome (option_copied list) (λ ms. IsListOf (shape_of s.now) ms (get (records_in rows.now))) }
    requires kind { is_manual (shape_of s.now) ≡ false }
    ensures { result ≡ has_equal (shape_of s.now) manual.now.entries number (record { owner = owner; values = values.now }) (entries_of rows.now) }
{
    match list {
        None => has_equal(s, manual, number, owner, values, rows),
        Some(members) => members.has_other(s.parts.as_slice(), number, owner, values),
    }
}

/// Whether a structure may refuse a record of the data set.
#[tactic(auto, using(dms_desc::specs::Numbered::above_two, dms_desc::specs::Numbered::up_to_five))]
fn is_strict(s: &Structure, set: u16, values: &[Value]) -> bool
    ensures { result ≡ is_strict (shape_of s.now) set values.now }
{
    !s.is_data_set() && s.set == set && !s.duplicates && s.takes(values)
}

/// Whether an entry is one of a record in a subset, and another record of its owner has a key equal to that of these values.
fn has_equal_for(
    s: &Structure,
    manual: &Manual,
    number: u64,
    values: &[Value],
    rows: &[RecordRow],
    entry: &Entry,
) -> bool
    ensures { result ≡ clashes_for_owner (shape_of s.now) manual.now.entries number values.now (entries_of rows.now) entry.now }
{
    entry.subset() == s.number
        && entry.number() == number
        && has_equal(s, manual, Some(number), entry.owner(), values, rows)
}

/// Whether for one of the owners of a record's entries in a manual subset another record has a key equal to that of these values.
fn is_refused_of(
    s: &Structure,
    manual: &Manual,
    number: u64,
    values: &[Value],
    rows: &[RecordRow],
    entries: &[Entry],
) -> bool
    ensures { result ≡ list_any (clashes_for_owner (shape_of s.now) manual.now.entries number values.now (entries_of rows.now)) entries.now }
{
    for entry in entries {
        if has_equal_for(s, manual, number, values, rows, entry) {
            return true;
        }
    }
    false
}

/// Whether it is so of a record that stands; a new one has no entries.
fn is_refused_entered(
    s: &Structure,
    manual: &Manual,
    number: Option<u64>,
    values: &[Value],
    rows: &[RecordRow],
) -> bool
    ensures { result ≡ list_any (clashes_at (shape_of s.now) manual.now.entries number values.now (entries_of rows.now)) (entered_owners s.now.number number manual.now.entries) }
{
    match number {
        None => false,
        Some(n) => is_refused_of(s, manual, n, values, rows, manual.entries()),
    }
}

/// Whether a set or subset without DUPLICATES refuses a record.
fn is_refused(
    s: &Structure,
    manual: &Manual,
    list: Option<&Members>,
    rows: &[RecordRow],
    number: Option<u64>,
    rec: &Record,
) -> bool
    requires in_order { IsInOrder rows.now }
    requires listed { IfSome (option_copied list) (λ ms. IsListOf (shape_of s.now) ms (get (records_in rows.now))) }
    ensures { result ≡ list_any (clashes_at (shape_of s.now) manual.now.entries number rec.now.values (entries_of rows.now)) (owners_in (shape_of s.now) manual.now.entries number rec.now.owner) }
{
    let values = rec.values.as_slice();
    if s.is_manual() {
        return is_refused_entered(s, manual, number, values, rows);
    }
    has_equal_listed(s, manual, list, number, rec.owner, values, rows)
}

/// Whether a set or subset refuses a record.
fn refuses(
    s: &Structure,
    manual: &Manual,
    list: Option<&Members>,
    rows: &[RecordRow],
    set: u16,
    number: Option<u64>,
    rec: &Record,
) -> bool
    requires in_order { IsInOrder rows.now }
    requires listed { IfSome (option_copied list) (λ ms. IsListOf (shape_of s.now) ms (get (records_in rows.now))) }
    ensures { result ≡ clashes_with (shape_of s.now) manual.now.entries (entries_of rows.now) set number rec.now }
{
    is_strict(s, set, rec.values.as_slice()) && is_refused(s, manual, list, rows, number, rec)
}

/// The first structure that refuses a record.
pub fn clash(
    structures: &[Structure],
    manual: &Manual,
    lists: &[Members],
    rows: &[RecordRow],
    set: u16,
    number: Option<u64>,
    rec: &Record,
) -> Option<u16>
    requires in_order { IsInOrder rows.now }
    requires listed { AreLists (map shape_of structures.now) lists.now (records_in rows.now) }
    ensures { result ≡ clash_in (map shape_of structures.now) manual.now.entries (entries_of rows.now) set number rec.now }
{
    for (i, s) in structures.iter().enumerate() {
        if refuses(s, manual, lists.get(i), rows, set, number, rec) {
            return Some(s.number);
        }
    }
    None
}
