ghost use Rattle.std.specs.Prelude.{◌≡◌, ◌++◌, ◌∷◌, [], ◌&&◌, ◌||◌, true, false, IfOk, OnOk};
ghost use Rattle.std.specs.List.{list_any};
ghost use Rattle.std.specs.Option.{option_copied};
ghost use Rattle.dms_desc.specs.Conds.{or_null};
ghost use Rattle.dms_desc.specs.Lookups.{structure_of};
ghost use Rattle.dms_desc.specs.Shape.{as_described};
ghost use Rattle.dms_desc_bytes.specs.Finding.{owner_in as owner_of};
ghost use Rattle.dms_model.specs.Uses.{in_use, is_entered, is_link_into, linkers, links_to, owns_entry, owns_record, place_in_entry, refers_to, some_link};
ghost use Rattle.dms_plain.specs.Linkers.{is_named_in, is_owner_in, linkers_in};
ghost use Rattle.dms_plain.specs.Rows.{IsInOrder, db_of, entries_of, entry_of, records_in};

use crate::entry::Entry;
use crate::rows::RecordRow;
use dms_base::{ItemKind, Memory, Value};
use dms_desc::{Description, Item};
use dms_model::{Places, value_at};
use std::alloc::Global;

/// Whether an item of this kind is a link into a data set, counted or self-correcting as is asked.
pub fn is_link_into(counted: bool, kind: ItemKind, to: u16) -> bool
    ensures { result ≡ is_link_into counted to kind }
{
    match kind {
        ItemKind::Link(set, counts) => set == to && (if counted { counts } else { !counts }),
        _ => false,
    }
}

/// Whether a value refers to the record with this number.
pub fn refers_to(value: Option<&Value>, number: u64) -> bool
    ensures { result ≡ refers_to number (or_null (option_copied value.entry)) }
{
    match value {
        Some(Value::Link(n)) => *n == number,
        _ => false,
    }
}

/// Whether an item and its value are such a link to a record.
fn links_at(counted: bool, item: &Item, value: Option<&Value>, to: u16, number: u64) -> bool
    ensures { result ≡ (is_link_into counted to item.now.kind && refers_to number (or_null (option_copied value.entry))) }
{
    is_link_into(counted, item.kind, to) && refers_to(value, number)
}

/// Whether one of these values is such a link to a record.
fn has_link(counted: bool, items: &[Item], values: &[Value], to: u16, number: u64) -> bool
    ensures { result ≡ some_link counted to number 0 items.now values.now }
{
    for (k, item) in items.iter().enumerate() {
        if links_at(counted, item, value_at(values, k), to, number) {
            return true;
        }
    }
    false
}

/// Whether the record of a row has such a link to a record of a data set.
pub fn links_to(counted: bool, desc: &Description, to: u16, number: u64, row: &RecordRow) -> bool
    ensures { result ≡ links_to counted (as_described desc.now) to number (entry_of row.now) }
{
    has_link(
        counted,
        desc.items_of(row.set),
        row.rec.values.as_slice(),
        to,
        number,
    )
}

/// The number of the data set that a structure stands in, 0 for none.
fn owner_of(desc: &Description, number: u16) -> u16
    ensures { result ≡ owner_of (structure_of (as_described desc.now) number) }
{
    match desc.structure(number) {
        None => 0,
        Some(s) => s.owner,
    }
}

/// Whether a record owns that of a row.
fn owns_row(desc: &Description, set: u16, number: u64, row: &RecordRow) -> bool
    ensures { result ≡ owns_record (as_described desc.now) set number (entry_of row.now) }
{
    owner_of(desc, row.set) == set && row.rec.owner == number
}

/// Whether a counted link of a row refers to a record.
fn is_linked(desc: &Description, rows: &[RecordRow], set: u16, number: u64) -> bool
    ensures { result ≡ list_any (links_to true (as_described desc.now) set number) (entries_of rows.now) }
{
    for row in rows {
        if links_to(true, desc, set, number, row) {
            return true;
        }
    }
    false
}

/// Whether a record owns one of a row.
fn owns_rows(desc: &Description, rows: &[RecordRow], set: u16, number: u64) -> bool
    ensures { result ≡ list_any (owns_record (as_described desc.now) set number) (entries_of rows.now) }
{
    for row in rows {
        if owns_row(desc, set, number, row) {
            return true;
        }
    }
    false
}

/// Whether a record is that of an entry.
fn is_entered(desc: &Description, entries: &[Entry], set: u16, number: u64) -> bool
    ensures { result ≡ list_any (is_entered (as_described desc.now) set number) entries.now }
{
    for entry in entries {
        if desc.set_of(entry.subset()) == set && entry.number() == number {
            return true;
        }
    }
    false
}

/// Whether a record owns an entry.
fn owns_entries(desc: &Description, entries: &[Entry], set: u16, number: u64) -> bool
    ensures { result ≡ list_any (owns_entry (as_described desc.now) set number) entries.now }
{
    for entry in entries {
        if owner_of(desc, entry.subset()) == set && entry.owner() == number {
            return true;
        }
    }
    false
}

/// Whether a counted link of a row, or an entry, refers to a record.
fn is_named(
    desc: &Description,
    rows: &[RecordRow],
    entries: &[Entry],
    set: u16,
    number: u64,
) -> bool
    ensures { result ≡ is_named_in (as_described desc.now) (entries_of rows.now) entries.now set number }
{
    is_linked(desc, rows, set, number) || is_entered(desc, entries, set, number)
}

/// Whether a record owns one of a row, or an entry.
fn is_owner(
    desc: &Description,
    rows: &[RecordRow],
    entries: &[Entry],
    set: u16,
    number: u64,
) -> bool
    ensures { result ≡ is_owner_in (as_described desc.now) (entries_of rows.now) entries.now set number }
{
    owns_rows(desc, rows, set, number) || owns_entries(desc, entries, set, number)
}

fn is_named_or_owner(
    desc: &Description,
    rows: &[RecordRow],
    entries: &[Entry],
    set: u16,
    number: u64,
) -> bool
    ensures { result ≡ (is_named_in (as_described desc.now) (entries_of rows.now) entries.now set number || is_owner_in (as_described desc.now) (entries_of rows.now) entries.now set number) }
{
    is_named(desc, rows, entries, set, number) || is_owner(desc, rows, entries, set, number)
}

/// Whether a counted link refers to a record, an entry names it, or it owns records or entries.
pub fn in_use(
    desc: &Description,
    rows: &[RecordRow],
    entries: &[Entry],
    set: u16,
    number: u64,
) -> bool
    requires { IsInOrder rows.now }
    ensures { result ≡ in_use (as_described desc.now) (db_of (records_in rows.now) entries.now) set number }
{
    is_named_or_owner(desc, rows, entries, set, number)
}

/// Adds the place of a row whose self-correcting link refers to a record.
fn note_linker(
    found: &mut Places,
    desc: &Description,
    set: u16,
    number: u64,
    row: &RecordRow,
) -> Result<(), Memory>
    ensures { OnOk result (found.new ≡ found.old ++ linkers_in (as_described desc.now) set number (entry_of row.now ∷ [])) }
{
    if links_to(false, desc, set, number, row) {
        found.push((row.set, row.number))?;
    }
    Ok(())
}

/// The places of the rows whose self-correcting link refers to a record.
pub fn linkers(
    alloc: Global,
    desc: &Description,
    rows: &[RecordRow],
    set: u16,
    number: u64,
) -> Result<Places, Memory>
    ensures { IfOk result (λ ps. ps ≡ linkers_in (as_described desc.now) set number (entries_of rows.now)) }
{
    let mut found = Places::new(alloc);
    for row in rows {
        note_linker(&mut found, desc, set, number, row)?;
    }
    Ok(found)
}
