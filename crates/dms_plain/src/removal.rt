ghost use Rattle.std.specs.Prelude.{◌≡◌, ◌++◌, ◌∷◌, [], map, not, if◌then◌else◌, IfOk, OnOk, OnErr};
ghost use Rattle.std.specs.Option.{option_copied};
ghost use Rattle.dms_desc.specs.Conds.{or_null};
ghost use Rattle.dms_desc.specs.Shape.{as_described};
ghost use Rattle.dms_model.specs.Uses.{after_remove, corrected, corrected_entry, in_use};
ghost use Rattle.dms_plain.specs.Listed.{AreLists};
ghost use Rattle.dms_plain.specs.Removed.{corrected_at, is_corrected, kept_at, removed_from};
ghost use Rattle.dms_plain.specs.Rows.{IsInOrder, db_of, entries_of, entry_of, records_in, undo_all};

use crate::entry::Entry;
use crate::lists::follow_removal;
use crate::members::Members;
use crate::rows::{self, RecordRow, Undo};
use crate::state;
use crate::uses::{in_use, is_link_into, linkers, refers_to};
use dms_base::{Memory, Value};
use dms_desc::{Description, Item, Values};
use dms_model::value_at;
use std::alloc::Global;

/// Whether a value is a self-correcting link to a record.
fn is_corrected(item: Option<&Item>, to: u16, number: u64, value: Option<&Value>) -> bool
    ensures { result ≡ is_corrected (option_copied item.entry) to number (or_null (option_copied value.entry)) }
{
    match item {
        None => false,
        Some(item) => is_link_into(false, item.kind, to) && refers_to(value, number),
    }
}

/// Makes a value null where it is a self-correcting link to a record.
fn correct_value(items: &[Item], to: u16, number: u64, k: usize, values: &mut Values)
    ensures { values.new ≡ corrected_at to number items.now k values.old }
{
    if is_corrected(items.get(k), to, number, value_at(values.as_slice(), k)) {
        values.set(k, Value::Null);
    }
}

/// Makes the self-correcting links to a record null.
fn correct(items: &[Item], to: u16, number: u64, values: &mut Values)
    ensures { values.new ≡ corrected to number 0 items.now values.old }
{
    let count = values.as_slice().len();
    for k in 0..count {
        correct_value(items, to, number, k, values);
    }
}

/// Makes the self-correcting links of a row to a record null.
fn correct_row(desc: &Description, set: u16, number: u64, row: &mut RecordRow)
    ensures { entry_of row.new ≡ corrected_entry (as_described desc.now) set number (entry_of row.old) }
{
    correct(desc.items_of(row.set), set, number, &mut row.rec.values);
}

/// Makes all self-correcting links to a record null.
fn correct_rows(desc: &Description, set: u16, number: u64, rows: &mut Vec<RecordRow>)
    ensures { entries_of rows.new.items ≡ map (corrected_entry (as_described desc.now) set number) (entries_of rows.old.items) }
{
    for row in rows.iter_mut() {
        correct_row(desc, set, number, row);
    }
}

/// Takes a record out, and makes all self-correcting links to it null.
fn take_out(desc: &Description, set: u16, number: u64, rows: &mut Vec<RecordRow>)
    requires { IsInOrder rows.old.items }
    ensures in_order { IsInOrder rows.new.items }
    ensures db { records_in rows.new.items ≡ removed_from (as_described desc.now) set number (records_in rows.old.items) }
{
    correct_rows(desc, set, number, rows);
    rows::remove_row(rows, set, number);
}

/// What stands at a place.
fn kept_at(alloc: Global, rows: &[RecordRow], set: u16, number: u64) -> Result<Undo, Memory>
    requires { IsInOrder rows.now }
    ensures { IfOk result (λ u. u ≡ kept_at (records_in rows.now) (set, number)) }
{
    Ok(Undo {
        set,
        number,
        old: state::get(alloc, rows, set, number)?,
    })
}

/// What stands at these places.
fn kept_at_all(
    alloc: Global,
    rows: &[RecordRow],
    places: &[(u16, u64)],
) -> Result<Vec<Undo>, Memory>
    requires { IsInOrder rows.now }
    ensures { IfOk result (λ v. v.items ≡ map (kept_at (records_in rows.now)) places.now) }
{
    let mut kept = Vec::new(alloc);
    for place in places {
        kept.push(kept_at(alloc, rows, place.0, place.1)?)?;
    }
    Ok(kept)
}

/// Removes a record that isn't in use, and makes the self-correcting links to it null. Answers whether it did. Answers Err where
/// memory is refused, and all is as it was.
pub fn remove(
    alloc: Global,
    desc: &Description,
    rows: &mut Vec<RecordRow>,
    lists: &mut Vec<Members>,
    undo: &mut Vec<Undo>,
    entries: &[Entry],
    set: u16,
    number: u64,
) -> Result<bool, Memory>
    requires in_order { IsInOrder rows.old.items }
    requires listed { AreLists (as_described desc.now).structures lists.old.items (records_in rows.old.items) }
    ensures in_order { IsInOrder rows.new.items }
    ensures listed { AreLists (as_described desc.now).structures lists.new.items (records_in rows.new.items) }
    ensures answer { IfOk result (λ b. b ≡ not (in_use (as_described desc.now) (db_of (records_in rows.old.items) entries.now) set number)) }
    ensures db { IfOk result (λ b. records_in rows.new.items ≡ (if b then removed_from (as_described desc.now) set number (records_in rows.old.items) else records_in rows.old.items)) }
    ensures mark { OnOk result (undo_all undo.new.items (records_in rows.new.items) ≡ undo_all undo.old.items (records_in rows.old.items)) }
    ensures err_rows { OnErr result (rows.new.items ≡ rows.old.items) }
    ensures err_undo { OnErr result (undo.new.items ≡ undo.old.items) }
{
    if in_use(desc, rows.as_slice(), entries, set, number) {
        return Ok(false);
    }
    let mut places = linkers(alloc, desc, rows.as_slice(), set, number)?;
    places.push((set, number))?;
    let mut kept = kept_at_all(alloc, rows.as_slice(), places.as_slice())?;
    undo.append(&mut kept)?;
    follow_removal(
        alloc,
        desc,
        lists,
        rows.as_slice(),
        set,
        number,
        places.as_slice(),
    );
    take_out(desc, set, number, rows);
    Ok(true)
}
