ghost use Rattle.std.specs.Prelude.{◌≡◌, ◌||◌, filter, length, IfOk, OnErr};
ghost use Rattle.std.specs.FinMap.{find};
ghost use Rattle.dms_desc.specs.Lookups.{structure_of};
ghost use Rattle.dms_desc.specs.Shape.{as_described, shape_of};
ghost use Rattle.dms_model.specs.Db.{place_cmp};
ghost use Rattle.dms_model.specs.Stores.{is_full, values_of};
ghost use Rattle.dms_model.specs.Uses.{after_enter, clashes_for, enter_answer, is_in_subset};
ghost use Rattle.dms_plain.specs.Clashes.{refused_by};
ghost use Rattle.dms_plain.specs.Moves.{stands};
ghost use Rattle.dms_plain.specs.Rows.{IsInOrder, db_of, entries_of, records_in};

use crate::clash::has_equal;
use crate::manual::Manual;
use crate::rows::{RecordRow, look};
use crate::state::is_full;
use dms_base::{Memory, Value};
use dms_desc::{Description, Structure};
use dms_model::Put;

/// The values of a record, none where it doesn't stand.
fn values_at(rows: &[RecordRow], set: u16, number: u64) -> &[Value]
    requires { IsInOrder rows.now }
    ensures { result.now ≡ values_of (find place_cmp (set, number) (entries_of rows.now)) }
{
    match look(rows, set, number) {
        None => &[],
        Some(rec) => rec.values.as_slice(),
    }
}

/// Whether another member of an owner has a key equal to a record's in a subset without DUPLICATES.
fn refuses_by(s: &Structure, rows: &[RecordRow], manual: &Manual, owner: u64, number: u64) -> bool
    requires { IsInOrder rows.now }
    ensures { result ≡ refused_by (shape_of s.now) (entries_of rows.now) manual.now.entries owner number }
{
    let values = values_at(rows, s.set, number);
    !s.duplicates && has_equal(s, manual, Some(number), owner, values, rows)
}

/// Whether it is so of the subset with a number.
fn refuses(
    desc: &Description,
    rows: &[RecordRow],
    manual: &Manual,
    subset: u16,
    owner: u64,
    number: u64,
) -> bool
    requires { IsInOrder rows.now }
    ensures { result ≡ clashes_for (structure_of (as_described desc.now) subset) (db_of (records_in rows.now) manual.now.entries) owner number }
{
    match desc.structure(subset) {
        None => false,
        Some(s) => refuses_by(s, rows, manual, owner, number),
    }
}

/// Whether an entry stands already, or the subset refuses it.
fn is_refused(
    desc: &Description,
    rows: &[RecordRow],
    manual: &Manual,
    subset: u16,
    owner: u64,
    number: u64,
) -> bool
    requires { IsInOrder rows.now }
    ensures { result ≡ (stands subset owner number manual.now.entries || clashes_for (structure_of (as_described desc.now) subset) (db_of (records_in rows.now) manual.now.entries) owner number) }
{
    manual.has(subset, owner, number) || refuses(desc, rows, manual, subset, owner, number)
}

/// Whether a subset has as many entries as its POPULATION.
fn is_full_subset(desc: &Description, manual: &Manual, subset: u16) -> bool
    ensures { result ≡ is_full (structure_of (as_described desc.now) subset) (length (filter (is_in_subset subset) manual.now.entries)) }
{
    let count = manual.count(subset);
    is_full(desc.structure(subset), count)
}

/// Enters a record in a manual subset for an owner, or answers why not. Answers Err where memory is refused, and all is as it was.
pub fn enter(
    desc: &Description,
    rows: &[RecordRow],
    manual: &mut Manual,
    subset: u16,
    owner: u64,
    number: u64,
) -> Result<Put, Memory>
    requires { IsInOrder rows.now }
    ensures answer { IfOk result (λ a. a ≡ enter_answer (as_described desc.now) (db_of (records_in rows.now) manual.old.entries) subset owner number) }
    ensures db { IfOk result (λ a. db_of (records_in rows.now) manual.new.entries ≡ after_enter a (db_of (records_in rows.now) manual.old.entries) subset owner) }
    ensures err { OnErr result (manual.new.entries ≡ manual.old.entries) }
    ensures mark { manual.new.mark ≡ manual.old.mark }
{
    if is_refused(desc, rows, manual, subset, owner, number) {
        return Ok(Put::Duplicate(subset));
    }
    if is_full_subset(desc, manual, subset) {
        return Ok(Put::Full);
    }
    manual.enter(subset, owner, number)?;
    Ok(Put::Stored(number))
}
