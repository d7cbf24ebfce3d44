ghost use Rattle.std.specs.Prelude.{◌≡◌, List, [], IfOk, OnOk, OnErr};
ghost use Rattle.std.specs.Option.{option_copied, option_map};
ghost use Rattle.std.specs.FinMap.{insert, get};
ghost use Rattle.dms_desc.specs.Shape.{shape_of, as_described};
ghost use Rattle.dms_desc.specs.Lookups.{structure_of, items_of};
ghost use Rattle.dms_model.specs.Db.{SubsetEntry};
ghost use Rattle.dms_model.specs.Members.{first_member, last_member};
ghost use Rattle.dms_model.specs.Stores.{is_full, kept_owner, with_links_of, old_of, put_after, put_answer, values_of};
ghost use Rattle.dms_plain.specs.Rows.{entries_of, records_in, db_of, IsInOrder, restore, undo_all};
ghost use Rattle.dms_plain.specs.Clashes.{put_in};
ghost use Rattle.dms_plain.specs.Listed.{AreLists};
ghost use Rattle.dms_plain.specs.Scans.{spot_at, soonest, latest};

use crate::clash::clash;
use crate::manual::Manual;
use crate::members::Members;
use crate::rows::{self, RecordRow, Undo};
use crate::{lists, scan};
use dms_base::{Memory, Value};
use dms_desc::{Bound, Description, Record, Structure};
use dms_model::{Put, Spot, key_of, with_links_of};
use std::alloc::Global;

/// The record at a place of the database.
pub fn get(
    alloc: Global,
    rows: &[RecordRow],
    set: u16,
    number: u64,
) -> Result<Option<Record>, Memory>
    requires { IsInOrder rows.now }
    ensures { IfOk result (λ r. r ≡ get (records_in rows.now) (set, number)) }
{
    rows::get(alloc, rows, set, number)
}

/// Whether so many records or entries are as many as POPULATION.
pub fn is_full(s: Option<&Structure>, count: usize) -> bool
    ensures { result ≡ is_full (option_map shape_of (option_copied s.entry)) count }
{
    match s {
        None => true,
        Some(s) => s.population as usize <= count,
    }
}

/// What is answered where this record would be stored.
fn put_in(
    desc: &Description,
    rows: &[RecordRow],
    lists: &[Members],
    manual: &Manual,
    set: u16,
    number: Option<u64>,
    made: &Record,
) -> Put
    requires in_order { IsInOrder rows.now }
    requires listed { AreLists (as_described desc.now).structures lists.now (records_in rows.now) }
    ensures { result ≡ put_in (as_described desc.now) manual.now.entries (entries_of rows.now) set number made.now }
{
    if let Some(s) = clash(
        desc.structures.as_slice(),
        manual,
        lists,
        rows,
        set,
        number,
        made,
    ) {
        return Put::Duplicate(s);
    }
    match number {
        Some(n) => Put::Stored(n),
        None => {
            if is_full(desc.structure(set), rows::count(rows, set)) {
                return Put::Full;
            }
            Put::Stored(rows::fresh(rows, set))
        }
    }
}

fn values_of(old: &Option<Record>) -> &[Value]
    ensures { result.now ≡ values_of old.now }
{
    match old {
        None => &[],
        Some(rec) => rec.values.as_slice(),
    }
}

/// The owner that is stored: that of the record which is replaced, and else the new one's.
fn kept_owner(old: &Option<Record>, owner: u64) -> u64
    ensures { result ≡ kept_owner old.now owner }
{
    match old {
        None => owner,
        Some(rec) => rec.owner,
    }
}

/// What is stored for a record.
fn linked_record(
    alloc: Global,
    desc: &Description,
    set: u16,
    old: &Option<Record>,
    rec: &Record,
) -> Result<Record, Memory>
    ensures { IfOk result (λ r. r ≡ with_links_of (items_of (structure_of (as_described desc.now) set)) old.now rec.now) }
{
    let items = desc.items_of(set);
    Ok(Record {
        owner: kept_owner(old, rec.owner),
        values: with_links_of(alloc, items, values_of(old), rec.values.as_slice())?,
    })
}

/// Stores a row, and keeps what stood there.
pub fn store_row(
    alloc: Global,
    desc: &Description,
    rows: &mut Vec<RecordRow>,
    lists: &mut Vec<Members>,
    undo: &mut Vec<Undo>,
    row: RecordRow,
    old: Option<Record>,
) -> Result<(), Memory>
    requires in_order { IsInOrder rows.old.items }
    requires listed { AreLists (as_described desc.now).structures lists.old.items (records_in rows.old.items) }
    requires old { old ≡ get (records_in rows.old.items) (row.set, row.number) }
    ensures in_order { IsInOrder rows.new.items }
    ensures listed { AreLists (as_described desc.now).structures lists.new.items (records_in rows.new.items) }
    ensures db { OnOk result (records_in rows.new.items ≡ insert (records_in rows.old.items) (row.set, row.number) row.rec) }
    ensures mark { OnOk result (undo_all undo.new.items (records_in rows.new.items) ≡ undo_all undo.old.items (records_in rows.old.items)) }
    ensures err_rows { OnErr result (rows.new.items ≡ rows.old.items) }
    ensures err_undo { OnErr result (undo.new.items ≡ undo.old.items) }
{
    undo.push(Undo {
        set: row.set,
        number: row.number,
        old,
    })?;
    lists::follow(
        alloc,
        desc.structures.as_slice(),
        lists,
        rows.as_slice(),
        row.set,
        row.number,
        Some(&row.rec),
    );
    match rows::place_row(rows, row) {
        Ok(()) => Ok(()),
        Err(e) => {
            let _undo = undo.pop();
            lists.clear();
            Err(e)
        }
    }
}

/// The record that stands under the number that is named.
fn old_of(
    alloc: Global,
    rows: &[RecordRow],
    set: u16,
    number: Option<u64>,
) -> Result<Option<Record>, Memory>
    requires { IsInOrder rows.now }
    ensures { (manual : List SubsetEntry) → IfOk result (λ r. r ≡ old_of (db_of (records_in rows.now) manual) set number) }
{
    match number {
        None => Ok(None),
        Some(number) => get(alloc, rows, set, number),
    }
}

/// Puts a record, under the number that is named or as a new one.
pub fn put(
    alloc: Global,
    desc: &Description,
    rows: &mut Vec<RecordRow>,
    lists: &mut Vec<Members>,
    undo: &mut Vec<Undo>,
    manual: &Manual,
    set: u16,
    number: Option<u64>,
    rec: &Record,
) -> Result<Put, Memory>
    requires in_order { IsInOrder rows.old.items }
    requires listed { AreLists (as_described desc.now).structures lists.old.items (records_in rows.old.items) }
    ensures in_order { IsInOrder rows.new.items }
    ensures listed { AreLists (as_described desc.now).structures lists.new.items (records_in rows.new.items) }
    ensures answer { IfOk result (λ a. a ≡ put_answer (as_described desc.now) (db_of (records_in rows.old.items) manual.now.entries) set number rec.now) }
    ensures db { IfOk result (λ a. db_of (records_in rows.new.items) manual.now.entries ≡ put_after a (as_described desc.now) (db_of (records_in rows.old.items) manual.now.entries) set rec.now) }
    ensures mark { OnOk result (undo_all undo.new.items (records_in rows.new.items) ≡ undo_all undo.old.items (records_in rows.old.items)) }
    ensures err_rows { OnErr result (rows.new.items ≡ rows.old.items) }
    ensures err_undo { OnErr result (undo.new.items ≡ undo.old.items) }
{
    lists::make(alloc, desc.structures.as_slice(), lists, rows.as_slice());
    let old = old_of(alloc, rows.as_slice(), set, number)?;
    let made = linked_record(alloc, desc, set, &old, rec)?;
    match put_in(
        desc,
        rows.as_slice(),
        lists.as_slice(),
        manual,
        set,
        number,
        &made,
    ) {
        Put::Stored(found) => {
            let row = RecordRow {
                set,
                number: found,
                rec: made,
            };
            store_row(alloc, desc, rows, lists, undo, row, old)?;
            Ok(Put::Stored(found))
        }
        Put::Duplicate(other) => Ok(Put::Duplicate(other)),
        Put::Full => Ok(Put::Full),
    }
}

/// Takes one change back.
fn restore_row(
    alloc: Global,
    desc: &Description,
    rows: &mut Vec<RecordRow>,
    lists: &mut Vec<Members>,
    undo: Undo,
) -> Result<(), Memory>
    requires in_order { IsInOrder rows.old.items }
    requires listed { AreLists (as_described desc.now).structures lists.old.items (records_in rows.old.items) }
    ensures in_order { IsInOrder rows.new.items }
    ensures listed { OnOk result (AreLists (as_described desc.now).structures lists.new.items (records_in rows.new.items)) }
    ensures db { OnOk result (records_in rows.new.items ≡ restore (undo.set, undo.number) undo.old (records_in rows.old.items)) }
{
    let Undo { set, number, old } = undo;
    match old {
        None => {
            let structures = desc.structures.as_slice();
            lists::follow(alloc, structures, lists, rows.as_slice(), set, number, None);
            rows::remove_row(rows, set, number);
            Ok(())
        }
        Some(rec) => {
            let structures = desc.structures.as_slice();
            lists::follow(
                alloc,
                structures,
                lists,
                rows.as_slice(),
                set,
                number,
                Some(&rec),
            );
            rows::place_row(rows, RecordRow { set, number, rec })?;
            Ok(())
        }
    }
}

/// Takes all changes of rows back, the newest first. Answers Err where memory is refused.
fn take_rows_back(
    alloc: Global,
    desc: &Description,
    rows: &mut Vec<RecordRow>,
    lists: &mut Vec<Members>,
    undo: &mut Vec<Undo>,
) -> Result<(), Memory>
    requires in_order { IsInOrder rows.old.items }
    requires listed { AreLists (as_described desc.now).structures lists.old.items (records_in rows.old.items) }
    ensures in_order { IsInOrder rows.new.items }
    ensures listed { OnOk result (AreLists (as_described desc.now).structures lists.new.items (records_in rows.new.items)) }
    ensures db { OnOk result (records_in rows.new.items ≡ undo_all undo.old.items (records_in rows.old.items)) }
    ensures undo { OnOk result (undo.new.items ≡ []) }
{
    for _turn in 0..undo.len() {
        match undo.pop() {
            None => return Ok(()),
            Some(u) => restore_row(alloc, desc, rows, lists, u)?,
        }
    }
    Ok(())
}

/// Takes all changes of rows and of entries back. Answers Err where memory is refused.
pub fn take_back(
    alloc: Global,
    desc: &Description,
    rows: &mut Vec<RecordRow>,
    lists: &mut Vec<Members>,
    undo: &mut Vec<Undo>,
    manual: &mut Manual,
) -> Result<(), Memory>
    requires in_order { IsInOrder rows.old.items }
    requires listed { AreLists (as_described desc.now).structures lists.old.items (records_in rows.old.items) }
    ensures in_order { IsInOrder rows.new.items }
    ensures listed { OnOk result (AreLists (as_described desc.now).structures lists.new.items (records_in rows.new.items)) }
    ensures db { OnOk result (records_in rows.new.items ≡ undo_all undo.old.items (records_in rows.old.items)) }
    ensures undo { OnOk result (undo.new.items ≡ []) }
    ensures entries { OnOk result (manual.new.entries ≡ manual.old.mark) }
    ensures mark { OnOk result (manual.new.mark ≡ manual.old.mark) }
{
    manual.take_back()?;
    take_rows_back(alloc, desc, rows, lists, undo)
}

/// The spot of a row that was found.
fn spot_of(alloc: Global, s: &Structure, best: Option<&RecordRow>) -> Result<Option<Spot>, Memory>
    ensures { IfOk result (λ r. r ≡ spot_at (shape_of s.now) (option_copied best.entry)) }
{
    match best {
        None => Ok(None),
        Some(row) => Ok(Some(Spot {
            number: row.number,
            key: key_of(alloc, s.parts.as_slice(), row.rec.values.as_slice())?,
            rec: row.rec.copy(alloc)?,
        })),
    }
}

fn soonest(
    alloc: Global,
    s: &Structure,
    rows: &[RecordRow],
    manual: &Manual,
    owner: u64,
    from: &Bound,
) -> Result<Option<Spot>, Memory>
    ensures { IfOk result (λ r. r ≡ soonest (shape_of s.now) manual.now.entries owner from.now (entries_of rows.now)) }
{
    spot_of(alloc, s, scan::first(rows, s, manual, owner, from))
}

fn latest(
    alloc: Global,
    s: &Structure,
    rows: &[RecordRow],
    manual: &Manual,
    owner: u64,
    upto: &Bound,
) -> Result<Option<Spot>, Memory>
    ensures { IfOk result (λ r. r ≡ latest (shape_of s.now) manual.now.entries owner upto.now (entries_of rows.now)) }
{
    spot_of(alloc, s, scan::last(rows, s, manual, owner, upto))
}

/// The first member of a path after a bound.
pub fn first_member(
    alloc: Global,
    desc: &Description,
    rows: &[RecordRow],
    manual: &Manual,
    path: u16,
    owner: u64,
    from: &Bound,
) -> Result<Option<Spot>, Memory>
    requires { IsInOrder rows.now }
    ensures { IfOk result (λ r. r ≡ first_member (as_described desc.now) (db_of (records_in rows.now) manual.now.entries) path owner from.now) }
{
    match desc.structure(path) {
        None => Ok(None),
        Some(s) => soonest(alloc, s, rows, manual, owner, from),
    }
}

/// The last member of a path before a bound.
pub fn last_member(
    alloc: Global,
    desc: &Description,
    rows: &[RecordRow],
    manual: &Manual,
    path: u16,
    owner: u64,
    upto: &Bound,
) -> Result<Option<Spot>, Memory>
    requires { IsInOrder rows.now }
    ensures { IfOk result (λ r. r ≡ last_member (as_described desc.now) (db_of (records_in rows.now) manual.now.entries) path owner upto.now) }
{
    match desc.structure(path) {
        None => Ok(None),
        Some(s) => latest(alloc, s, rows, manual, owner, upto),
    }
}
