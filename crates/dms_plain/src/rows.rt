ghost use Rattle.std.specs.Prelude.{◌≡◌, length, map, IfOk, OnErr, OnOk, not};
ghost use Rattle.std.specs.Option.{option_copied};
ghost use Rattle.std.specs.FinMap.{put, find};
ghost use Rattle.std.specs.List.{filter};
ghost use Rattle.std.specs.Ordering.{eq_by_cmp};
ghost use Rattle.dms_model.specs.Db.{place_cmp, rows_of, gap_from};
ghost use Rattle.dms_plain.specs.Rows.{AreNumbersRising, IsInOrder, IsWhere, entries_of, numbered};
ghost use Rattle.dms_plain.specs.declared.rows.RecordRow.{RecordRow};

use dms_base::Memory;
use dms_desc::Record;
use std::alloc::Global;
use std::cmp::Ordering;

/// A record in its place.
#[derive(Drop)]
pub struct RecordRow {
    pub set: u16,
    pub number: u64,
    pub rec: Record,
}

/// What stood at a place before a change, if anything.
#[derive(Drop)]
pub struct Undo {
    pub set: u16,
    pub number: u64,
    pub old: Option<Record>,
}

/// The rows of a data set.
fn of_set(rows: &[RecordRow], set: u16) -> &[RecordRow]
    requires { IsInOrder rows.now }
    ensures rising { AreNumbersRising result.now }
    ensures numbered { map numbered result.now ≡ rows_of set (entries_of rows.now) }
{
    let from = rows.partition_point(|row| row.set < set);
    let end = rows.partition_point(|row| row.set <= set);
    &rows[from..end]
}

/// How many records a data set has.
pub fn count(rows: &[RecordRow], set: u16) -> usize
    requires { IsInOrder rows.now }
    ensures { result ≡ length (rows_of set (entries_of rows.now)) }
{
    of_set(rows, set).len()
}

/// The least number from 1 that none of these rows has, whose numbers rise from 1 or more. It is found by halving: the rows
/// before it have the numbers 1, 2, 3 and on.
fn gap(rows: &[RecordRow]) -> u64
    requires rising { AreNumbersRising rows.now }
    ensures { result ≡ gap_from 1 (map numbered rows.now) }
{
    let from = rows.partition_point(|row| row.number == 0);
    let mut low = from;
    let mut high = rows.len();
    while low < high {
        let middle = low + (high - low) / 2;
        if rows[middle].number <= (middle - from) as u64 + 1 {
            low = middle + 1;
        } else {
            high = middle;
        }
    }
    (low - from) as u64 + 1
}

/// The least number from 1 that no record of the data set has.
pub fn fresh(rows: &[RecordRow], set: u16) -> u64
    requires { IsInOrder rows.now }
    ensures { result ≡ gap_from 1 (rows_of set (entries_of rows.now)) }
{
    gap(of_set(rows, set))
}

/// A place and that of a row.
fn place_order(set: u16, number: u64, row: &RecordRow) -> Ordering
    ensures { result ≡ place_cmp (set, number) (row.now.set, row.now.number) }
{
    set.cmp(&row.set).then(number.cmp(&row.number))
}

/// Where a place is among rows in order, or Err with where it would be.
fn where_is(rows: &[RecordRow], set: u16, number: u64) -> Result<usize, usize>
    requires { IsInOrder rows.now }
    ensures { IsWhere (set, number) (entries_of rows.now) result }
{
    rows.binary_search_by(
        |row| -> Ordering
            ensures { result ≡ place_cmp (row.now.set, row.now.number) (set, number) }
        { row.set.cmp(&set).then(row.number.cmp(&number)) },
    )
}

/// The record at a place.
pub fn look(rows: &[RecordRow], set: u16, number: u64) -> Option<&Record>
    requires { IsInOrder rows.now }
    ensures { option_copied result ≡ find place_cmp (set, number) (entries_of rows.now) }
{
    match where_is(rows, set, number) {
        Ok(i) => Some(&rows[i].rec),
        Err(_) => None,
    }
}

/// A copy of the record at a place.
pub fn get(
    alloc: Global,
    rows: &[RecordRow],
    set: u16,
    number: u64,
) -> Result<Option<Record>, Memory>
    requires { IsInOrder rows.now }
    ensures { IfOk result (λ r. r ≡ find place_cmp (set, number) (entries_of rows.now)) }
{
    match look(rows, set, number) {
        None => Ok(None),
        Some(rec) => Ok(Some(rec.copy(alloc)?)),
    }
}

/// Puts a row in its place, over the one that is there. Answers Err where memory is refused.
pub fn place_row(rows: &mut Vec<RecordRow>, row: RecordRow) -> Result<(), Memory>
    requires { IsInOrder rows.old.items }
    ensures ok { OnOk result (entries_of rows.new.items ≡ put place_cmp (row.set, row.number) row.rec (entries_of rows.old.items)) }
    ensures err { OnErr result (rows.new.items ≡ rows.old.items) }
{
    match where_is(rows.as_slice(), row.set, row.number) {
        Ok(i) => {
            rows[i].rec = row.rec;
            Ok(())
        }
        Err(i) => {
            rows.insert(i, row)?;
            Ok(())
        }
    }
}

/// Takes away the row of a place, if there is one.
pub fn remove_row(rows: &mut Vec<RecordRow>, set: u16, number: u64)
    ensures { entries_of rows.new.items ≡ filter (λ e. not (eq_by_cmp place_cmp (set, number) e.0)) (entries_of rows.old.items) }
{
    rows.retain(
        |row| -> bool
            ensures { result ≡ not (eq_by_cmp place_cmp (set, number) (row.now.set, row.now.number)) }
        { !place_order(set, number, row).is_eq() },
    );
}
