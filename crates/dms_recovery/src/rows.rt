//! The rows that a statement names.

ghost use Rattle.std.specs.Prelude.{◌≡◌, ◌+◌, ◌*◌, ◌^◌, ◌≤◌, ◌||◌, ℕ, map, length, Some, None, IfOk, IfErr, OnOk, true};
ghost use Rattle.dms_desc.specs.Shape.{shape_of};
ghost use Rattle.dms_history.specs.Entries.{is_in_row, named_by};
ghost use Rattle.dms_audrec.specs.Spelling.{ArePairsSmall, pair_bytes, row_file, row_number, rows_rise};
ghost use Rattle.dms_restore.specs.Counts.{count_of};
ghost use Rattle.dms_recovery.specs.Rows.{first_missing, named_blocks, row_there, AreRowsOf};

use dms_base::{Bytes, Memory};
use dms_desc::{Structure, structure_named};
use dms_history::Row;
use dms_statements::NamedRow;
use std::alloc::Global;

/// How many blocks the file of a structure has, by counts of the files from 30,001 on.
fn blocks_of(counts: &[u32], number: u16) -> u32
    ensures { result ≡ count_of counts.now (30000 + number) }
{
    if number == 0 {
        return 0;
    }
    match counts.get(number as usize - 1) {
        Some(blocks) => *blocks,
        None => 0,
    }
}

/// The row of a structure file that a row of a structure is; None where no structure has that name, or it has fewer rows. `counts` are those of the
/// structure files from 30,001 on.
fn row_there(structures: &[Structure], counts: &[u32], row: &NamedRow) -> Option<Row>
    ensures { result ≡ row_there (map shape_of structures.now) counts.now row.now }
{
    let structure = structure_named(structures, &row.name)?;
    let blocks = u64::from(blocks_of(counts, structure.number));
    if u64::from(row.row) < (blocks + 15) / 16 {
        Some(Row {
            file: 30_000 + u32::from(structure.number),
            row: row.row,
        })
    } else {
        None
    }
}

/// Rows rise by this number: that of the file, and then that of the row.
fn key_of(row: &Row) -> u64
    ensures { result ≡ row.now.file * 2 ^ 32 + row.now.row }
{
    u64::from(row.file) * 4_294_967_296 + u64::from(row.row)
}

/// Puts a row of a structure file among rows that rise, unless it is among them. After want of memory they are unchanged.
fn put_row(rows: &mut Vec<Row>, row: Row) -> Result<(), Memory>
    requires low { 30001 ≤ row.file }
    requires high { row.file ≤ 30200 }
    requires rising { rows_rise 0 rows.old.items ≡ true }
    requires small { ArePairsSmall row_file row_number rows.old.items }
    ensures rising { OnOk result (rows_rise 0 rows.new.items ≡ true) }
    ensures small { OnOk result (ArePairsSmall row_file row_number rows.new.items) }
    ensures named { OnOk result ((f b : ℕ) → named_by rows.new.items f b ≡ (is_in_row f b row || named_by rows.old.items f b)) }
    ensures more { OnOk result (length rows.new.items ≤ length rows.old.items + 1) }
{
    let key = key_of(&row);
    for place in 0..rows.len() {
        let other = key_of(&rows[place]);
        if key == other {
            return Ok(());
        }
        if key < other {
            rows.insert(place, row)?;
            return Ok(());
        }
    }
    rows.push(row)?;
    Ok(())
}

/// Why rows that are named can't be reconstructed.
#[derive(Clone, Copy)]
pub(crate) enum RowFault {
    /// This is the first one that isn't there.
    Missing(NamedRow),
    Memory,
}

/// The rows of structure files that these rows are, rising, none twice. `counts` are those of the structure files from 30,001 on. Answers the first one that
/// isn't there, and Memory.
pub(crate) fn find_rows(
    alloc: Global,
    structures: &[Structure],
    counts: &[u32],
    named: &[NamedRow],
) -> Result<Vec<Row>, RowFault>
    requires few { length counts.now ≤ 200 }
    requires hundred { length named.now ≤ 100 }
    ensures rows { IfOk result (λ rows. AreRowsOf (map shape_of structures.now) named.now rows.items) }
    ensures there { IfOk result (λ rows. first_missing (map shape_of structures.now) counts.now named.now ≡ None) }
    ensures missing { IfErr result (λ e. (r : NamedRow) → e ≡ RowFault.Missing r → first_missing (map shape_of structures.now) counts.now named.now ≡ Some r) }
{
    let mut rows = Vec::new(alloc);
    for row in named {
        match row_there(structures, counts, row) {
            Some(found) => match put_row(&mut rows, found) {
                Ok(()) => {}
                Err(_) => return Err(RowFault::Memory),
            },
            None => return Err(RowFault::Missing(*row)),
        }
    }
    Ok(rows)
}

/// The bytes of rows, as the audit has them.
pub(crate) fn row_bytes(alloc: Global, rows: &[Row]) -> Result<Bytes, Memory>
    ensures { IfOk result (λ list. list ≡ pair_bytes row_file row_number rows.now) }
{
    let mut list = Bytes::new(alloc);
    for row in rows {
        list.extend(&row.file.to_be_bytes())?;
        list.extend(&row.row.to_be_bytes())?;
    }
    Ok(list)
}
