//! The blocks of some rows, and from which place on the changes of a block name it.

ghost use Rattle.std.specs.Prelude.{◌≡◌};
ghost use Rattle.dms_history.specs.Entries.{is_in_row, named_by};
ghost use Rattle.dms_restore.specs.Chosen.{is_of_rows, place_from, is_naming};

use crate::LiveEntry;
use dms_history::Row;

/// Whether a block of a file is in a row.
fn is_in_row(row: &Row, file: u32, block: u32) -> bool
    ensures { result ≡ is_in_row file block row.now }
{
    let first = u64::from(row.row) * 16;
    row.file == file && first <= u64::from(block) && u64::from(block) < first + 16
}

/// Whether a block of a file is in one of some rows.
fn is_named(rows: &[Row], file: u32, block: u32) -> bool
    ensures { result ≡ named_by rows.now file block }
{
    for row in rows {
        if is_in_row(row, file, block) {
            return true;
        }
    }
    false
}

/// Whether a live entry is an Image or a Range of a block of the rows.
pub(crate) fn is_of_rows(rows: &[Row], entry: &LiveEntry) -> bool
    ensures { result ≡ is_of_rows rows.now entry.now }
{
    match entry {
        LiveEntry::Changed(image) => is_named(rows, image.file, image.block),
        LiveEntry::Ranged(range) => is_named(rows, range.file, range.block),
        LiveEntry::Quiet(_) => false,
        LiveEntry::Controlled(_) => false,
    }
}

/// The place from which on changes of a block name it.
fn place_from(rows: &[Row], of_rows: usize, of_others: usize, file: u32, block: u32) -> usize
    ensures { result ≡ place_from rows.now of_rows of_others file block }
{
    if is_named(rows, file, block) {
        of_rows
    } else {
        of_others
    }
}

/// Whether a live entry, before which so many stand, names the block that it changes.
pub(crate) fn is_naming(
    rows: &[Row],
    of_rows: usize,
    of_others: usize,
    before: usize,
    entry: &LiveEntry,
) -> bool
    ensures { result ≡ is_naming rows.now of_rows of_others before entry.now }
{
    match entry {
        LiveEntry::Changed(image) => {
            place_from(rows, of_rows, of_others, image.file, image.block) <= before
        }
        LiveEntry::Ranged(range) => {
            place_from(rows, of_rows, of_others, range.file, range.block) <= before
        }
        LiveEntry::Quiet(_) => false,
        LiveEntry::Controlled(_) => false,
    }
}
