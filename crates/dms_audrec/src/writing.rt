//! Writing an entry.

ghost use Rattle.std.specs.Prelude.{◌≡◌, ◌≤◌, ◌<◌, ◌+◌, ◌*◌, ◌/◌, ◌^◌, length, Some, None};
ghost use Rattle.dms_fields.specs.Fields.{lay_bytes};
ghost use Rattle.dms_history.specs.Entries.{schema_part, image, byte_range, quiet_point, control_point, begin_restore};
ghost use Rattle.dms_audrec.specs.Reading.{counts_at, rows_at};
ghost use Rattle.dms_audrec.specs.Spelling.{spelling, IsEntry, how_number, dump_of, rows_of, begin_bytes};
ghost use Rattle.dms_audrec.specs.Seen.{entry_seen, how_seen};

use crate::{BeginHow, Entry};
use dms_fields::{put_bytes, put_u8, put_u16, put_u32, put_u64};

fn put_schema(to: &mut [u8], part: u16, parts: u16, text: &[u8])
    requires short { length text.now < 2 ^ 16 }
    requires room { 7 + length text.now ≤ length to.old }
    ensures { to.new ≡ lay_bytes 0 (spelling (schema_part part parts text.now)) to.old }
{
    put_u8(to, 0, 1);
    put_u16(to, 1, part);
    put_u16(to, 3, parts);
    put_u16(to, 5, text.len() as u16);
    put_bytes(to, 7, text);
}

fn put_new(to: &mut [u8], file: u32, block: u32, after: &[u8])
    requires room { 10 + length after.now ≤ length to.old }
    ensures { to.new ≡ lay_bytes 0 (spelling (image file block None after.now)) to.old }
{
    put_u8(to, 0, 2);
    put_u32(to, 1, file);
    put_u32(to, 5, block);
    put_u8(to, 9, 0);
    put_bytes(to, 10, after);
}

fn put_changed(to: &mut [u8], file: u32, block: u32, before: &[u8], after: &[u8])
    requires size { length before.now ≡ 1024 }
    requires room { 1034 + length after.now ≤ length to.old }
    ensures { to.new ≡ lay_bytes 0 (spelling (image file block (Some before.now) after.now)) to.old }
{
    put_u8(to, 0, 2);
    put_u32(to, 1, file);
    put_u32(to, 5, block);
    put_u8(to, 9, 1);
    put_bytes(to, 10, before);
    put_bytes(to, 1034, after);
}

fn put_range(to: &mut [u8], file: u32, block: u32, place: u16, bytes: &[u8])
    requires short { length bytes.now < 2 ^ 16 }
    requires room { 13 + length bytes.now ≤ length to.old }
    ensures { to.new ≡ lay_bytes 0 (spelling (byte_range file block place bytes.now)) to.old }
{
    put_u8(to, 0, 6);
    put_u32(to, 1, file);
    put_u32(to, 5, block);
    put_u16(to, 9, place);
    put_u16(to, 11, bytes.len() as u16);
    put_bytes(to, 13, bytes);
}

fn put_quiet(to: &mut [u8], n: u64)
    requires room { 9 ≤ length to.old }
    ensures { to.new ≡ lay_bytes 0 (spelling (quiet_point n)) to.old }
{
    put_u8(to, 0, 3);
    put_u64(to, 1, n);
}

fn put_control(to: &mut [u8], n: u64, next: u64, list: &[u8])
    requires few { length list.now / 8 < 2 ^ 16 }
    requires room { 19 + 8 * (length list.now / 8) ≤ length to.old }
    ensures { to.new ≡ lay_bytes 0 (spelling (control_point n next (counts_at (length list.now / 8) list.now))) to.old }
{
    let files = list.len() / 8;
    put_u8(to, 0, 4);
    put_u64(to, 1, n);
    put_u64(to, 9, next);
    put_u16(to, 17, files as u16);
    put_bytes(to, 19, &list[..8 * files]);
}

// The number of a kind, its dump and the bytes of its rows.
#[tactic(auto, unfolding(crate::specs::Reading::rows_at), using(crate::proofs::Callers::rows_many))]
fn parts_of<'a>(how: &BeginHow<'a>) -> (u8, u16, &'a [u8])
    ensures number { result.0 ≡ how_number (how_seen how.now) }
    ensures dump { result.1 ≡ dump_of (how_seen how.now) }
    ensures rows { rows_of (how_seen how.now) ≡ rows_at (length result.2.now / 8) result.2.now }
    ensures count { length (rows_of (how_seen how.now)) ≡ length result.2.now / 8 }
{
    match how {
        BeginHow::HaltLoad => (1, 0, &[]),
        BeginHow::BackOut => (2, 0, &[]),
        BeginHow::Rollback => (3, 0, &[]),
        BeginHow::Rebuild(dump) => (4, *dump, &[]),
        BeginHow::Reconstruct(dump, list) => (5, *dump, list),
    }
}

fn put_rows(to: &mut [u8], n: u64, how: u8, dump: u16, list: &[u8])
    requires few { length list.now / 8 < 2 ^ 16 }
    requires room { 14 + 8 * (length list.now / 8) ≤ length to.old }
    ensures { to.new ≡ lay_bytes 0 (begin_bytes n how dump (rows_at (length list.now / 8) list.now)) to.old }
{
    let rows = list.len() / 8;
    put_u8(to, 0, 5);
    put_u64(to, 1, n);
    put_u8(to, 9, how);
    put_u16(to, 10, dump);
    put_u16(to, 12, rows as u16);
    put_bytes(to, 14, &list[..8 * rows]);
}

fn put_begin(to: &mut [u8], n: u64, how: &BeginHow<'_>)
    requires few { length (rows_of (how_seen how.now)) < 2 ^ 16 }
    requires room { 14 + 8 * length (rows_of (how_seen how.now)) ≤ length to.old }
    ensures { to.new ≡ lay_bytes 0 (spelling (begin_restore n (how_seen how.now))) to.old }
{
    let (number, dump, list) = parts_of(how);
    put_rows(to, n, number, dump, list);
}

/// How many bytes an entry takes. It has to be one of the format.
pub fn length(entry: &Entry<'_>) -> usize
    requires { IsEntry (entry_seen entry.now) }
    ensures { result ≡ length (spelling (entry_seen entry.now)) }
{
    match entry {
        Entry::Schema(_, _, text) => 7 + text.len(),
        Entry::Image(_, _, None, _) => 1034,
        Entry::Image(_, _, Some(_), _) => 2058,
        Entry::Range(_, _, _, bytes) => 13 + bytes.len(),
        Entry::Quiet(_) => 9,
        Entry::Control(_, _, list) => 19 + 8 * (list.len() / 8),
        Entry::Begin(_, how) => {
            let (_number, _dump, rows) = parts_of(how);
            14 + 8 * (rows.len() / 8)
        }
    }
}

/// Writes an entry from the first byte on, and answers how many bytes it took. It has to be one of the format, and fit.
pub fn encode(entry: &Entry<'_>, to: &mut [u8]) -> usize
    requires entry { IsEntry (entry_seen entry.now) }
    requires room { length (spelling (entry_seen entry.now)) ≤ length to.old }
    ensures written { to.new ≡ lay_bytes 0 (spelling (entry_seen entry.now)) to.old }
    ensures taken { result ≡ length (spelling (entry_seen entry.now)) }
{
    match entry {
        Entry::Schema(part, parts, text) => put_schema(to, *part, *parts, text),
        Entry::Image(file, block, None, after) => put_new(to, *file, *block, after),
        Entry::Image(file, block, Some(before), after) => put_changed(
            to, *file, *block, before, after,
        ),
        Entry::Range(file, block, place, bytes) => put_range(to, *file, *block, *place, bytes),
        Entry::Quiet(n) => put_quiet(to, *n),
        Entry::Control(n, next, list) => put_control(to, *n, *next, list),
        Entry::Begin(n, how) => put_begin(to, *n, how),
    }
    length(entry)
}
