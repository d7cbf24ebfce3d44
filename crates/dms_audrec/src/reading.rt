//! Reading an entry from the first byte on.

ghost use Rattle.std.specs.Prelude.{◌≡◌, ◌&&◌, nat_le, ◌≤◌, ◌/◌, ◌++◌, ℕ, List, length, take, drop, Option, Some, None, option_map, IfSome};
ghost use Rattle.dms_history.specs.Entries as meaning;
ghost use Rattle.dms_audrec.specs.Spelling.{spelling, IsEntry};
ghost use Rattle.dms_audrec.specs.Seen.{how_seen, entry_seen, IsRead};
ghost use Rattle.dms_audrec.specs.Reading.{before_at, schema_at, image_at, quiet_at, control_at, begin_at, range_at, range_fits, entry_at, kind_of, kind_fits, rows_at};

use crate::pairs::{counts_rise, rows_rise};
use crate::{BeginHow, Entry};
use dms_fields::{slice_at, u8_at, u16_at, u32_at, u64_at};

#[tactic(auto, unfolding(crate::specs::Reading::schema_at))]
fn schema_of(bytes: &[u8]) -> Option<(Entry<'_>, &[u8])>
    ensures { option_map (λ x. (entry_seen x.0, x.1.now)) result ≡ schema_at bytes.now }
{
    let (part, rest) = u16_at(bytes)?;
    let (parts, rest) = u16_at(rest)?;
    let (len, rest) = u16_at(rest)?;
    let (text, rest) = slice_at(rest, len as usize)?;
    if 1 <= part && part <= parts && (parts == part || len == 4000) {
        Some((Entry::Schema(part, parts, text), rest))
    } else {
        None
    }
}

#[tactic(auto, unfolding(crate::specs::Reading::before_at))]
fn before_of(bytes: &[u8]) -> Option<(Option<&[u8]>, &[u8])>
    ensures { option_map (λ x. (option_map (λ b. b.now) x.0, x.1.now)) result ≡ before_at bytes.now }
{
    match bytes {
        [0, rest @ ..] => Some((None, rest)),
        [1, rest @ ..] => {
            let (before, rest) = slice_at(rest, 1024)?;
            Some((Some(before), rest))
        }
        _ => None,
    }
}

#[tactic(auto, unfolding(crate::specs::Reading::image_at))]
fn image_of(bytes: &[u8]) -> Option<(Entry<'_>, &[u8])>
    ensures { option_map (λ x. (entry_seen x.0, x.1.now)) result ≡ image_at bytes.now }
{
    let (file, rest) = u32_at(bytes)?;
    let (block, rest) = u32_at(rest)?;
    let (before, rest) = before_of(rest)?;
    let (after, rest) = slice_at(rest, 1024)?;
    if 30001 <= file && file <= 30200 && block < 2097152 {
        Some((Entry::Image(file, block, before, after), rest))
    } else {
        None
    }
}

#[tactic(auto, unfolding(crate::specs::Reading::quiet_at))]
fn quiet_of(bytes: &[u8]) -> Option<(Entry<'_>, &[u8])>
    ensures { option_map (λ x. (entry_seen x.0, x.1.now)) result ≡ quiet_at bytes.now }
{
    let (n, rest) = u64_at(bytes)?;
    Some((Entry::Quiet(n), rest))
}

#[tactic(auto, unfolding(crate::specs::Reading::control_at))]
fn control_of(bytes: &[u8]) -> Option<(Entry<'_>, &[u8])>
    ensures { option_map (λ x. (entry_seen x.0, x.1.now)) result ≡ control_at bytes.now }
{
    let (n, rest) = u64_at(bytes)?;
    let (next, rest) = u64_at(rest)?;
    let (files, rest) = u16_at(rest)?;
    let (list, rest) = slice_at(rest, 8 * files as usize)?;
    if counts_rise(list) {
        Some((Entry::Control(n, next, list), rest))
    } else {
        None
    }
}

// Whether a Range may be of this block, at this place and so long.
fn range_fits(file: u32, block: u32, place: u16, len: u16) -> bool
    ensures { result ≡ range_fits file block place len }
{
    30001 <= file
        && file <= 30200
        && block < 2097152
        && 1 <= len
        && u32::from(place) + u32::from(len) <= 1024
}

// Whether this is the number of a dump.
fn is_dump(dump: u16) -> bool
    ensures { result ≡ (nat_le 1 dump && nat_le dump 9999) }
{
    1 <= dump && dump <= 9999
}

// Whether a Begin may have this number of a kind, this dump and these rows.
#[tactic(auto, using(crate::proofs::Callers::rows_many))]
fn kind_fits(how: u8, dump: u16, list: &[u8]) -> bool
    ensures { result ≡ kind_fits how dump (rows_at (length list.now / 8) list.now) }
{
    if how == 5 {
        return is_dump(dump) && rows_rise(list);
    }
    if list.len() / 8 != 0 {
        return false;
    }
    if how == 4 {
        return is_dump(dump);
    }
    1 <= how && how <= 3 && dump == 0
}

// How a restore goes, by the number of its kind.
fn how_of(how: u8, dump: u16, list: &[u8]) -> BeginHow<'_>
    ensures { how_seen result ≡ kind_of how dump (rows_at (length list.now / 8) list.now) }
{
    match how {
        1 => BeginHow::HaltLoad,
        2 => BeginHow::BackOut,
        3 => BeginHow::Rollback,
        4 => BeginHow::Rebuild(dump),
        _ => BeginHow::Reconstruct(dump, list),
    }
}

#[tactic(auto, unfolding(crate::specs::Reading::begin_at))]
fn begin_of(bytes: &[u8]) -> Option<(Entry<'_>, &[u8])>
    ensures { option_map (λ x. (entry_seen x.0, x.1.now)) result ≡ begin_at bytes.now }
{
    let (n, rest) = u64_at(bytes)?;
    let (how, rest) = u8_at(rest)?;
    let (dump, rest) = u16_at(rest)?;
    let (rows, rest) = u16_at(rest)?;
    let (list, rest) = slice_at(rest, 8 * rows as usize)?;
    if kind_fits(how, dump, list) {
        Some((Entry::Begin(n, how_of(how, dump, list)), rest))
    } else {
        None
    }
}

#[tactic(auto, unfolding(crate::specs::Reading::range_at))]
fn range_of(bytes: &[u8]) -> Option<(Entry<'_>, &[u8])>
    ensures { option_map (λ x. (entry_seen x.0, x.1.now)) result ≡ range_at bytes.now }
{
    let (file, rest) = u32_at(bytes)?;
    let (block, rest) = u32_at(rest)?;
    let (place, rest) = u16_at(rest)?;
    let (len, rest) = u16_at(rest)?;
    let (text, rest) = slice_at(rest, len as usize)?;
    if range_fits(file, block, place, len) {
        Some((Entry::Range(file, block, place, text), rest))
    } else {
        None
    }
}

#[tactic(auto, unfolding(crate::specs::Reading::entry_at))]
fn entry_of(bytes: &[u8]) -> Option<(Entry<'_>, &[u8])>
    ensures { option_map (λ x. (entry_seen x.0, x.1.now)) result ≡ entry_at bytes.now }
{
    match bytes {
        [1, rest @ ..] => schema_of(rest),
        [2, rest @ ..] => image_of(rest),
        [3, rest @ ..] => quiet_of(rest),
        [4, rest @ ..] => control_of(rest),
        [5, rest @ ..] => begin_of(rest),
        [6, rest @ ..] => range_of(rest),
        _ => None,
    }
}

/// The entry that the bytes begin with, and how many bytes it takes; None exactly where no entry begins them.
pub fn decode(bytes: &[u8]) -> Option<(Entry<'_>, usize)>
    // What is read is spelled so.
    ensures found { IfSome result (λ x. IsEntry (entry_seen x.0)
        × (take x.1 bytes.now ≡ spelling (entry_seen x.0)) × (x.1 ≤ length bytes.now)) }
    // What is spelled so is read, whatever follows.
    ensures only { (e : meaning.Entry) (rest : List ℕ) → IsEntry e → bytes.now ≡ spelling e ++ rest → IsRead result e }
    ensures read { option_map (λ x. (entry_seen x.0, drop x.1 bytes.now)) result ≡ entry_at bytes.now }
{
    let (entry, rest) = entry_of(bytes)?;
    Some((entry, bytes.len() - rest.len()))
}
