//! The blocks that live entries may name are marked before anything is noted of them, so that nothing is kept of others.

ghost use Rattle.std.specs.Prelude.{◌≡◌, ◌||◌, ℕ, false, if◌then◌else◌, nat_le, OnOk, IfOk};
ghost use Rattle.dms_site.specs.Files.{Files};
ghost use Rattle.dms_history.specs.Entries.{named_by};
ghost use Rattle.dms_history.specs.Images.{is_at};
ghost use Rattle.dms_restore.specs.Chosen.{place_from};
ghost use Rattle.dms_restore.specs.LiveEntries.{logged_at, logged_live};
ghost use Rattle.dms_restore.specs.Named.{Noted, noted_by, noted_front, undone_by, undone, is_marked, IsUnmarked, is_of_block, IsBare};

use crate::LiveEntry;
use crate::chosen::{is_naming, is_of_rows};
use crate::naming::NamedSpot;
use dms_history::Row;
use std::alloc::{AllocError, Global};
use std::collections::BTreeMap;

/// Marks a block.
fn mark_block(
    spots: &mut BTreeMap<(u32, u32), NamedSpot>,
    file: u32,
    block: u32,
) -> Result<(), AllocError>
    requires { IsBare spots.old }
    ensures bare { OnOk result (IsBare spots.new) }
    ensures marks { OnOk result ((f b : ℕ) → is_marked spots.new f b ≡ (is_at f b file block || is_marked spots.old f b)) }
{
    if !spots.contains_key(&(file, block)) {
        let nothing = NamedSpot {
            spot: None,
            named: false,
        };
        spots.insert((file, block), nothing)?;
    }
    Ok(())
}

/// Marks the block of an Image or a Range.
fn mark_one(
    spots: &mut BTreeMap<(u32, u32), NamedSpot>,
    entry: &LiveEntry,
) -> Result<(), AllocError>
    requires { IsBare spots.old }
    ensures bare { OnOk result (IsBare spots.new) }
    ensures marks { OnOk result ((f b : ℕ) → is_marked spots.new f b ≡ (is_of_block f b entry.now || is_marked spots.old f b)) }
{
    match entry {
        LiveEntry::Changed(image) => mark_block(spots, image.file, image.block),
        LiveEntry::Ranged(range) => mark_block(spots, range.file, range.block),
        LiveEntry::Quiet(_) => Ok(()),
        LiveEntry::Controlled(_) => Ok(()),
    }
}

/// Marks the block of an entry, before which so many stand, where that names it.
fn mark_naming(
    spots: &mut BTreeMap<(u32, u32), NamedSpot>,
    rows: &[Row],
    of_rows: usize,
    of_others: usize,
    before: usize,
    entry: &LiveEntry,
) -> Result<(), AllocError>
    requires { IsBare spots.old }
    ensures bare { OnOk result (IsBare spots.new) }
    ensures stays { OnOk result ((f b : ℕ) → is_marked spots.new f b ≡ false → is_marked spots.old f b ≡ false) }
    ensures names { OnOk result ((files : Files) (f b : ℕ) (n : Noted) → IsUnmarked spots.new f b → n.named ≡ false
        → (noted_by f b (nat_le (place_from rows.now of_rows of_others f b) before) n (logged_at files entry.now)).named ≡ false) }
{
    if is_naming(rows, of_rows, of_others, before, entry) {
        mark_one(spots, entry)
    } else {
        Ok(())
    }
}

/// Marks the blocks that entries name: those from a place on, which is another one for blocks of the rows.
fn mark_redo(
    spots: &mut BTreeMap<(u32, u32), NamedSpot>,
    redo: &[LiveEntry],
    rows: &[Row],
    of_rows: usize,
    of_others: usize,
) -> Result<(), AllocError>
    requires { IsBare spots.old }
    ensures bare { OnOk result (IsBare spots.new) }
    ensures names { OnOk result ((files : Files) (f b : ℕ) → is_marked spots.new f b ≡ false → (noted_front files (place_from rows.now of_rows of_others f b) redo.now f b).named ≡ false) }
{
    for (i, entry) in redo.iter().enumerate() {
        mark_naming(spots, rows, of_rows, of_others, i, entry)?;
    }
    Ok(())
}

/// Marks the block of an entry, but no block of the rows.
fn mark_other(
    spots: &mut BTreeMap<(u32, u32), NamedSpot>,
    entry: &LiveEntry,
    rows: &[Row],
) -> Result<(), AllocError>
    requires { IsBare spots.old }
    ensures bare { OnOk result (IsBare spots.new) }
    ensures stays { OnOk result ((f b : ℕ) → is_marked spots.new f b ≡ false → is_marked spots.old f b ≡ false) }
    ensures undoes { OnOk result ((files : Files) (f b : ℕ) (n : Noted) → is_marked spots.new f b ≡ false → (if named_by rows.now f b then n else undone_by f b n (logged_at files entry.now)) ≡ n) }
{
    if is_of_rows(rows, entry) {
        Ok(())
    } else {
        mark_one(spots, entry)
    }
}

/// Marks the blocks that entries change, but no block of the rows.
fn mark_undo(
    spots: &mut BTreeMap<(u32, u32), NamedSpot>,
    undo: &[LiveEntry],
    rows: &[Row],
) -> Result<(), AllocError>
    requires { IsBare spots.old }
    ensures bare { OnOk result (IsBare spots.new) }
    ensures stays { OnOk result ((f b : ℕ) → is_marked spots.new f b ≡ false → is_marked spots.old f b ≡ false) }
    ensures undoes { OnOk result ((files : Files) (f b : ℕ) (n : Noted) → is_marked spots.new f b ≡ false → (if named_by rows.now f b then n else undone f b n (logged_live files undo.now)) ≡ n) }
{
    for entry in undo {
        mark_other(spots, entry, rows)?;
    }
    Ok(())
}

/// No block is marked.
fn no_spots(alloc: Global) -> BTreeMap<(u32, u32), NamedSpot>
    ensures { IsBare result }
{
    BTreeMap::new(alloc)
}

/// Marks each block that live entries may name, those up to a point and those behind it.
pub(crate) fn marked(
    alloc: Global,
    front: &[LiveEntry],
    behind: &[LiveEntry],
    rows: &[Row],
    of_rows: usize,
    of_others: usize,
) -> Result<BTreeMap<(u32, u32), NamedSpot>, AllocError>
    ensures bare { IfOk result (λ m. IsBare m) }
    ensures names { IfOk result (λ m. (files : Files) (f b : ℕ) → is_marked m f b ≡ false → (noted_front files (place_from rows.now of_rows of_others f b) front.now f b).named ≡ false) }
    ensures undoes { IfOk result (λ m. (files : Files) (f b : ℕ) (n : Noted) → is_marked m f b ≡ false → (if named_by rows.now f b then n else undone f b n (logged_live files behind.now)) ≡ n) }
{
    let mut spots = no_spots(alloc);
    mark_redo(&mut spots, front, rows, of_rows, of_others)?;
    mark_undo(&mut spots, behind, rows)?;
    Ok(spots)
}
