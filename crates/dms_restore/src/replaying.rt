//! The changes since a place as a table, in the order of the audit, where nothing was changed behind the point.

ghost use Rattle.std.specs.Prelude.{◌≡◌, ◌⊎◌, [], ◌∷◌, ℕ, false, None, OnOk, IfOk, IfErr, IfSome, IsTrue};
ghost use Rattle.dms_site.specs.Files.{Files};
ghost use Rattle.dms_restore.specs.declared.live.LiveEntry.TheVariants.{Changed, Ranged};
ghost use Rattle.dms_restore.specs.LiveEntries.{AllStandWhole};
ghost use Rattle.dms_restore.specs.Named.{noted_front, noted_all, told_noted, HasNoBlock};
ghost use Rattle.dms_restore.specs.Replayed.{is_change, has_change, change_count, is_imaged, replay_of, Replays};
ghost use Rattle.dms_restore.specs.Table.{AreBlocks, AreWhole, last_of, IsAmong};

use crate::table::{add_told, patch_told};
use crate::{ImageAt, LiveEntry, RangeAt, Told};
use dms_audfile::AudFault;
use dms_history::Row;
use std::alloc::Global;
use std::collections::BTreeSet;

/// Whether an entry is an Image or a Range.
fn is_change(entry: &LiveEntry) -> bool
    ensures { result ≡ is_change entry.now }
{
    match entry {
        LiveEntry::Changed(_) => true,
        LiveEntry::Ranged(_) => true,
        LiveEntry::Quiet(_) => false,
        LiveEntry::Controlled(_) => false,
    }
}

/// Whether one of some entries is.
fn has_change(entries: &[LiveEntry]) -> bool
    ensures { result ≡ has_change entries.now }
{
    for entry in entries {
        if is_change(entry) {
            return true;
        }
    }
    false
}

/// How many of some entries are.
fn count_changes(entries: &[LiveEntry]) -> usize
    ensures { result ≡ change_count entries.now }
{
    let mut count = 0;
    for entry in entries {
        if is_change(entry) {
            count += 1;
        }
    }
    count
}

/// An empty table with room for so many.
fn table_with_room(alloc: Global, room: usize) -> Result<Vec<Told>, AudFault>
    ensures none { IfOk result (λ v. v.items ≡ []) }
    ensures only { IfErr result (λ e. e ≡ AudFault.Memory) }
{
    match Vec::with_capacity(alloc, room) {
        Ok(table) => Ok(table),
        Err(_) => Err(AudFault::Memory),
    }
}

/// No block has an Image.
fn no_images(alloc: Global) -> BTreeSet<(u32, u32)>
    ensures { (f b : ℕ) → is_imaged result f b ≡ false }
{
    BTreeSet::new(alloc)
}

/// The whole block after a change.
fn image_told(image: &ImageAt) -> Told
    ensures { result ∷ [] ≡ replay_of (Changed image.now) }
{
    Told {
        file: image.file,
        block: image.block,
        place: 0,
        length: 1024,
        audit: image.audit,
        at: image.at,
    }
}

/// Adds the block after a change.
fn replay_image(
    table: &mut Vec<Told>,
    imaged: &mut BTreeSet<(u32, u32)>,
    image: &ImageAt,
) -> Result<(), AudFault>
    requires blocks { AreBlocks table.old.items }
    ensures replays { OnOk result (Replays (Changed image.now) imaged.old table.old.items imaged.new table.new.items) }
    ensures only { IfErr result (λ e. (e ≡ AudFault.Memory) ⊎ HasNoBlock (Changed image.now ∷ []) [] e) }
{
    match imaged.insert((image.file, image.block)) {
        Ok(_) => add_told(table, image_told(image)),
        Err(_) => Err(AudFault::Memory),
    }
}

/// Adds the bytes that a Range lays over a block, where that has an Image; else answers false.
fn replay_range(
    table: &mut Vec<Told>,
    imaged: &BTreeSet<(u32, u32)>,
    range: &RangeAt,
) -> Result<bool, AudFault>
    requires blocks { AreBlocks table.old.items }
    ensures replays { IfOk result (λ is. IsTrue is → Replays (Ranged range.now) imaged.now table.old.items imaged.now table.new.items) }
    ensures only { IfErr result (λ e. (e ≡ AudFault.Memory) ⊎ HasNoBlock (Ranged range.now ∷ []) [] e) }
{
    if !imaged.contains(&(range.file, range.block)) {
        return Ok(false);
    }
    match add_told(table, patch_told(range.file, range.block, &range.patch)) {
        Ok(()) => Ok(true),
        Err(fault) => Err(fault),
    }
}

/// Adds what an entry leaves of its block. Answers false at a Range of a block with no Image so far.
fn replay_one(
    table: &mut Vec<Told>,
    imaged: &mut BTreeSet<(u32, u32)>,
    entry: &LiveEntry,
) -> Result<bool, AudFault>
    requires blocks { AreBlocks table.old.items }
    ensures replays { IfOk result (λ is. IsTrue is → Replays entry.now imaged.old table.old.items imaged.new table.new.items) }
    ensures only { IfErr result (λ e. (e ≡ AudFault.Memory) ⊎ HasNoBlock (entry.now ∷ []) [] e) }
{
    match entry {
        LiveEntry::Changed(image) => match replay_image(table, imaged, image) {
            Ok(()) => Ok(true),
            Err(fault) => Err(fault),
        },
        LiveEntry::Ranged(range) => replay_range(table, imaged, range),
        LiveEntry::Quiet(_) => Ok(true),
        LiveEntry::Controlled(_) => Ok(true),
    }
}

/// The changes from a place on as a table. None where a Range stands there before the first Image of its block.
fn replayed_from(
    alloc: Global,
    front: &[LiveEntry],
    from: usize,
) -> Result<Option<Vec<Told>>, AudFault>
    ensures blocks { IfOk result (λ o. IfSome o (λ v. AreBlocks v.items)) }
    ensures whole { IfOk result (λ o. IfSome o (λ v. (files : Files) → AllStandWhole files front.now → AreWhole files v.items)) }
    ensures tells { IfOk result (λ o. IfSome o (λ v. (files : Files) → AreWhole files v.items → (f b : ℕ) → last_of files f b v.items ≡ told_noted (noted_front files from front.now f b))) }
    ensures among { IfOk result (λ o. IfSome o (λ v. (files : Files) (f b : ℕ) → IsAmong f b v.items → last_of files f b v.items ≡ None → ⊥)) }
    ensures only { IfErr result (λ e. (e ≡ AudFault.Memory) ⊎ HasNoBlock front.now [] e) }
{
    let mut imaged = no_images(alloc);
    let changes = count_changes(&front[from.min(front.len())..]);
    let mut table = table_with_room(alloc, changes)?;
    for (i, entry) in front.iter().enumerate() {
        if from <= i {
            match replay_one(&mut table, &mut imaged, entry) {
                Ok(true) => {}
                Ok(false) => return Ok(None),
                Err(fault) => return Err(fault),
            }
        }
    }
    Ok(Some(table))
}

/// The changes from a place on as a table of the point, where that is simple: there are no rows, nothing was changed behind the point, and
/// each Range from the place on stands behind an Image of its block. Else None.
pub(crate) fn replayed(
    alloc: Global,
    front: &[LiveEntry],
    behind: &[LiveEntry],
    rows: &[Row],
    of_others: usize,
) -> Result<Option<Vec<Told>>, AudFault>
    ensures blocks { IfOk result (λ o. IfSome o (λ v. AreBlocks v.items)) }
    ensures whole { IfOk result (λ o. IfSome o (λ v. (files : Files) → AllStandWhole files front.now → AreWhole files v.items)) }
    ensures tells { IfOk result (λ o. IfSome o (λ v. (files : Files) → AreWhole files v.items → (of_rows f b : ℕ) → last_of files f b v.items ≡ told_noted (noted_all files rows.now of_rows of_others front.now behind.now f b))) }
    ensures among { IfOk result (λ o. IfSome o (λ v. (files : Files) (f b : ℕ) → IsAmong f b v.items → last_of files f b v.items ≡ None → ⊥)) }
    ensures only { IfErr result (λ e. (e ≡ AudFault.Memory) ⊎ HasNoBlock front.now behind.now e) }
{
    if !rows.is_empty() {
        return Ok(None);
    }
    if has_change(behind) {
        return Ok(None);
    }
    replayed_from(alloc, front, of_others)
}
