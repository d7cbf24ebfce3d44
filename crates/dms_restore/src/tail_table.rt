//! The table of a point, from the last entries of a trail alone.

ghost use Rattle.std.specs.Prelude.{◌≡◌, ◌≤◌, ◌∷◌, Some, IfOk, IfErr, IfSome, IsErrOf, IsTrue, length};
ghost use Rattle.dms_site.specs.Files.{Files};
ghost use Rattle.dms_history.specs.Lists.{after_last};
ghost use Rattle.dms_history.specs.Ranges.{is_control_logged};
ghost use Rattle.dms_history.specs.Entries as meaning;
ghost use Rattle.dms_audrec.specs.Seen.{entry_seen};
ghost use Rattle.dms_audfile.specs.AuditTrail.{entry_there};
ghost use Rattle.dms_audfile.specs.Counting.{CountedAt};
ghost use Rattle.dms_audfile.specs.EntryReading.{IsCurrent};
ghost use Rattle.dms_audfile.specs.Reads.{ReadsAlone};
ghost use Rattle.dms_restore.specs.BackOuts.{IsDiskOrMemory};
ghost use Rattle.dms_restore.specs.LiveEntries.{logged_live, changes_at, AllStandWhole};
ghost use Rattle.dms_restore.specs.declared.live.LiveEntry.TheVariants.{Quiet};
ghost use Rattle.dms_restore.specs.Table.{AreBlocks, IsTable};
ghost use Rattle.dms_restore.specs.TailTables.{IsInTrail, control_number, FindsControl, TellsLast, TellsPlaced, TellsTrail, UndoesPlaced};

use crate::placing::after_control;
use crate::reading::read_trail;
use crate::rereading::{disk_or_memory, point_told, table_of_point};
use crate::table::table_of;
use crate::{AuditBlock, LiveEntry, Told};
use dms_audfile::laws::{
    entries_stand_at_their_places, entries_stay_at_their_places, what_is_read_from_a_block_is_found,
};
use dms_audfile::{AudFault, AuditEnd, EntryPlace, EntryReader};
use dms_audrec::Entry;
use dms_site::Site;
use std::alloc::Global;

/// The number of a Control.
fn number_of(entry: &Entry<'_>) -> Option<u64>
    ensures { result ≡ control_number (entry_seen entry.now) }
{
    match *entry {
        Entry::Schema(_, _, _) => None,
        Entry::Image(_, _, _, _) => None,
        Entry::Range(_, _, _, _) => None,
        Entry::Quiet(_) => None,
        Entry::Control(number, _, _) => Some(number),
        Entry::Begin(_, _) => None,
    }
}

/// The number of the Control at a place; None where another entry stands there.
fn read_number<S: Site>(
    site: &mut S,
    reader: &mut EntryReader,
    place: &EntryPlace,
) -> Result<Option<u64>, AudFault>
    ensures current { IsTrue S.tells → IsCurrent reader.old (S.files site.old) → IsCurrent reader.new (S.files site.old) }
    ensures number { IfOk result (λ o. IsTrue S.tells → IsCurrent reader.old (S.files site.old) → (e : meaning.Entry) → entry_there (S.files site.old) place.now ≡ Some e → o ≡ control_number e) }
    ensures only { IfErr result IsDiskOrMemory }
    ensures reads { ReadsAlone S.Site site.old site.new }
    ensures same_site { S.same_site site.old site.new }
    ensures disk { CountedAt (IsErrOf result AudFault.Disk) (S.disk_faults site.old) (S.disk_faults site.new) }
{
    match reader.load(site, place) {
        Ok(()) => {}
        Err(fault) => return Err(disk_or_memory(fault)),
    }
    match reader.entry(place) {
        None => Err(AudFault::Memory),
        Some(entry) => Ok(number_of(&entry)),
    }
}

/// A Control among some places.
#[derive(Clone, Copy)]
struct ControlFound {
    /// How many places there are up to it, its own among them.
    up_to: usize,
    number: u64,
}

/// The first Control among these places.
fn first_control<S: Site>(
    alloc: Global,
    site: &mut S,
    places: &[EntryPlace],
) -> Result<Option<ControlFound>, AudFault>
    ensures within { IfOk result (λ o. IfSome o (λ c. c.up_to ≤ length places.now)) }
    ensures found { IfOk result (λ o. IfSome o (λ c. IsTrue S.tells → FindsControl (S.files site.old) places.now c.up_to c.number)) }
    ensures only { IfErr result IsDiskOrMemory }
    ensures reads { ReadsAlone S.Site site.old site.new }
    ensures same_site { S.same_site site.old site.new }
    ensures disk { CountedAt (IsErrOf result AudFault.Disk) (S.disk_faults site.old) (S.disk_faults site.new) }
{
    let mut reader = match EntryReader::new(alloc) {
        Ok(reader) => reader,
        Err(_) => return Err(AudFault::Memory),
    };
    for (at, place) in places.iter().enumerate() {
        match read_number(site, &mut reader, place) {
            Ok(None) => {}
            Ok(Some(number)) => {
                return Ok(Some(ControlFound {
                    up_to: at + 1,
                    number,
                }));
            }
            Err(fault) => return Err(fault),
        }
    }
    Ok(None)
}

/// The table of a point from the entries at these places, which stand directly behind an earlier Control; None where a Begin is among them.
fn table_behind<S: Site>(
    alloc: Global,
    site: &mut S,
    places: &[EntryPlace],
    point: u64,
) -> Result<Option<Vec<Told>>, AudFault>
    ensures blocks { IfOk result (λ o. IfSome o (λ v. AreBlocks v.items)) }
    ensures table { IfOk result (λ o. IfSome o (λ v. IsTrue S.tells → TellsPlaced (S.files site.old) places.now point v.items)) }
    ensures only { IfErr result IsDiskOrMemory }
    ensures reads { ReadsAlone S.Site site.old site.new }
    ensures same_site { S.same_site site.old site.new }
    ensures disk { CountedAt (IsErrOf result AudFault.Disk) (S.disk_faults site.old) (S.disk_faults site.new) }
{
    let trace = match read_trail(alloc, site, places) {
        Ok(trace) => trace,
        Err(fault) => return Err(disk_or_memory(fault)),
    };
    if trace.history.begun {
        return Ok(None);
    }
    match table_of_point(alloc, &trace.history.live, point) {
        Ok(table) => Ok(Some(table)),
        Err(fault) => Err(fault),
    }
}

/// The table that undoes the changes of live entries; None where a Control is among them.
fn table_since(alloc: Global, live: &[LiveEntry]) -> Result<Option<Vec<Told>>, AudFault>
    ensures blocks { IfOk result (λ o. IfSome o (λ v. AreBlocks v.items)) }
    ensures last { IfOk result (λ o. IfSome o (λ v. (files : Files) → after_last is_control_logged (logged_live files live.now) ≡ logged_live files live.now)) }
    ensures table { IfOk result (λ o. IfSome o (λ v. (files : Files) → AllStandWhole files live.now → IsTable (changes_at files (Quiet 0 ∷ live.now)) 0 files v.items)) }
    ensures only { IfErr result (λ e. e ≡ AudFault.Memory) }
{
    if after_control(live) != 0 {
        return Ok(None);
    }
    match table_of(alloc, &[LiveEntry::Quiet(0)], live) {
        Ok(table) => Ok(Some(table)),
        Err(_) => Err(AudFault::Memory),
    }
}

/// The table that undoes the entries at these places, which stand directly behind a Control; None where a Begin or a Control is among them.
fn undo_behind<S: Site>(
    alloc: Global,
    site: &mut S,
    places: &[EntryPlace],
) -> Result<Option<Vec<Told>>, AudFault>
    ensures blocks { IfOk result (λ o. IfSome o (λ v. AreBlocks v.items)) }
    ensures table { IfOk result (λ o. IfSome o (λ v. IsTrue S.tells → UndoesPlaced (S.files site.old) places.now v.items)) }
    ensures only { IfErr result IsDiskOrMemory }
    ensures reads { ReadsAlone S.Site site.old site.new }
    ensures same_site { S.same_site site.old site.new }
    ensures disk { CountedAt (IsErrOf result AudFault.Disk) (S.disk_faults site.old) (S.disk_faults site.new) }
{
    let trace = match read_trail(alloc, site, places) {
        Ok(trace) => trace,
        Err(fault) => return Err(disk_or_memory(fault)),
    };
    if trace.history.begun {
        return Ok(None);
    }
    match table_since(alloc, &trace.history.live) {
        Ok(table) => Ok(table),
        Err(fault) => Err(fault),
    }
}

/// The table of a point from the last entries of a trail, which stand at these places; None where these don't tell it by themselves.
///
/// They do where a Control of an earlier point is the first Control among them, and no Begin stands behind it. Where the first Control is
/// of the point itself, and `at_control` says that each block was at the last Control as at the point, they do where neither a Begin nor a
/// Control stands behind it.
fn table_of_last<S: Site>(
    alloc: Global,
    site: &mut S,
    places: &[EntryPlace],
    point: u64,
    at_control: bool,
) -> Result<Option<Vec<Told>>, AudFault>
    ensures blocks { IfOk result (λ o. IfSome o (λ v. AreBlocks v.items)) }
    ensures table { IfOk result (λ o. IfSome o (λ v. IsTrue S.tells → TellsLast at_control (S.files site.old) places.now point v.items)) }
    ensures only { IfErr result IsDiskOrMemory }
    ensures reads { ReadsAlone S.Site site.old site.new }
    ensures same_site { S.same_site site.old site.new }
    ensures disk { CountedAt (IsErrOf result AudFault.Disk) (S.disk_faults site.old) (S.disk_faults site.new) }
{
    let control = match first_control(alloc, site, places) {
        Ok(Some(control)) => control,
        Ok(None) => return Ok(None),
        Err(fault) => return Err(fault),
    };
    if control.number < point {
        return table_behind(alloc, site, &places[control.up_to..], point);
    }
    if !at_control {
        return Ok(None);
    }
    undo_behind(alloc, site, &places[control.up_to..])
}

/// Whether a block is a sealed one of the trail that begins with file `first`.
fn is_in_trail(end: &AuditEnd, first: u32, block: &AuditBlock) -> bool
    ensures { IsTrue result → IsInTrail end.now first block.now }
{
    let sealed = end.sealed_in(block.file);
    first <= block.file
        && block.file <= end.file
        && 10_001 <= block.file
        && 1 <= block.block
        && block.block <= sealed
}

/// The table of a point from the entries that stand in a trail from a block on; None where these don't tell it by themselves.
fn told_near<S: Site>(
    alloc: Global,
    site: &mut S,
    end: &AuditEnd,
    first: u32,
    from: &AuditBlock,
    point: u64,
    at_control: bool,
) -> Result<Option<Vec<Told>>, AudFault>
    ensures blocks { IfOk result (λ o. IfSome o (λ v. AreBlocks v.items)) }
    ensures table { IfOk result (λ o. IfSome o (λ v. IsTrue S.tells → TellsTrail at_control end.now first (S.files site.old) point v.items)) }
    ensures only { IfErr result IsDiskOrMemory }
    ensures reads { ReadsAlone S.Site site.old site.new }
    ensures same_site { S.same_site site.old site.new }
    ensures disk { CountedAt (IsErrOf result AudFault.Disk) (S.disk_faults site.old) (S.disk_faults site.new) }
{
    entries_stand_at_their_places();
    entries_stay_at_their_places();
    what_is_read_from_a_block_is_found();
    if !is_in_trail(end, first, from) {
        return Ok(None);
    }
    let places = match end.places_from(alloc, site, from.file, from.block) {
        Ok(places) => places,
        Err(fault) => return Err(disk_or_memory(fault)),
    };
    table_of_last(alloc, site, &places, point, at_control)
}

/// What the audit tells of each block at a point, and of no other, where the trail from file `first` on ends here. It stays so while the
/// trail grows. `at_control` says whether each block was at the last Control as at this point: then blocks that didn't change since may be left
/// out.
///
/// Reads the trail from block `from` on. Where the first Control from there on is neither one of a point before this one nor such a last one,
/// or a Begin stands behind it, it reads the whole trail. Nothing changes. Answers Disk where a call of the site failed, and Memory, also where
/// another program has written the audit.
pub(crate) fn point_told_near<S: Site>(
    alloc: Global,
    site: &mut S,
    end: &AuditEnd,
    first: u32,
    from: &AuditBlock,
    point: u64,
    at_control: bool,
) -> Result<Vec<Told>, AudFault>
    ensures blocks { IfOk result (λ v. AreBlocks v.items) }
    ensures table { IfOk result (λ v. IsTrue S.tells → TellsTrail at_control end.now first (S.files site.old) point v.items) }
    ensures only { IfErr result IsDiskOrMemory }
    ensures reads { ReadsAlone S.Site site.old site.new }
    ensures same_site { S.same_site site.old site.new }
    ensures disk { CountedAt (IsErrOf result AudFault.Disk) (S.disk_faults site.old) (S.disk_faults site.new) }
{
    match told_near(alloc, site, end, first, from, point, at_control) {
        Ok(Some(table)) => Ok(table),
        Ok(None) => point_told(alloc, site, end.total, first, point),
        Err(fault) => Err(fault),
    }
}
