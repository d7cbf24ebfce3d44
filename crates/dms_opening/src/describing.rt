//! The bytes of a Schema, read from the places of its parts.

ghost use Rattle.std.specs.Prelude.{◌≡◌, ◌⊎◌, ◌++◌, [], ◌∷◌, ◌<◌, ◌≤◌, ◌-◌, List, true, Some, None, length, slice_index_or, map, take, drop, OnOk, IfOk, IfErr, IsErrOf, IsTrue};
ghost use Rattle.dms_site.specs.Files.{Files};
ghost use Rattle.dms_history.specs.Lists.{has};
ghost use Rattle.dms_history.specs.Places.{is_point};
ghost use Rattle.dms_history.specs.Entries as meaning;
ghost use Rattle.dms_history.specs.EntryEvents.{live_of};
ghost use Rattle.dms_history.specs.SchemaAt.{schema_at};
ghost use Rattle.dms_audrec.specs.Seen.{entry_seen};
ghost use Rattle.dms_audfile.specs.Counting.{CountedAt};
ghost use Rattle.dms_audfile.specs.Reads.{ReadsAlone};
ghost use Rattle.dms_audfile.specs.Scanning.{Placed, place_in, entry_in};
ghost use Rattle.dms_audfile.specs.AuditTrail.{AreThere, entry_there};
ghost use Rattle.dms_audfile.specs.EntryReading.{IsCurrent};
ghost use Rattle.dms_restore.specs.Scanned.{IsNoEntryOf};
ghost use Rattle.dms_opening.specs.Claims.{MissesEntry};
ghost use Rattle.dms_restore.specs.SchemaSpans.{part_bytes, span_bytes, spans_before};
ghost use Rattle.dms_restore.specs.Traces.{IsTraceOf};

use dms_audfile::{AudFault, EntryPlace, EntryReader};
use dms_audrec::Entry;
use dms_restore::{SchemaHistory, SchemaSpan, TrailTrace, place};
use dms_site::Site;
use std::alloc::{AllocError, Global};

/// The last whole live Schema before the last of the first so many live entries.
fn span_before(schemas: &SchemaHistory, end: usize) -> Option<SchemaSpan>
    ensures { 0 < end → end ≤ length (spans_before schemas.now) → result ≡ slice_index_or (spans_before schemas.now) (end - 1) None }
{
    if end == 0 {
        None
    } else {
        schemas.span_at(end - 1)
    }
}

/// Where the Schema at a point stands: the last whole live one before its place.
pub(crate) fn schema_span(trace: &TrailTrace, point: u64) -> Option<SchemaSpan>
    ensures { (files : Files) (entries : List meaning.Entry) → IsTraceOf files entries trace.now → has (is_point point) (live_of entries) ≡ true
        → span_bytes entries result ≡ schema_at entries point }
{
    match place(&trace.history.live, point) {
        None => None,
        Some(end) => span_before(&trace.schemas, end),
    }
}

/// Adds the bytes of a part of a Schema; another entry adds none.
fn add_bytes(bytes: &mut Vec<u8>, entry: &Entry<'_>) -> Result<(), AllocError>
    ensures { OnOk result (bytes.new.items ≡ bytes.old.items ++ part_bytes (entry_seen entry.now ∷ [])) }
{
    match *entry {
        Entry::Schema(_, _, part) => bytes.extend_from_slice(part),
        Entry::Image(_, _, _, _) => Ok(()),
        Entry::Range(_, _, _, _) => Ok(()),
        Entry::Quiet(_) => Ok(()),
        Entry::Control(_, _, _) => Ok(()),
        Entry::Begin(_, _) => Ok(()),
    }
}

/// Reads the part of a Schema that stands at a place.
fn read_part<S: Site>(
    site: &mut S,
    reader: &mut EntryReader,
    place: &EntryPlace,
    bytes: &mut Vec<u8>,
) -> Result<(), AudFault>
    ensures current { IsTrue S.tells → IsCurrent reader.old (S.files site.old) → IsCurrent reader.new (S.files site.old) }
    ensures added { OnOk result (IsTrue S.tells → IsCurrent reader.old (S.files site.old) → (e : meaning.Entry) → entry_there (S.files site.old) place.now ≡ Some e
        → bytes.new.items ≡ bytes.old.items ++ part_bytes (e ∷ [])) }
    ensures only { IfErr result (λ e. (e ≡ AudFault.Disk) ⊎ ((e ≡ AudFault.Memory) ⊎ MissesEntry S.tells reader.old (S.files site.old) place.now e)) }
    ensures reads { ReadsAlone S.Site site.old site.new }
    ensures same_site { S.same_site site.old site.new }
    ensures disk { CountedAt (IsErrOf result AudFault.Disk) (S.disk_faults site.old) (S.disk_faults site.new) }
{
    match reader.load(site, place) {
        Ok(()) => {}
        Err(fault) => return Err(fault),
    }
    match reader.entry(place) {
        None => Err(AudFault::Damaged(place.file, place.block)),
        Some(entry) => match add_bytes(bytes, &entry) {
            Ok(()) => Ok(()),
            Err(_) => Err(AudFault::Memory),
        },
    }
}

/// Reads the parts of a Schema that stand at these places.
fn read_parts<S: Site>(
    alloc: Global,
    site: &mut S,
    parts: &[EntryPlace],
) -> Result<Vec<u8>, AudFault>
    ensures bytes { IfOk result (λ v. IsTrue S.tells → (placed : List Placed) → parts.now ≡ map place_in placed → AreThere (S.files site.old) placed
        → v.items ≡ part_bytes (map entry_in placed)) }
    ensures only { IfErr result (λ e. (e ≡ AudFault.Disk) ⊎ ((e ≡ AudFault.Memory) ⊎ IsNoEntryOf S.tells (S.files site.old) parts.now e)) }
    ensures reads { ReadsAlone S.Site site.old site.new }
    ensures same_site { S.same_site site.old site.new }
    ensures disk { CountedAt (IsErrOf result AudFault.Disk) (S.disk_faults site.old) (S.disk_faults site.new) }
{
    let mut reader = match EntryReader::new(alloc) {
        Ok(reader) => reader,
        Err(_) => return Err(AudFault::Memory),
    };
    let mut bytes = Vec::new(alloc);
    for place in parts {
        match read_part(site, &mut reader, place, &mut bytes) {
            Ok(()) => {}
            Err(fault) => return Err(fault),
        }
    }
    Ok(bytes)
}

/// The places of the parts of a Schema.
fn parts_of<'a>(places: &'a [EntryPlace], span: &SchemaSpan) -> &'a [EntryPlace]
    ensures { result.now ≡ take span.now.parts (drop span.now.first places.now) }
{
    let from = span.first.min(places.len());
    let rest = &places[from..];
    let parts = usize::from(span.parts).min(rest.len());
    &rest[..parts]
}

/// The bytes of a Schema of the trail whose entries stand at these places.
///
/// Nothing changes. Answers Disk where a call of the site failed, Memory, and Damaged where no entry stands at a place, which is so of no
/// trail that was scanned.
pub(crate) fn read_schema<S: Site>(
    alloc: Global,
    site: &mut S,
    places: &[EntryPlace],
    span: &SchemaSpan,
) -> Result<Vec<u8>, AudFault>
    ensures bytes { IfOk result (λ v. IsTrue S.tells → (placed : List Placed) → places.now ≡ map place_in placed → AreThere (S.files site.old) placed
        → span_bytes (map entry_in placed) (Some span.now) ≡ Some v.items) }
    ensures only { IfErr result (λ e. (e ≡ AudFault.Disk) ⊎ ((e ≡ AudFault.Memory) ⊎ IsNoEntryOf S.tells (S.files site.old) places.now e)) }
    ensures reads { ReadsAlone S.Site site.old site.new }
    ensures same_site { S.same_site site.old site.new }
    ensures disk { CountedAt (IsErrOf result AudFault.Disk) (S.disk_faults site.old) (S.disk_faults site.new) }
{
    read_parts(alloc, site, parts_of(places, span))
}
