//! What the entries of a block tell is noted.

ghost use Rattle.std.specs.Prelude.{◌≡◌, ◌≢◌, ◌+◌, ◌^◌, ◌<◌, ◌⊎◌, length, None, OnOk, IfErr};
ghost use Rattle.dms_audfile.specs.AuditTrail.{entry_from};
ghost use Rattle.dms_remote.specs.Noting.{TracesSaid, NotesAll};

use dms_audfile::{AudFault, EntryPlace, entry_in};
use dms_restore::TrailTrace;
use std::alloc::Global;

/// Adds the entry that begins at a place of a block, before which `at` entries stand. Answers Memory, and Damaged where none begins there.
fn note_one(
    alloc: Global,
    trace: &mut TrailTrace,
    block: &[u8],
    place: &EntryPlace,
    at: usize,
) -> Result<(), AudFault>
    ensures added { OnOk result (TracesSaid block.now place.now at trace.old trace.new) }
    ensures only { IfErr result (λ e. (e ≡ AudFault.Memory) ⊎ (entry_from place.now.offset block.now ≡ None)) }
    ensures faults { IfErr result (λ e. e ≢ AudFault.Disk) }
{
    match entry_in(block, place.offset) {
        None => Err(AudFault::Damaged(place.file, place.block)),
        Some(entry) => match trace.add(alloc, &entry, place, at) {
            Ok(()) => Ok(()),
            Err(_) => Err(AudFault::Memory),
        },
    }
}

/// Adds the entries that begin at these places of a block, before which `at` entries stand. Answers Memory, and Damaged where none begins at one of
/// them.
pub fn note_block(
    alloc: Global,
    trace: &mut TrailTrace,
    block: &[u8],
    places: &[EntryPlace],
    at: usize,
) -> Result<(), AudFault>
    requires few { at + length places.now < 2 ^ 64 }
    ensures added { OnOk result (NotesAll block.now places.now at trace.old trace.new) }
    ensures faults { IfErr result (λ e. e ≢ AudFault.Disk) }
{
    let mut before = at;
    for place in places {
        match note_one(alloc, trace, block, place, before) {
            Ok(()) => {}
            Err(fault) => return Err(fault),
        }
        before += 1;
    }
    Ok(())
}
