//! Printing the lines of the trail's entries.

ghost use Rattle.std.specs.Prelude.{◌≡◌, ◌++◌, IfOk, IfErr, OnOk, IsErrOf, IsTrue};
ghost use Rattle.dms_moments.specs.Moments.{Steps};
ghost use Rattle.dms_site.specs.Files.{Files};
ghost use Rattle.dms_audfile.specs.Counting.{CountedAt};
ghost use Rattle.dms_audfile.specs.EntryReading.{IsCurrent, HoldsBlock};
ghost use Rattle.dms_audprint.specs.AuditText.{HasTrail, PrintsAudit, PrintsPart};
ghost use Rattle.dms_audprint.specs.Printing.{line_at, lines_at, HoldsEntry, AllHoldEntries, PrintsFront, PrintsSome, IsOfOutside, IsLate, RefusesAudit};

use crate::PrintFault;
use crate::line::{EntryLine, line_text};
use dms_audfile::laws::entries_stand_at_their_places;
use dms_audfile::{AudFault, AuditStart, EntryPlace, EntryReader};
use dms_base::Bytes;
use dms_site::Site;
use std::alloc::Global;

/// The line of the entry at a place whose block the reader holds. Damaged where no entry is there.
fn line_there(alloc: Global, reader: &EntryReader, place: &EntryPlace) -> Result<Bytes, AudFault>
    ensures line { IfOk result (λ text. (files : Files) → HoldsBlock reader.now place.now files → text ≡ line_at files place.now) }
    ensures there { (files : Files) → HoldsBlock reader.now place.now files → HoldsEntry files place.now → IfErr result IsOfOutside }
    ensures no_disk { IfErr result (λ e. e ≡ AudFault.Disk → ⊥) }
{
    match reader.entry(place) {
        None => Err(AudFault::Damaged(place.file, place.block)),
        Some(entry) => {
            let line = EntryLine {
                audit: place.audit_file(),
                block: place.block,
                entry,
            };
            match line_text(alloc, &line) {
                Ok(text) => Ok(text),
                Err(_) => Err(AudFault::Memory),
            }
        }
    }
}

/// Prints the line of the entry at a place.
fn print_entry<S: Site>(
    alloc: Global,
    site: &mut S,
    reader: &mut EntryReader,
    place: &EntryPlace,
) -> Result<(), PrintFault>
    ensures current { IsTrue S.tells → IsCurrent reader.old (S.files site.old) → IsCurrent reader.new (S.files site.old) }
    ensures printed { OnOk result (IsTrue S.tells → IsTrue S.tells_said → IsCurrent reader.old (S.files site.old) → S.said site.new ≡ S.said site.old ++ line_at (S.files site.old) place.now) }
    ensures part { IsTrue S.tells → IsTrue S.tells_said → IsCurrent reader.old (S.files site.old) → PrintsFront (line_at (S.files site.old) place.now) (S.said site.old) (S.said site.new) }
    ensures there { IsTrue S.tells → IsCurrent reader.old (S.files site.old) → HoldsEntry (S.files site.old) place.now → IfErr result IsLate }
    ensures files { IsTrue S.tells → S.files site.new ≡ S.files site.old }
    ensures moments { Steps PrintsSome (S.clock site.old) (S.clock site.new) }
    ensures same_site { S.same_site site.old site.new }
    ensures disk { CountedAt (IsErrOf result (PrintFault.Audit AudFault.Disk)) (S.disk_faults site.old) (S.disk_faults site.new) }
    ensures say { CountedAt (IsErrOf result PrintFault.Say) (S.say_faults site.old) (S.say_faults site.new) }
{
    match reader.load(site, place) {
        Ok(()) => {}
        Err(fault) => return Err(PrintFault::Audit(fault)),
    }
    let line = match line_there(alloc, reader, place) {
        Ok(line) => line,
        Err(fault) => return Err(PrintFault::Audit(fault)),
    };
    match site.say(line.as_slice()) {
        Ok(()) => Ok(()),
        Err(_) => Err(PrintFault::Say),
    }
}

/// Prints the lines of the entries at these places.
fn print_places<S: Site>(
    alloc: Global,
    site: &mut S,
    places: &[EntryPlace],
) -> Result<(), PrintFault>
    ensures printed { OnOk result (IsTrue S.tells → IsTrue S.tells_said → S.said site.new ≡ S.said site.old ++ lines_at (S.files site.old) places.now) }
    ensures part { IsTrue S.tells → IsTrue S.tells_said → PrintsFront (lines_at (S.files site.old) places.now) (S.said site.old) (S.said site.new) }
    ensures there { IsTrue S.tells → AllHoldEntries (S.files site.old) places.now → IfErr result IsLate }
    ensures files { IsTrue S.tells → S.files site.new ≡ S.files site.old }
    ensures moments { Steps PrintsSome (S.clock site.old) (S.clock site.new) }
    ensures same_site { S.same_site site.old site.new }
    ensures disk { CountedAt (IsErrOf result (PrintFault.Audit AudFault.Disk)) (S.disk_faults site.old) (S.disk_faults site.new) }
    ensures say { CountedAt (IsErrOf result PrintFault.Say) (S.say_faults site.old) (S.say_faults site.new) }
{
    let mut reader = match EntryReader::new(alloc) {
        Ok(reader) => reader,
        Err(_) => return Err(PrintFault::Audit(AudFault::Memory)),
    };
    for place in places {
        match print_entry(alloc, site, &mut reader, place) {
            Ok(()) => {}
            Err(fault) => return Err(fault),
        }
    }
    Ok(())
}

/// Prints a line for each entry of the audit trail, in order; or answers the first refusal of scanning, and prints nothing.
///
/// Nothing is changed at any moment. Answers Disk and Say where a call of the site failed, and Memory.
pub fn print_audit<S: Site>(alloc: Global, site: &mut S) -> Result<(), PrintFault>
    ensures printed { OnOk result (IsTrue S.tells → IsTrue S.tells_said → PrintsAudit (S.files site.old) (S.said site.old) (S.said site.new)) }
    ensures found { OnOk result (IsTrue S.tells → HasTrail (S.files site.old)) }
    ensures refused { IfErr result (λ fault. IsTrue S.tells → RefusesAudit (S.files site.old) fault) }
    ensures silent { IfErr result (λ fault. IsTrue S.tells → (IsLate fault → ⊥) → S.said site.new ≡ S.said site.old) }
    ensures part { IsTrue S.tells → IsTrue S.tells_said → PrintsPart (S.files site.old) (S.said site.old) (S.said site.new) }
    ensures files { IsTrue S.tells → S.files site.new ≡ S.files site.old }
    ensures moments { Steps PrintsSome (S.clock site.old) (S.clock site.new) }
    ensures same_site { S.same_site site.old site.new }
    ensures disk { CountedAt (IsErrOf result (PrintFault.Audit AudFault.Disk)) (S.disk_faults site.old) (S.disk_faults site.new) }
    ensures say { CountedAt (IsErrOf result PrintFault.Say) (S.say_faults site.old) (S.say_faults site.new) }
{
    entries_stand_at_their_places();
    let scan = match AuditStart::scan(alloc, site) {
        Ok(scan) => scan,
        Err(fault) => return Err(PrintFault::Audit(fault)),
    };
    print_places(alloc, site, scan.places.as_slice())
}
