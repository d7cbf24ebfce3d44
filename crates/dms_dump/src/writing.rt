//! A dump is written so that a stop leaves it shut or whole.

ghost use Rattle.std.specs.Prelude.{◌≡◌, ◌≢◌, ◌⊎◌, ◌+◌, ◌≤◌, ◌<◌, ◌^◌, ◌∷◌, [], ℕ, List, true, length, OnOk, IfErr, IsErrOf, IsTrue, slice_index};
ghost use Rattle.dms_moments.specs.Moments.{Steps};
ghost use Rattle.dms_site.specs.Files.{OnDisk, Only, stored_of};
ghost use Rattle.dms_audrec.specs.Spelling.{counts_rise};
ghost use Rattle.dms_dump.specs.Body.{AllStored, dump_made};
ghost use Rattle.dms_dump.specs.Stops.{KeepsGate, BecomesDump};
ghost use Rattle.dms_dump.specs.Copying.{IsShortIn, CountsAt};

use crate::DumpFault;
use crate::copying::copy_all;
use crate::gate::{is_open_file, open_gate, shut};
use crate::spelling::spell_head;
use dms_history::FileCount;
use dms_site::Site;

/// Writes the head and the blocks behind the shut gate of a dump. Doesn't sync.
fn fill<S: Site>(
    site: &mut S,
    file: u32,
    tag: u64,
    point: u64,
    audit: u32,
    counts: &[FileCount],
) -> Result<(), DumpFault>
    requires few { length counts.now ≤ 200 }
    requires rising { counts_rise 30001 counts.now ≡ true }
    requires no_structure { file ≤ 30000 }
    ensures filled { OnOk result (IsTrue S.tells → S.files site.old file ≡ 0 ∷ []
        → S.files site.new file ≡ dump_made 0 tag point audit counts.now (S.files site.old)) }
    ensures whole { OnOk result (IsTrue S.tells → AllStored (stored_of (S.files site.old)) counts.now) }
    ensures others { IsTrue S.tells → (g : ℕ) → g ≢ file → S.files site.new g ≡ S.files site.old g }
    ensures moments { Steps (OnDisk file KeepsGate) (S.clock site.old) (S.clock site.new) }
    ensures only { IfErr result (λ e. (e ≡ DumpFault.Disk) ⊎ IsShortIn S.tells (S.files site.old) counts.now e) }
    ensures said { S.said site.new ≡ S.said site.old }
    ensures same_site { S.same_site site.old site.new }
    ensures disk { CountsAt (IsErrOf result DumpFault.Disk) (S.disk_faults site.old) (S.disk_faults site.new) }
    ensures say_faults { S.say_faults site.new ≡ S.say_faults site.old }
{
    let mut head = [0u8; 1634];
    let used = spell_head(&mut head, tag, point, None, audit, counts);
    match site.write_at(file, 1, &head[..used]) {
        Ok(()) => {}
        Err(_) => return Err(DumpFault::Disk),
    }
    let mut buffer = [0u8; 1024];
    copy_all(site, file, 1 + used as u64, counts, &mut buffer)
}

/// Writes a dump behind its shut gate, and makes it stable.
fn fill_synced<S: Site>(
    site: &mut S,
    file: u32,
    tag: u64,
    point: u64,
    audit: u32,
    counts: &[FileCount],
) -> Result<(), DumpFault>
    requires few { length counts.now ≤ 200 }
    requires rising { counts_rise 30001 counts.now ≡ true }
    requires no_structure { file ≤ 30000 }
    requires shut { IsTrue S.tells → S.files site.old file ≡ 0 ∷ [] }
    requires settled { IsTrue S.tells → Only (S.files site.old) (S.clock site.old) }
    ensures filled { OnOk result (IsTrue S.tells
        → S.files site.new file ≡ dump_made 0 tag point audit counts.now (S.files site.old)) }
    ensures whole { OnOk result (IsTrue S.tells → AllStored (stored_of (S.files site.old)) counts.now) }
    ensures durable { OnOk result (IsTrue S.tells → Only (S.files site.new) (S.clock site.new)) }
    ensures others { IsTrue S.tells → (g : ℕ) → g ≢ file → S.files site.new g ≡ S.files site.old g }
    ensures moments { (made : List ℕ) → IsTrue S.tells → Steps (OnDisk file (BecomesDump made)) (S.clock site.old) (S.clock site.new) }
    ensures only { IfErr result (λ e. (e ≡ DumpFault.Disk) ⊎ IsShortIn S.tells (S.files site.old) counts.now e) }
    ensures said { S.said site.new ≡ S.said site.old }
    ensures same_site { S.same_site site.old site.new }
    ensures disk { CountsAt (IsErrOf result DumpFault.Disk) (S.disk_faults site.old) (S.disk_faults site.new) }
    ensures say_faults { S.say_faults site.new ≡ S.say_faults site.old }
{
    match fill(site, file, tag, point, audit, counts) {
        Ok(()) => {}
        Err(fault) => return Err(fault),
    }
    match site.sync() {
        Ok(()) => Ok(()),
        Err(_) => Err(DumpFault::Disk),
    }
}

/// Writes a dump into a file whose gate isn't open: what it was is cut off first.
fn make<S: Site>(
    site: &mut S,
    file: u32,
    tag: u64,
    point: u64,
    audit: u32,
    counts: &[FileCount],
) -> Result<(), DumpFault>
    requires few { length counts.now ≤ 200 }
    requires rising { counts_rise 30001 counts.now ≡ true }
    requires no_structure { file ≤ 30000 }
    ensures written { OnOk result (IsTrue S.tells
        → S.files site.new file ≡ dump_made 1 tag point audit counts.now (S.files site.old)) }
    ensures whole { OnOk result (IsTrue S.tells → AllStored (stored_of (S.files site.old)) counts.now) }
    ensures durable { OnOk result (IsTrue S.tells → Only (S.files site.new) (S.clock site.new)) }
    ensures others { IsTrue S.tells → (g : ℕ) → g ≢ file → S.files site.new g ≡ S.files site.old g }
    ensures moments { IsTrue S.tells
        → Steps (OnDisk file (BecomesDump (dump_made 1 tag point audit counts.now (S.files site.old)))) (S.clock site.old) (S.clock site.new) }
    ensures only { IfErr result (λ e. (e ≡ DumpFault.Disk) ⊎ IsShortIn S.tells (S.files site.old) counts.now e) }
    ensures said { S.said site.new ≡ S.said site.old }
    ensures same_site { S.same_site site.old site.new }
    ensures disk { CountsAt (IsErrOf result DumpFault.Disk) (S.disk_faults site.old) (S.disk_faults site.new) }
    ensures say_faults { S.say_faults site.new ≡ S.say_faults site.old }
{
    match shut(site, file) {
        Ok(()) => {}
        Err(_) => return Err(DumpFault::Disk),
    }
    match fill_synced(site, file, tag, point, audit, counts) {
        Ok(()) => {}
        Err(fault) => return Err(fault),
    }
    match open_gate(site, file) {
        Ok(()) => Ok(()),
        Err(_) => Err(DumpFault::Disk),
    }
}

/// Writes dump d: the head, and all blocks of the structure files below these counts, which stand whole in them. The gate is opened last.
///
/// Takes no memory, and reads one block at a time. Answers Exists where the gate of the dump is open; Disk where a call of the site failed; and
/// Damaged where a block doesn't stand whole.
pub fn write_dump<S: Site>(
    site: &mut S,
    dump: u16,
    tag: u64,
    point: u64,
    audit: u32,
    counts: &[FileCount],
) -> Result<(), DumpFault>
    requires number { dump ≤ 9999 }
    requires few { length counts.now ≤ 200 }
    requires rising { counts_rise 30001 counts.now ≡ true }
    ensures written { OnOk result (IsTrue S.tells
        → S.files site.new (20000 + dump) ≡ dump_made 1 tag point audit counts.now (S.files site.old)) }
    ensures whole { OnOk result (IsTrue S.tells → AllStored (stored_of (S.files site.old)) counts.now) }
    ensures durable { OnOk result (IsTrue S.tells → Only (S.files site.new) (S.clock site.new)) }
    ensures others { IsTrue S.tells → (g : ℕ) → g ≢ 20000 + dump → S.files site.new g ≡ S.files site.old g }
    ensures moments { IsTrue S.tells
        → Steps (OnDisk (20000 + dump) (BecomesDump (dump_made 1 tag point audit counts.now (S.files site.old)))) (S.clock site.old) (S.clock site.new) }
    ensures exists { IsErrOf result (DumpFault.Exists dump) → IsTrue S.tells → (slice_index (S.files site.old (20000 + dump)) 0 ≡ 1) × (S.files site.new ≡ S.files site.old) }
    ensures shut { (IsErrOf result (DumpFault.Exists dump) → ⊥) → (IsErrOf result DumpFault.Disk → ⊥) → IsTrue S.tells → slice_index (S.files site.old (20000 + dump)) 0 ≢ 1 }
    ensures only { IfErr result (λ e. (e ≡ DumpFault.Exists dump) ⊎ ((e ≡ DumpFault.Disk) ⊎ IsShortIn S.tells (S.files site.old) counts.now e)) }
    ensures said { S.said site.new ≡ S.said site.old }
    ensures same_site { S.same_site site.old site.new }
    ensures disk { CountsAt (IsErrOf result DumpFault.Disk) (S.disk_faults site.old) (S.disk_faults site.new) }
    ensures say_faults { S.say_faults site.new ≡ S.say_faults site.old }
{
    let file = 20_000 + u32::from(dump);
    match is_open_file(site, file) {
        Ok(false) => {}
        Ok(true) => return Err(DumpFault::Exists(dump)),
        Err(_) => return Err(DumpFault::Disk),
    }
    make(site, file, tag, point, audit, counts)
}
