//! Copying the blocks of structure files behind the head of a dump.

ghost use Rattle.std.specs.Prelude.{◌≡◌, ◌≢◌, ◌⊎◌, ◌+◌, ◌*◌, ◌^◌, ◌<◌, ◌≤◌, ◌++◌, ℕ, true, length, OnOk, IfOk, IfErr, IsErrOf, IsTrue};
ghost use Rattle.dms_moments.specs.Moments.{Steps};
ghost use Rattle.dms_site.specs.Files.{OnDisk, stored_of};
ghost use Rattle.dms_audrec.specs.Spelling.{counts_rise};
ghost use Rattle.dms_dump.specs.Body.{AllStored, file_bytes, body_bytes};
ghost use Rattle.dms_dump.specs.Stops.{KeepsGate};
ghost use Rattle.dms_dump.specs.Copying.{CopiesBehind, IsShortOf, IsShortAmong, IsShortIn, CountsAt};

use crate::DumpFault;
use dms_history::FileCount;
use dms_site::Site;

/// Copies a block of a structure file to the end of the file of a dump. Doesn't sync.
///
/// Answers Disk where a call of the site failed, and Damaged where the block doesn't stand whole.
fn copy_block<S: Site>(
    site: &mut S,
    dump: u32,
    at: u64,
    file: u32,
    block: u32,
    buffer: &mut [u8],
) -> Result<(), DumpFault>
    requires behind { 1 ≤ at }
    requires place { at + 1024 < 2 ^ 40 }
    requires block { block < 2097152 }
    requires structure { 30000 < file }
    requires no_structure { dump ≤ 30000 }
    requires room { length buffer.old ≡ 1024 }
    ensures room { length buffer.new ≡ 1024 }
    ensures copied { OnOk result (IsTrue S.tells → CopiesBehind dump at (stored_of (S.files site.old) file block) (S.files site.old) (S.files site.new)) }
    ensures whole { OnOk result (IsTrue S.tells → length (stored_of (S.files site.old) file block) ≡ 1024) }
    ensures others { IsTrue S.tells → (g : ℕ) → g ≢ dump → S.files site.new g ≡ S.files site.old g }
    ensures moments { Steps (OnDisk dump KeepsGate) (S.clock site.old) (S.clock site.new) }
    ensures only { IfErr result (λ e. (e ≡ DumpFault.Disk) ⊎ ((e ≡ DumpFault.Damaged file block) × (IsTrue S.tells → IsShortOf (S.files site.old) file block))) }
    ensures said { S.said site.new ≡ S.said site.old }
    ensures same_site { S.same_site site.old site.new }
    ensures disk { CountsAt (IsErrOf result DumpFault.Disk) (S.disk_faults site.old) (S.disk_faults site.new) }
    ensures say_faults { S.say_faults site.new ≡ S.say_faults site.old }
{
    match site.read(file, 1024 * u64::from(block), buffer) {
        Ok(1024) => {}
        Ok(_) => return Err(DumpFault::Damaged(file, block)),
        Err(_) => return Err(DumpFault::Disk),
    }
    match site.write_at(dump, at, buffer) {
        Ok(()) => Ok(()),
        Err(_) => Err(DumpFault::Disk),
    }
}

/// Copies the first so many blocks of a structure file to the end of the file of a dump. Doesn't sync.
fn copy_file<S: Site>(
    site: &mut S,
    dump: u32,
    at: u64,
    file: u32,
    blocks: u32,
    buffer: &mut [u8],
) -> Result<(), DumpFault>
    requires behind { 1 ≤ at }
    requires place { at + 1024 * blocks < 2 ^ 40 }
    requires few { blocks ≤ 2097152 }
    requires structure { 30000 < file }
    requires no_structure { dump ≤ 30000 }
    requires room { length buffer.old ≡ 1024 }
    ensures room { length buffer.new ≡ 1024 }
    ensures copied { OnOk result (IsTrue S.tells → CopiesBehind dump at (file_bytes (stored_of (S.files site.old)) file blocks) (S.files site.old) (S.files site.new)) }
    ensures whole { OnOk result (IsTrue S.tells → (b : ℕ) → b < blocks → length (stored_of (S.files site.old) file b) ≡ 1024) }
    ensures others { IsTrue S.tells → (g : ℕ) → g ≢ dump → S.files site.new g ≡ S.files site.old g }
    ensures moments { Steps (OnDisk dump KeepsGate) (S.clock site.old) (S.clock site.new) }
    ensures only { IfErr result (λ e. (e ≡ DumpFault.Disk) ⊎ IsShortAmong S.tells (S.files site.old) file blocks e) }
    ensures said { S.said site.new ≡ S.said site.old }
    ensures same_site { S.same_site site.old site.new }
    ensures disk { CountsAt (IsErrOf result DumpFault.Disk) (S.disk_faults site.old) (S.disk_faults site.new) }
    ensures say_faults { S.say_faults site.new ≡ S.say_faults site.old }
{
    for block in 0..blocks {
        match copy_block(
            site,
            dump,
            at + 1024 * u64::from(block),
            file,
            block,
            buffer,
        ) {
            Ok(()) => {}
            Err(fault) => return Err(fault),
        }
    }
    Ok(())
}

/// Copies all blocks of these files, in that order, to the end of the file of a dump. Doesn't sync.
///
/// Answers Disk where a call of the site failed, and Damaged where a block doesn't stand whole.
pub(crate) fn copy_all<S: Site>(
    site: &mut S,
    dump: u32,
    at: u64,
    counts: &[FileCount],
    buffer: &mut [u8],
) -> Result<(), DumpFault>
    requires behind { 1 ≤ at }
    requires place { at ≤ 1635 }
    requires few { length counts.now ≤ 200 }
    requires rising { counts_rise 30001 counts.now ≡ true }
    requires no_structure { dump ≤ 30000 }
    requires room { length buffer.old ≡ 1024 }
    ensures copied { OnOk result (IsTrue S.tells → CopiesBehind dump at (body_bytes (stored_of (S.files site.old)) counts.now) (S.files site.old) (S.files site.new)) }
    ensures whole { OnOk result (IsTrue S.tells → AllStored (stored_of (S.files site.old)) counts.now) }
    ensures others { IsTrue S.tells → (g : ℕ) → g ≢ dump → S.files site.new g ≡ S.files site.old g }
    ensures moments { Steps (OnDisk dump KeepsGate) (S.clock site.old) (S.clock site.new) }
    ensures only { IfErr result (λ e. (e ≡ DumpFault.Disk) ⊎ IsShortIn S.tells (S.files site.old) counts.now e) }
    ensures said { S.said site.new ≡ S.said site.old }
    ensures same_site { S.same_site site.old site.new }
    ensures disk { CountsAt (IsErrOf result DumpFault.Disk) (S.disk_faults site.old) (S.disk_faults site.new) }
    ensures say_faults { S.say_faults site.new ≡ S.say_faults site.old }
{
    let mut place = at;
    for count in counts {
        match copy_file(site, dump, place, count.file, count.blocks, buffer) {
            Ok(()) => {}
            Err(fault) => return Err(fault),
        }
        place += 1024 * u64::from(count.blocks);
    }
    Ok(())
}
