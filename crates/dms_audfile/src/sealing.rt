ghost use Rattle.std.specs.Prelude.{◌≡◌, ◌≢◌, ◌+◌, ◌-◌, ◌*◌, ◌^◌, ◌<◌, ◌≤◌, ℕ, length, OnOk, IsTrue};
ghost use Rattle.dms_base.specs.Causes.{HasCause};
ghost use Rattle.dms_moments.specs.Moments.{Steps};
ghost use Rattle.dms_site.specs.Files.{Only, OnDisk, Torn, with_file};
ghost use Rattle.dms_audfile.specs.Gates.{blocks_from};
ghost use Rattle.dms_audfile.specs.Header.{new_header, tag_said};
ghost use Rattle.dms_audfile.specs.Sealing.{AtWritten, AtGates, IsWrittenBehind, GainsBlocks, LeavesBlocks, LeavesOpened, Anyhow, WritesBlocks, Opens};

use dms_site::{Failed, Site, write_synced};

/// Makes a file this header alone.
pub(crate) fn start_file<S: Site>(site: &mut S, file: u32, head: &[u8]) -> Result<(), Failed>
    requires { length head.now ≡ 4096 }
    ensures started { OnOk result (IsTrue S.tells → S.files site.new ≡ with_file (S.files site.old) file head.now) }
    ensures durable { OnOk result (IsTrue S.tells → Only (S.files site.new) (S.clock site.new)) }
    ensures moments { Steps (OnDisk file Anyhow) (S.clock site.old) (S.clock site.new) }
    ensures said { S.said site.new ≡ S.said site.old }
    ensures same_site { S.same_site site.old site.new }
    ensures faults { HasCause (S.disk_faults site.old) (S.disk_faults site.new) result }
    ensures say_faults { S.say_faults site.new ≡ S.say_faults site.old }
{
    site.cut(file, 0)?;
    write_synced(site, file, 0, head)
}

/// Makes the next file ready where the block of this number is the last of its file.
fn start_next<S: Site>(
    site: &mut S,
    file: u32,
    total: u32,
    count: u32,
    head: &[u8],
) -> Result<(), Failed>
    requires few { file < 20000 }
    requires size { length head.now ≡ 4096 }
    requires room { count < total }
    requires low { total ≤ 512 }
    ensures started { OnOk result (IsTrue S.tells → count + 1 ≡ total → S.files site.new ≡ with_file (S.files site.old) (file + 1) head.now) }
    ensures same { OnOk result (IsTrue S.tells → count + 1 ≢ total → S.files site.new ≡ S.files site.old) }
    ensures durable { OnOk result (IsTrue S.tells → Only (S.files site.old) (S.clock site.old) → Only (S.files site.new) (S.clock site.new)) }
    ensures moments { Steps (OnDisk (file + 1) Anyhow) (S.clock site.old) (S.clock site.new) }
    ensures said { S.said site.new ≡ S.said site.old }
    ensures same_site { S.same_site site.old site.new }
    ensures faults { HasCause (S.disk_faults site.old) (S.disk_faults site.new) result }
    ensures say_faults { S.say_faults site.new ≡ S.say_faults site.old }
{
    if count + 1 == total {
        start_file(site, file + 1, head)
    } else {
        Ok(())
    }
}

/// Writes the contents of blocks, one behind the other, and makes them stable.
fn write_contents<S: Site>(
    site: &mut S,
    file: u32,
    count: u32,
    blocks: u32,
    contents: &[u8],
) -> Result<(), Failed>
    requires few { count + blocks ≤ 512 }
    requires size { 4096 * blocks ≤ length contents.now }
    ensures written { OnOk result (IsTrue S.tells → WritesBlocks file count blocks contents.now (S.files site.old) (S.files site.new)) }
    ensures durable { OnOk result (IsTrue S.tells → Only (S.files site.new) (S.clock site.new)) }
    ensures moments { Steps (OnDisk file (Torn (4096 * (count + 1)) (4096 * blocks))) (S.clock site.old) (S.clock site.new) }
    ensures said { S.said site.new ≡ S.said site.old }
    ensures same_site { S.same_site site.old site.new }
    ensures faults { HasCause (S.disk_faults site.old) (S.disk_faults site.new) result }
    ensures say_faults { S.say_faults site.new ≡ S.say_faults site.old }
{
    for i in 0..blocks {
        let from = 4096 * i as usize;
        let place = u64::from(count + i) + 1;
        site.write_at(file, 4096 * place, &contents[from..from + 4096])?;
    }
    site.sync()
}

/// Opens the gates of blocks, one behind the other, and makes each stable before the next.
fn open_gates<S: Site>(site: &mut S, file: u32, count: u32, blocks: u32) -> Result<(), Failed>
    requires few { count + blocks ≤ 512 }
    ensures moments { LeavesOpened S.tells file count blocks (S.files site.old) (S.clock site.old) (S.clock site.new) }
    ensures opened { OnOk result (AtGates S.tells file count blocks (S.files site.old) (λ total tag first. Opens total tag first file count blocks (S.files site.old) (S.files site.new))) }
    ensures others { OnOk result (IsTrue S.tells → (g : ℕ) → g ≢ file → S.files site.new g ≡ S.files site.old g) }
    ensures durable { OnOk result (IsTrue S.tells → Only (S.files site.old) (S.clock site.old) → Only (S.files site.new) (S.clock site.new)) }
    ensures said { S.said site.new ≡ S.said site.old }
    ensures same_site { S.same_site site.old site.new }
    ensures faults { HasCause (S.disk_faults site.old) (S.disk_faults site.new) result }
    ensures say_faults { S.say_faults site.new ≡ S.say_faults site.old }
{
    for i in 0..blocks {
        let place = u64::from(count + i) + 1;
        write_synced(site, file, 511 + place, &[1])?;
    }
    Ok(())
}

/// Seals blocks, one behind the other: their contents, where the last is the file's last block the next file's header, and then their gates.
pub fn seal_blocks<S: Site>(
    site: &mut S,
    file: u32,
    total: u32,
    count: u32,
    blocks: u32,
    contents: &[u8],
    head: &[u8],
) -> Result<(), Failed>
    requires some { 0 < blocks }
    requires size { 4096 * blocks ≤ length contents.now }
    requires last { file < 20000 }
    requires room { count + blocks ≤ total }
    requires few { total ≤ 512 }
    requires head { head.now ≡ new_header (file - 9999) total (tag_said head.now) }
    // A stop at any moment leaves the trail from before, with the first of the new blocks; no other file changes.
    ensures moments { LeavesBlocks S.tells total (tag_said head.now) file count (blocks_from blocks 0 contents.now) (S.files site.old) (S.clock site.old) (S.clock site.new) }
    ensures sealed { OnOk result (GainsBlocks S.tells total (tag_said head.now) file count (blocks_from blocks 0 contents.now) (S.files site.old) (S.files site.new)) }
    ensures writes { OnOk result (AtWritten S.tells total (tag_said head.now) file count (S.files site.old) (λ first.
        IsWrittenBehind total (tag_said head.now) first file (count + blocks) (S.files site.new))) }
    ensures others { OnOk result (IsTrue S.tells → (g : ℕ) → g ≢ file → g ≢ file + 1 → S.files site.new g ≡ S.files site.old g) }
    ensures next { OnOk result (IsTrue S.tells → count + blocks ≢ total → S.files site.new (file + 1) ≡ S.files site.old (file + 1)) }
    ensures durable { OnOk result (IsTrue S.tells → Only (S.files site.new) (S.clock site.new)) }
    ensures said { S.said site.new ≡ S.said site.old }
    ensures same_site { S.same_site site.old site.new }
    ensures faults { HasCause (S.disk_faults site.old) (S.disk_faults site.new) result }
    ensures say_faults { S.say_faults site.new ≡ S.say_faults site.old }
{
    write_contents(site, file, count, blocks, contents)?;
    start_next(site, file, total, count + blocks - 1, head)?;
    open_gates(site, file, count, blocks)
}
