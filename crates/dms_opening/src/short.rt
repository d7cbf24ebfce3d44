//! Blocks that an opening can't have: it doesn't write them, and they don't stand whole in their structure files.

ghost use Rattle.std.specs.Prelude.{◌≡◌, ◌≤◌, ◌<◌, ◌+◌, ℕ, true, false, length, if◌then◌else◌, IfOk, IsTrue};
ghost use Rattle.std.specs.List.{list_any};
ghost use Rattle.dms_base.specs.Causes.{HasCause};
ghost use Rattle.dms_moments.specs.Moments.{Steps};
ghost use Rattle.dms_site.specs.Files.{Same};
ghost use Rattle.dms_restore.specs.declared.told.Told as seen;
ghost use Rattle.dms_restore.specs.declared.run.Run as stretch;
ghost use Rattle.dms_opening.specs.Short.{is_told, is_in_run, is_written, GoesOn, FindsIn, Finds};

use dms_restore::{RestoreTable, Run, Told};
use dms_site::{Failed, Site};

/// A block of a structure file that isn't there whole.
#[derive(Clone, Copy)]
pub struct ShortBlock {
    pub file: u32,
    pub block: u32,
}

/// The block behind this one where it is told, and else the same one.
fn past_told(one: &Told, file: u32, next: u64) -> u64
    ensures { result ≡ (if is_told file next one.now then next + 1 else next) }
{
    if one.file == file && u64::from(one.block) == next {
        u64::from(one.block) + 1
    } else {
        next
    }
}

/// The first block behind those from `from` on that these tell one behind another, in their order.
fn behind_told(told: &[Told], file: u32, from: u64) -> u64
    ensures { GoesOn (λ b. list_any (λ (t : seen.Told). is_told file b t) told.now) from result }
{
    let mut next = from;
    for one in told {
        next = past_told(one, file, next);
    }
    next
}

/// The first block behind a run where it has this one, and else the same one.
fn past_run(run: &Run, file: u32, next: u64) -> u64
    ensures { result ≡ (if is_in_run file next run.now then run.now.block + run.now.blocks else next) }
{
    let end = u64::from(run.block) + u64::from(run.blocks);
    if run.file == file && u64::from(run.block) <= next && next < end {
        end
    } else {
        next
    }
}

/// The first block behind those from `from` on that these runs have one behind another, in their order.
fn behind_runs(runs: &[Run], file: u32, from: u64) -> u64
    ensures { GoesOn (λ b. list_any (λ (r : stretch.Run). is_in_run file b r) runs.now) from result }
{
    let mut next = from;
    for run in runs {
        next = past_run(run, file, next);
    }
    next
}

/// The first block from `from` on that a restore doesn't write, or one from `upto` on behind blocks that it writes.
///
/// A table of a restore has its blocks in order. So it is gone through twice, and once more for each run at most.
fn first_unwritten(table: &RestoreTable, file: u32, from: u64, upto: u64) -> u64
    ensures from { from ≤ result }
    ensures written { (b : ℕ) → from ≤ b → b < result → is_written table.now file b ≡ true }
    ensures ends { result < upto → is_written table.now file result ≡ false }
{
    let mut next = from;
    for _round in from..upto {
        let told = behind_told(&table.told, file, next);
        let further = behind_runs(&table.runs, file, told);
        if further == next {
            return next;
        }
        next = further;
    }
    next
}

/// The first block of a structure file of so many blocks that a restore doesn't write and that isn't there whole.
pub(crate) fn short_in<S: Site>(
    site: &mut S,
    file: u32,
    count: u32,
    table: &RestoreTable,
) -> Result<Option<u32>, Failed>
    requires { 30000 < file }
    ensures found { IfOk result (λ b. IsTrue S.tells → FindsIn (S.files site.old) table.now file count b) }
    ensures files { IsTrue S.tells → S.files site.new ≡ S.files site.old }
    ensures said { S.said site.new ≡ S.said site.old }
    ensures same_site { S.same_site site.old site.new }
    ensures moments { Steps Same (S.clock site.old) (S.clock site.new) }
    ensures faults { HasCause (S.disk_faults site.old) (S.disk_faults site.new) result }
    ensures say_faults { S.say_faults site.new ≡ S.say_faults site.old }
{
    let whole = site.length(file)? / 1024;
    if whole >= u64::from(count) {
        return Ok(None);
    }
    let next = first_unwritten(table, file, whole, u64::from(count));
    if next < u64::from(count) {
        Ok(Some(next as u32))
    } else {
        Ok(None)
    }
}

/// The first block below these counts, of the files 30,001 and on, that a restore doesn't write and that isn't there whole. Nothing changes, and no block
/// is read.
pub fn first_short<S: Site>(
    site: &mut S,
    counts: &[u32],
    table: &RestoreTable,
) -> Result<Option<ShortBlock>, Failed>
    requires { length counts.now ≤ 200 }
    ensures found { IfOk result (λ s. IsTrue S.tells → Finds (S.files site.old) counts.now table.now s) }
    ensures files { IsTrue S.tells → S.files site.new ≡ S.files site.old }
    ensures said { S.said site.new ≡ S.said site.old }
    ensures same_site { S.same_site site.old site.new }
    ensures moments { Steps Same (S.clock site.old) (S.clock site.new) }
    ensures faults { HasCause (S.disk_faults site.old) (S.disk_faults site.new) result }
    ensures say_faults { S.say_faults site.new ≡ S.say_faults site.old }
{
    for number in 0..counts.len() {
        let file = 30_001 + number as u32;
        match short_in(site, file, counts[number], table) {
            Err(failed) => return Err(failed),
            Ok(Some(block)) => return Ok(Some(ShortBlock { file, block })),
            Ok(None) => {}
        }
    }
    Ok(None)
}
