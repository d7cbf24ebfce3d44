//! Blocks that a restore takes from a structure file that hasn't them whole: they are marked before it writes anything else, so that no later look takes
//! them for free slots.

ghost use Rattle.std.specs.Prelude.{◌≡◌, ◌≢◌, ◌≤◌, ◌<◌, ◌⊎◌, ℕ, length, OnOk, IfOk, IfErr, IsTrue};
ghost use Rattle.dms_base.specs.Causes.{HasCause};
ghost use Rattle.dms_moments.specs.Moments.{Steps};
ghost use Rattle.dms_site.specs.Files.{stored_of};
ghost use Rattle.dms_history.specs.History.{Pending};
ghost use Rattle.dms_audfile.specs.Counting.{CountedAt};
ghost use Rattle.dms_audfile.specs.TrailEntries.{trail_entries};
ghost use Rattle.dms_running.specs.Restoring.{Rewritten, Rewrites};
ghost use Rattle.dms_restore.specs.Begins.{BegunAt, RestoredAt, Restores, LeavesEach};
ghost use Rattle.dms_restore.specs.Counts.{AllAtMost};
ghost use Rattle.dms_restore.specs.Logging.{EndsSealed, LogGrows};
ghost use Rattle.dms_restore.specs.Over.{RewritesBy, WritesOver};
ghost use Rattle.dms_restore.specs.Planned.{AreCountsAt};
ghost use Rattle.dms_restore.specs.Table.{AreBlocks, AreRuns, IsPlan, SameLow};
ghost use Rattle.dms_restore.specs.Views.{view_of, StaysSilent, LogStarts};
ghost use Rattle.dms_opening.specs.Marking.{mark, IsBefore, StoodWhole, MarksIn, MarksShort, KeepsOrMarks};

use crate::short::short_in;
use dms_audfile::AudFault;
use dms_restore::{Begun, Log, RestoreTable, Restored};
use dms_site::{Failed, Site};

/// What is written as a block that is missing: it spells neither a slot nor a block of a list.
const MARK: [u8; 1024] = [0xFF; 1024];

/// Marks blocks of a structure file, from one on and below a count. Doesn't sync.
fn mark_blocks<S: Site>(site: &mut S, file: u32, from: u32, count: u32) -> Result<(), Failed>
    requires structure { 30000 < file }
    requires blocks { count ≤ 2097152 }
    ensures marked { OnOk result (IsTrue S.tells → (b : ℕ) → from ≤ b → b < count → stored_of (S.files site.new) file b ≡ mark) }
    ensures written { IsTrue S.tells → Rewritten (IsBefore file from) (S.files site.old) (S.files site.new) }
    ensures moments { IsTrue S.tells → Steps (Rewrites (IsBefore file from)) (S.clock site.old) (S.clock site.new) }
    ensures others { IsTrue S.tells → (g : ℕ) → g ≢ file → S.files site.new g ≡ S.files site.old g }
    ensures said { S.said site.new ≡ S.said site.old }
    ensures same_site { S.same_site site.old site.new }
    ensures faults { HasCause (S.disk_faults site.old) (S.disk_faults site.new) result }
    ensures say_faults { S.say_faults site.new ≡ S.say_faults site.old }
{
    for block in from..count {
        match site.write_at(file, 1024 * u64::from(block), &MARK) {
            Ok(()) => {}
            Err(failed) => return Err(failed),
        }
    }
    Ok(())
}

/// Marks the blocks of a structure file of so many blocks that a restore doesn't write and that aren't there whole, and those behind the first of them.
/// Where there is one, what was written before is synced first.
fn mark_in<S: Site>(site: &mut S, file: u32, count: u32, table: &RestoreTable) -> Result<(), Failed>
    requires structure { 30000 < file }
    requires blocks { count ≤ 2097152 }
    ensures marked { OnOk result (IsTrue S.tells → MarksIn (S.files site.old) table.now file count (S.files site.new)) }
    ensures written { IsTrue S.tells → Rewritten StoodWhole (S.files site.old) (S.files site.new) }
    ensures moments { IsTrue S.tells → Steps (Rewrites StoodWhole) (S.clock site.old) (S.clock site.new) }
    ensures others { IsTrue S.tells → (g : ℕ) → g ≢ file → S.files site.new g ≡ S.files site.old g }
    ensures said { S.said site.new ≡ S.said site.old }
    ensures same_site { S.same_site site.old site.new }
    ensures faults { HasCause (S.disk_faults site.old) (S.disk_faults site.new) result }
    ensures say_faults { S.say_faults site.new ≡ S.say_faults site.old }
{
    match short_in(site, file, count, table) {
        Ok(None) => Ok(()),
        Ok(Some(first)) => match site.sync() {
            Ok(()) => mark_blocks(site, file, first, count),
            Err(failed) => Err(failed),
        },
        Err(failed) => Err(failed),
    }
}

/// Marks each block below these counts, of the files 30,001 and on, that a restore doesn't write and that isn't there whole. Of a file that has one, those
/// behind the first of them are marked, too: the restore writes them behind that. Where none is missing nothing is written.
fn mark_short<S: Site>(site: &mut S, counts: &[u32], table: &RestoreTable) -> Result<(), Failed>
    requires few { length counts.now ≤ 200 }
    requires small { AllAtMost counts.now }
    ensures marked { OnOk result (IsTrue S.tells → MarksShort (S.files site.old) counts.now table.now (S.files site.new)) }
    ensures written { IsTrue S.tells → Rewritten StoodWhole (S.files site.old) (S.files site.new) }
    ensures moments { IsTrue S.tells → Steps (Rewrites StoodWhole) (S.clock site.old) (S.clock site.new) }
    ensures said { S.said site.new ≡ S.said site.old }
    ensures same_site { S.same_site site.old site.new }
    ensures faults { HasCause (S.disk_faults site.old) (S.disk_faults site.new) result }
    ensures say_faults { S.say_faults site.new ≡ S.say_faults site.old }
{
    for number in 0..counts.len() {
        match mark_in(site, 30_001 + number as u32, counts[number], table) {
            Ok(()) => {}
            Err(failed) => return Err(failed),
        }
    }
    Ok(())
}

/// Marks what is missing of a database over which a restore is begun.
fn mark_begun<S: Site>(
    begun: Begun<S>,
    counts: &[u32],
    table: &RestoreTable,
) -> Result<Begun<S>, (AudFault, Log<S>)>
    requires few { length counts.now ≤ 200 }
    requires small { AllAtMost counts.now }
    ensures marked { IfOk result (λ b. IsTrue S.tells → MarksShort (S.files begun.log.site) counts.now table.now (S.files b.log.site)) }
    ensures written { IfOk result (λ b. IsTrue S.tells → Rewritten StoodWhole (S.files begun.log.site) (S.files b.log.site)) }
    ensures written_then { IfErr result (λ e. IsTrue S.tells → Rewritten StoodWhole (S.files begun.log.site) (S.files e.1.site)) }
    ensures moments { IfOk result (λ b. IsTrue S.tells → Steps (Rewrites StoodWhole) (S.clock begun.log.site) (S.clock b.log.site)) }
    ensures moments_then { IfErr result (λ e. IsTrue S.tells → Steps (Rewrites StoodWhole) (S.clock begun.log.site) (S.clock e.1.site)) }
    ensures kind { IfOk result (λ b. (b.log.end ≡ begun.log.end) × (b.log.first ≡ begun.log.first)) }
    ensures kind_then { IfErr result (λ e. (e.1.end ≡ begun.log.end) × (e.1.first ≡ begun.log.first)) }
    ensures same { IfOk result (λ b. S.same_site begun.log.site b.log.site) }
    ensures same_then { IfErr result (λ e. S.same_site begun.log.site e.1.site) }
    ensures said { IfOk result (λ b. S.said b.log.site ≡ S.said begun.log.site) }
    ensures said_then { IfErr result (λ e. S.said e.1.site ≡ S.said begun.log.site) }
    ensures clean { IfOk result (λ b. S.disk_faults b.log.site ≡ S.disk_faults begun.log.site) }
    ensures only { IfErr result (λ e. e.0 ≡ AudFault.Disk) }
    ensures disk { IfErr result (λ e. CountedAt (e.0 ≡ AudFault.Disk) (S.disk_faults begun.log.site) (S.disk_faults e.1.site)) }
    ensures say_faults { IfOk result (λ b. S.say_faults b.log.site ≡ S.say_faults begun.log.site) }
    ensures say_faults_then { IfErr result (λ e. S.say_faults e.1.site ≡ S.say_faults begun.log.site) }
{
    let Begun { log } = begun;
    let Log {
        mut site,
        end,
        first,
    } = log;
    match mark_short(&mut site, counts, table) {
        Ok(()) => Ok(Begun {
            log: Log { site, end, first },
        }),
        Err(_) => Err((AudFault::Disk, Log { site, end, first })),
    }
}

/// Marks what is missing, then writes the blocks of a restore, and syncs: each block below these counts, which are those at its point, that it takes from what
/// is stored stands as it did where it was whole, and else as a mark.
pub(crate) fn restore_marked<S: Site>(
    begun: Begun<S>,
    counts: &[u32],
    table: &RestoreTable,
) -> Result<Restored<S>, (AudFault, Log<S>)>
    requires few { length counts.now ≤ 200 }
    requires small { AllAtMost counts.now }
    requires runs { AreRuns table.now.runs.items }
    requires blocks { AreBlocks table.now.told.items }
    ensures marked { IfOk result (λ r. (p : Pending) → IsTrue S.tells → IsPlan p (S.files begun.log.site) table.now → AreCountsAt counts.now p
        → KeepsOrMarks p (S.files begun.log.site) (S.files r.log.site)) }
    ensures begun { IfOk result (λ r. (p : Pending) → IsTrue S.tells → BegunAt p (view_of S.Site begun.log) → IsPlan p (S.files begun.log.site) table.now
        → BegunAt p (view_of S.Site r.log)) }
    ensures restored { IfOk result (λ r. (p : Pending) → IsTrue S.tells → BegunAt p (view_of S.Site begun.log) → IsPlan p (S.files begun.log.site) table.now
        → RestoredAt p (view_of S.Site r.log)) }
    ensures keeps { IfOk result (λ r. (p : Pending) → IsTrue S.tells → BegunAt p (view_of S.Site begun.log) → IsPlan p (S.files begun.log.site) table.now
        → Restores p (view_of S.Site begun.log) (view_of S.Site r.log)) }
    ensures entries { IfOk result (λ r. IsTrue S.tells → begun.log.first ≤ 20000
        → trail_entries begun.log.end.total begun.log.first (S.files r.log.site) ≡ trail_entries begun.log.end.total begun.log.first (S.files begun.log.site)) }
    ensures low { IfOk result (λ r. IsTrue S.tells → SameLow (S.files begun.log.site) (S.files r.log.site)) }
    ensures moments { IfOk result (λ r. (p : Pending) → IsTrue S.tells → BegunAt p (view_of S.Site begun.log) → IsPlan p (S.files begun.log.site) table.now
        → LeavesEach (view_of S.Site begun.log) (view_of S.Site r.log)) }
    ensures stopped { IfErr result (λ e. (p : Pending) → IsTrue S.tells → BegunAt p (view_of S.Site begun.log) → IsPlan p (S.files begun.log.site) table.now
        → LeavesEach (view_of S.Site begun.log) (view_of S.Site e.1)) }
    ensures over { IfOk result (λ r. (p : Pending) → IsTrue S.tells → IsPlan p (S.files begun.log.site) table.now
        → WritesOver p (S.files begun.log.site) (S.files r.log.site)) }
    ensures rewrites { IfOk result (λ r. (p : Pending) → IsTrue S.tells → IsPlan p (S.files begun.log.site) table.now
        → RewritesBy p (S.clock begun.log.site) (S.clock r.log.site)) }
    ensures rewrites_then { IfErr result (λ e. (p : Pending) → IsTrue S.tells → IsPlan p (S.files begun.log.site) table.now
        → RewritesBy p (S.clock begun.log.site) (S.clock e.1.site)) }
    ensures stays { IfOk result (λ r. (p : Pending) → IsTrue S.tells → IsPlan p (S.files begun.log.site) table.now
        → EndsSealed (view_of S.Site begun.log) → LogStarts (view_of S.Site r.log)) }
    ensures grown { IfOk result (λ r. IsTrue S.tells → EndsSealed (view_of S.Site begun.log) → LogGrows 0 (view_of S.Site begun.log) (view_of S.Site r.log)) }
    ensures grown_then { IfErr result (λ e. IsTrue S.tells → EndsSealed (view_of S.Site begun.log) → LogGrows 0 (view_of S.Site begun.log) (view_of S.Site e.1)) }
    ensures silent { IfOk result (λ r. (p : Pending) → IsTrue S.tells → IsPlan p (S.files begun.log.site) table.now → StaysSilent S.Site begun.log.site r.log.site) }
    ensures silent_then { IfErr result (λ e. (p : Pending) → IsTrue S.tells → IsPlan p (S.files begun.log.site) table.now → StaysSilent S.Site begun.log.site e.1.site) }
    ensures same { IfOk result (λ r. S.same_site begun.log.site r.log.site) }
    ensures same_then { IfErr result (λ e. S.same_site begun.log.site e.1.site) }
    ensures said { IfOk result (λ r. S.said r.log.site ≡ S.said begun.log.site) }
    ensures said_then { IfErr result (λ e. S.said e.1.site ≡ S.said begun.log.site) }
    ensures clean { IfOk result (λ r. S.disk_faults r.log.site ≡ S.disk_faults begun.log.site) }
    ensures only { IfErr result (λ e. (p : Pending) → IsTrue S.tells → IsPlan p (S.files begun.log.site) table.now → e.0 ≡ AudFault.Disk) }
    ensures disk { IfErr result (λ e. CountedAt (e.0 ≡ AudFault.Disk) (S.disk_faults begun.log.site) (S.disk_faults e.1.site)) }
    ensures say_faults { IfOk result (λ r. S.say_faults r.log.site ≡ S.say_faults begun.log.site) }
    ensures say_faults_then { IfErr result (λ e. S.say_faults e.1.site ≡ S.say_faults begun.log.site) }
    ensures kind { IfOk result (λ r. (r.log.end ≡ begun.log.end) × (r.log.first ≡ begun.log.first)) }
    ensures kind_then { IfErr result (λ e. (e.1.end ≡ begun.log.end) × (e.1.first ≡ begun.log.first)) }
{
    match mark_begun(begun, counts, table) {
        Ok(marked) => marked.restore(table),
        Err(fault) => Err(fault),
    }
}
