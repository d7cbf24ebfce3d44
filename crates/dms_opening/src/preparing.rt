//! What is needed of a trail before the first write.

ghost use Rattle.std.specs.Prelude.{◌≡◌, ◌≤◌, ◌⊎◌, ◌++◌, ℕ, List, [], ◌∷◌, false, Some, min, length, OnOk, IfOk, IfErr, IsErrOf, IsTrue};
ghost use Rattle.dms_site.specs.Files.{Files};
ghost use Rattle.dms_history.specs.Entries as meaning;
ghost use Rattle.dms_history.specs.Entries.{begin_restore, how_of};
ghost use Rattle.dms_history.specs.History.{Pending};
ghost use Rattle.dms_history.specs.Pick.{count_at};
ghost use Rattle.dms_history.specs.declared.event.Row as named;
ghost use Rattle.dms_audfile.specs.Counting.{CountedAt};
ghost use Rattle.dms_audfile.specs.Reads.{ReadsAlone};
ghost use Rattle.dms_restore.specs.Counts.{count_of, AllAtMost};
ghost use Rattle.dms_restore.specs.declared.live.PendingAt as at;
ghost use Rattle.dms_restore.specs.Named.{HasNoBlock};
ghost use Rattle.dms_restore.specs.Planned.{AreCountsAt};
ghost use Rattle.dms_restore.specs.Table.{AreBlocks, AreRuns, IsPlan};
ghost use Rattle.dms_restore.specs.Tracing.{MatchesHow, IsTraced, TracesPending};
ghost use Rattle.dms_opening.specs.Doing.{kind_asked};
ghost use Rattle.dms_opening.specs.DumpLooks.{IsFitFound, IsFoundFor};
ghost use Rattle.dms_opening.specs.PointCounts.{IsNoCountAmong};
ghost use Rattle.dms_opening.specs.Starts.{TracesDone};

use crate::asked::Asked;
use crate::choosing::Choice;
use crate::dump_looks::DumpFound;
use crate::point_counts::counts_after;
use dms_audfile::AudFault;
use dms_history::Row;
use dms_restore::{HowAt, PendingAt, RestoreTable, TrailHistory, plan_of};
use dms_site::Site;
use std::alloc::{AllocError, Global};

/// How many of so many live entries the pending restore keeps.
fn kept_of(pending: Option<PendingAt>, live: usize) -> usize
    ensures within { result ≤ live }
    ensures kept { (q : at.PendingAt) → pending ≡ Some q → result ≡ min q.kept live }
{
    match pending {
        None => 0,
        Some(at) => at.kept.min(live),
    }
}

/// How the restore goes that is asked for.
fn how_asked(asked: Asked) -> HowAt
    ensures { (rows : List named.Row) → MatchesHow result rows (how_of (kind_asked asked rows)) }
{
    match asked {
        Asked::HaltLoad => HowAt::HaltLoad,
        Asked::Rollback(_) => HowAt::Rollback,
        Asked::Rebuild(dump, _) => HowAt::Rebuild(dump),
        Asked::Reconstruct(dump) => HowAt::Reconstruct(dump),
    }
}

/// Adds the Begin of the restore that is asked for, to a point.
pub(crate) fn begin_own(
    history: &mut TrailHistory,
    alloc: Global,
    point: u64,
    asked: Asked,
    rows: &[Row],
) -> Result<(), AllocError>
    ensures { OnOk result ((files : Files) (entries : List meaning.Entry) → IsTraced files entries history.old
        → IsTraced files (entries ++ begin_restore point (kind_asked asked rows.now) ∷ []) history.new) }
{
    let rows = rows.to_vec(alloc)?;
    history.begin(alloc, point, how_asked(asked), rows)
}

/// Adds the Begin of the restore that is asked for, where it begins.
pub(crate) fn begin_where(
    history: &mut TrailHistory,
    alloc: Global,
    choice: &Choice,
    asked: Asked,
    rows: &[Row],
) -> Result<(), AllocError>
    ensures traces { OnOk result ((files : Files) (p : Pending) → TracesDone files history.old asked rows.now choice.now p → TracesPending files history.new p) }
    ensures kept { choice.now.begins ≡ false → history.new ≡ history.old }
{
    if choice.begins {
        begin_own(history, alloc, choice.point, asked, rows)
    } else {
        Ok(())
    }
}

/// How many blocks each of the files 30,001 to 30,200 has at the point of the pending restore, in a table of 200 files.
///
/// Nothing changes. Faults as those of `counts_after`; Damaged is answered of no trail that was scanned.
pub(crate) fn pending_counts<S: Site>(
    history: &TrailHistory,
    alloc: Global,
    site: &mut S,
) -> Result<Vec<u32>, AudFault>
    ensures counts { IfOk result (λ v. IsTrue S.tells → (p : Pending) → TracesPending (S.files site.old) history.now p → (f : ℕ) → count_of v.items f ≡ count_at p.entries p.point f) }
    ensures size { IfOk result (λ v. length v.items ≡ 200) }
    ensures small { IfOk result (λ v. AllAtMost v.items) }
    ensures only { IfErr result (λ e. (e ≡ AudFault.Disk) ⊎ ((e ≡ AudFault.Memory) ⊎ IsNoCountAmong S.tells (S.files site.old) history.now.live.items e)) }
    ensures scanned { IfErr result (λ e. IsTrue S.tells → (p : Pending) → TracesPending (S.files site.old) history.now p → (e ≡ AudFault.Disk) ⊎ (e ≡ AudFault.Memory)) }
    ensures reads { ReadsAlone S.Site site.old site.new }
    ensures same_site { S.same_site site.old site.new }
    ensures disk { CountedAt (IsErrOf result AudFault.Disk) (S.disk_faults site.old) (S.disk_faults site.new) }
{
    let kept = kept_of(history.pending, history.live.len());
    counts_after(alloc, site, &history.live[..kept])
}

/// What the restore that is pending writes, by what its dump is found to be. Reads no file. Answers Memory, of a trail that was scanned.
pub(crate) fn pending_table(
    history: &TrailHistory,
    alloc: Global,
    counts: &[u32],
    found: &DumpFound,
) -> Result<RestoreTable, AudFault>
    requires small { AllAtMost counts.now }
    requires fit { IsFitFound found.now }
    ensures runs { IfOk result (λ t. AreRuns t.runs.items) }
    ensures blocks { IfOk result (λ t. AreBlocks t.told.items) }
    ensures plan { IfOk result (λ t. (files : Files) (p : Pending) → TracesPending files history.now p → AreCountsAt counts.now p → IsFoundFor files p.how found.now → IsPlan p files t) }
    ensures memory { IfErr result (λ e. (files : Files) (p : Pending) → TracesPending files history.now p → e ≡ AudFault.Memory) }
    ensures only { IfErr result (λ e. (e ≡ AudFault.Memory) ⊎ HasNoBlock history.now.live.items history.now.removed.items e) }
{
    match found {
        DumpFound::Sealed(head) => plan_of(alloc, history, counts, Some(head)),
        DumpFound::Missing => plan_of(alloc, history, counts, None),
        DumpFound::Unsealed => plan_of(alloc, history, counts, None),
        DumpFound::Damaged => plan_of(alloc, history, counts, None),
        DumpFound::Foreign => plan_of(alloc, history, counts, None),
    }
}

/// What the restore that is pending writes, and how many blocks each of the files 30,001 to 30,200 has at its point. `found` is what its dump is found
/// to be.
///
/// Nothing changes. Answers Disk where a call of the site failed, and Memory, of a trail that was scanned.
pub(crate) fn plan_pending<S: Site>(
    alloc: Global,
    site: &mut S,
    history: &TrailHistory,
    found: &DumpFound,
) -> Result<(RestoreTable, Vec<u32>), AudFault>
    requires fit { IsFitFound found.now }
    ensures runs { IfOk result (λ x. AreRuns x.0.runs.items) }
    ensures blocks { IfOk result (λ x. AreBlocks x.0.told.items) }
    ensures plan { IfOk result (λ x. IsTrue S.tells → (p : Pending) → TracesPending (S.files site.old) history.now p
        → (files : Files) → TracesPending files history.now p → IsFoundFor files p.how found.now → IsPlan p files x.0) }
    ensures counts { IfOk result (λ x. IsTrue S.tells → (p : Pending) → TracesPending (S.files site.old) history.now p → (f : ℕ) → count_of x.1.items f ≡ count_at p.entries p.point f) }
    ensures size { IfOk result (λ x. length x.1.items ≡ 200) }
    ensures small { IfOk result (λ x. AllAtMost x.1.items) }
    ensures only { IfErr result (λ e. IsTrue S.tells → (p : Pending) → TracesPending (S.files site.old) history.now p → (e ≡ AudFault.Disk) ⊎ (e ≡ AudFault.Memory)) }
    ensures reads { ReadsAlone S.Site site.old site.new }
    ensures same_site { S.same_site site.old site.new }
    ensures disk { CountedAt (IsErrOf result AudFault.Disk) (S.disk_faults site.old) (S.disk_faults site.new) }
{
    let counts = match pending_counts(history, alloc, site) {
        Ok(counts) => counts,
        Err(fault) => return Err(fault),
    };
    match pending_table(history, alloc, &counts, found) {
        Ok(table) => Ok((table, counts)),
        Err(fault) => Err(fault),
    }
}
