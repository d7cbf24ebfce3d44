//! What the restore that is pending writes.

ghost use Rattle.std.specs.Prelude.{◌≡◌, ◌⊎◌, ◌≤◌, List, [], Some, IfOk, IfErr, IfNone, IfSome};
ghost use Rattle.std.specs.Option.{option_copied};
ghost use Rattle.dms_site.specs.Files.{Files};
ghost use Rattle.dms_history.specs.Events.{rebuild, reconstruct};
ghost use Rattle.dms_history.specs.History.{Pending};
ghost use Rattle.dms_history.specs.Entries as meaning;
ghost use Rattle.dms_history.specs.Entries.{named_by};
ghost use Rattle.dms_restore.specs.Counts.{AllAtMost};
ghost use Rattle.dms_restore.specs.Named.{HasNoBlock, IsTableOf};
ghost use Rattle.dms_restore.specs.Planned.{HasHead, IsHeadFor, IsFitHead, AreCountsAt, PlansDump, PlansCut, PlansPending};
ghost use Rattle.dms_restore.specs.Table.{AreBlocks, AreRuns, IsPlan};
ghost use Rattle.dms_restore.specs.Tracing.{IsTraced, TracesPending};

use crate::dump_runs::{all_runs, row_runs};
use crate::placing::behind_place;
use crate::table::{table_between, table_by_rows, table_of};
use crate::{HowAt, LiveEntry, PendingAt, RestoreTable, TrailHistory};
use dms_audfile::AudFault;
use dms_dump::DumpHead;
use dms_history::Row;
use std::alloc::Global;

/// What a restore by the audit writes.
fn plan_by_audit(
    alloc: Global,
    front: &[LiveEntry],
    behind: &[LiveEntry],
) -> Result<RestoreTable, AudFault>
    ensures runs { IfOk result (λ t. t.runs.items ≡ []) }
    ensures blocks { IfOk result (λ t. AreBlocks t.told.items) }
    ensures table { IfOk result (λ t. IsTableOf front.now behind.now t.told.items) }
    ensures only { IfErr result (λ e. (e ≡ AudFault.Memory) ⊎ HasNoBlock front.now behind.now e) }
{
    match table_of(alloc, front, behind) {
        Ok(told) => Ok(RestoreTable {
            runs: Vec::new(alloc),
            told,
        }),
        Err(fault) => Err(fault),
    }
}

/// What a rebuild writes. The entries behind the point tell nothing of it.
fn plan_rebuild(
    alloc: Global,
    front: &[LiveEntry],
    _behind: &[LiveEntry],
    dump: u16,
    head: &DumpHead,
    counts: &[u32],
) -> Result<RestoreTable, AudFault>
    requires fit { IsFitHead head.now }
    requires small { AllAtMost counts.now }
    requires number { dump ≤ 9999 }
    ensures runs { IfOk result (λ t. AreRuns t.runs.items) }
    ensures blocks { IfOk result (λ t. AreBlocks t.told.items) }
    ensures plan { IfOk result (λ t. PlansDump (rebuild dump) dump head.now counts.now front.now _behind.now t.runs.items t.told.items) }
    ensures only { IfErr result (λ e. (e ≡ AudFault.Memory) ⊎ HasNoBlock front.now _behind.now e) }
{
    let runs = match all_runs(alloc, head, dump, counts) {
        Ok(runs) => runs,
        Err(_) => return Err(AudFault::Memory),
    };
    let from = behind_place(front, head.point);
    match table_between(alloc, front, from) {
        Ok(told) => Ok(RestoreTable { runs, told }),
        Err(fault) => Err(fault),
    }
}

/// What a reconstruction writes.
fn plan_reconstruct(
    alloc: Global,
    front: &[LiveEntry],
    behind: &[LiveEntry],
    rows: &[Row],
    dump: u16,
    head: &DumpHead,
    counts: &[u32],
) -> Result<RestoreTable, AudFault>
    requires fit { IsFitHead head.now }
    requires small { AllAtMost counts.now }
    requires number { dump ≤ 9999 }
    ensures runs { IfOk result (λ t. AreRuns t.runs.items) }
    ensures blocks { IfOk result (λ t. AreBlocks t.told.items) }
    ensures plan { IfOk result (λ t. PlansDump (reconstruct dump (named_by rows.now)) dump head.now counts.now front.now behind.now t.runs.items t.told.items) }
    ensures only { IfErr result (λ e. (e ≡ AudFault.Memory) ⊎ HasNoBlock front.now behind.now e) }
{
    let runs = match row_runs(alloc, head, dump, counts, rows) {
        Ok(runs) => runs,
        Err(_) => return Err(AudFault::Memory),
    };
    let from = behind_place(front, head.point);
    match table_by_rows(alloc, front, from, behind, rows) {
        Ok(told) => Ok(RestoreTable { runs, told }),
        Err(fault) => Err(fault),
    }
}

/// Nothing.
fn plan_nothing(alloc: Global) -> RestoreTable
    ensures runs { result.runs.items ≡ [] }
    ensures told { result.told.items ≡ [] }
{
    RestoreTable {
        runs: Vec::new(alloc),
        told: Vec::new(alloc),
    }
}

/// The head of a dump, where it is given and its number is one of a dump.
fn head_for(dump: u16, head: Option<&DumpHead>) -> Option<&DumpHead>
    ensures some { IfSome result (λ h. (dump ≤ 9999) × (head.entry ≡ Some h)) }
    ensures none { IfNone result ((files : Files) → HasHead files dump (option_copied head.entry) → ⊥) }
{
    if dump == 0 || dump > 9999 { None } else { head }
}

/// What a restore writes, from the entries up to the place of its point and those behind it.
fn plan_cut(
    alloc: Global,
    front: &[LiveEntry],
    behind: &[LiveEntry],
    rows: &[Row],
    how: HowAt,
    counts: &[u32],
    head: Option<&DumpHead>,
) -> Result<RestoreTable, AudFault>
    requires small { AllAtMost counts.now }
    requires fit { IfSome (option_copied head) IsFitHead }
    ensures runs { IfOk result (λ t. AreRuns t.runs.items) }
    ensures blocks { IfOk result (λ t. AreBlocks t.told.items) }
    ensures plan { IfOk result (λ t. PlansCut how rows.now (option_copied head.entry) counts.now front.now behind.now t) }
    ensures only { IfErr result (λ e. (e ≡ AudFault.Memory) ⊎ HasNoBlock front.now behind.now e) }
{
    match how {
        HowAt::HaltLoad => plan_by_audit(alloc, front, behind),
        HowAt::BackOut => plan_by_audit(alloc, front, behind),
        HowAt::Rollback => plan_by_audit(alloc, front, behind),
        HowAt::Rebuild(dump) => match head_for(dump, head) {
            Some(head) => plan_rebuild(alloc, front, behind, dump, head, counts),
            None => Ok(plan_nothing(alloc)),
        },
        HowAt::Reconstruct(dump) => match head_for(dump, head) {
            Some(head) => plan_reconstruct(alloc, front, behind, rows, dump, head, counts),
            None => Ok(plan_nothing(alloc)),
        },
    }
}

/// What a restore writes, from the live entries and those that its Begin removed.
fn plan_at(
    alloc: Global,
    live: &[LiveEntry],
    removed: &[LiveEntry],
    rows: &[Row],
    at: PendingAt,
    counts: &[u32],
    head: Option<&DumpHead>,
) -> Result<RestoreTable, AudFault>
    requires small { AllAtMost counts.now }
    requires fit { IfSome (option_copied head) IsFitHead }
    ensures runs { IfOk result (λ t. AreRuns t.runs.items) }
    ensures blocks { IfOk result (λ t. AreBlocks t.told.items) }
    ensures plan { IfOk result (PlansPending live.now removed.now rows.now at counts.now (option_copied head.entry)) }
    ensures only { IfErr result (λ e. (e ≡ AudFault.Memory) ⊎ HasNoBlock live.now removed.now e) }
{
    let front = &live[..at.kept.min(live.len())];
    if at.has_place {
        plan_cut(alloc, front, removed, rows, at.how, counts, head)
    } else {
        plan_cut(alloc, front, &[], rows, at.how, counts, head)
    }
}

/// What the restore that is pending writes; nothing where none is pending. `counts` says how many blocks each of the files 30,001 and on has at
/// its point; `head` is the head of its dump, as it was read. A restore by the audit needs none.
///
/// Reads no file. Answers Memory, and Damaged where an Image or a Range isn't of a block of a structure file, which is so of no trail that was
/// scanned.
pub fn plan_of(
    alloc: Global,
    history: &TrailHistory,
    counts: &[u32],
    head: Option<&DumpHead>,
) -> Result<RestoreTable, AudFault>
    requires small { AllAtMost counts.now }
    requires fit { IfSome (option_copied head) IsFitHead }
    ensures runs { IfOk result (λ t. AreRuns t.runs.items) }
    ensures blocks { IfOk result (λ t. AreBlocks t.told.items) }
    ensures plan { IfOk result (λ t. (files : Files) (p : Pending) → TracesPending files history.now p → AreCountsAt counts.now p → IsHeadFor files p.how (option_copied head.entry)
        → IsPlan p files t) }
    ensures only { IfErr result (λ e. (e ≡ AudFault.Memory) ⊎ HasNoBlock history.now.live.items history.now.removed.items e) }
    ensures memory { IfErr result (λ e. (files : Files) (entries : List meaning.Entry) → IsTraced files entries history.now → e ≡ AudFault.Memory) }
{
    match history.pending {
        None => Ok(plan_nothing(alloc)),
        Some(at) => plan_at(
            alloc,
            &history.live,
            &history.removed,
            &history.rows,
            at,
            counts,
            head,
        ),
    }
}
