//! Structure files are brought to what the entries of a copy tell.

ghost use Rattle.std.specs.Prelude.{◌≡◌, ◌≤◌, ◌++◌, [], ◌∷◌, ℕ, List, if◌then◌else◌, length, take, IfOk, IfErr, IsTrue};
ghost use Rattle.dms_moments.specs.Moments.{Steps};
ghost use Rattle.dms_site.specs.Files.{Files, Only};
ghost use Rattle.dms_history.specs.Entries.{Entry};
ghost use Rattle.dms_audfile.specs.Counting.{CountedAt};
ghost use Rattle.dms_follow.specs.Laws.{MaySettle, settler};
ghost use Rattle.dms_restore.specs.declared.live.LiveEntry.TheVariants.{Quiet};
ghost use Rattle.dms_restore.specs.Named.{IsTableOf};
ghost use Rattle.dms_restore.specs.Table.{AreBlocks, AreRuns, IsPlan, Writes};
ghost use Rattle.dms_restore.specs.Tracing.{IsTraced};
ghost use Rattle.dms_remote.specs.Settling.{no_point, HoldsCopy, StaysCopy, IsSettled, SameHistory};

use dms_audfile::AudFault;
use dms_restore::{
    Begun, LiveEntry, Log, PendingAt, RestoreTable, Restored, Told, TrailHistory, table_of,
};
use dms_site::Site;
use std::alloc::Global;

/// A number that no quiet point has.
const NO_POINT: u64 = 18_446_744_073_709_551_615;

/// What live entries tell of each block since the last Control.
fn told_now(alloc: Global, live: &mut Vec<LiveEntry>) -> Result<Vec<Told>, AudFault>
    ensures blocks { IfOk result (λ v. AreBlocks v.items) }
    ensures table { IfOk result (λ v. IsTableOf (live.old.items ++ Quiet no_point ∷ []) [] v.items) }
    ensures only { IfErr result (λ e. e ≡ AudFault.Memory) }
    ensures kept { live.new.items ≡ live.old.items }
{
    match live.push(LiveEntry::Quiet(NO_POINT)) {
        Ok(()) => {}
        Err(_) => return Err(AudFault::Memory),
    }
    let told = table_of(alloc, live.as_slice(), &[]);
    let _quiet = live.pop();
    match told {
        Ok(told) => Ok(told),
        Err(_) => Err(AudFault::Memory),
    }
}

/// What the audit tells of each block at the point of a restore that is pending.
fn told_pending(
    alloc: Global,
    live: &[LiveEntry],
    removed: &[LiveEntry],
    at: PendingAt,
) -> Result<Vec<Told>, AudFault>
    ensures blocks { IfOk result (λ v. AreBlocks v.items) }
    ensures table { IfOk result (λ v. at.kept ≤ length live.now → IsTableOf (take at.kept live.now) (if at.has_place then removed.now else []) v.items) }
    ensures only { IfErr result (λ e. e ≡ AudFault.Memory) }
{
    let front = &live[..at.kept.min(live.len())];
    let told = if at.has_place {
        table_of(alloc, front, removed)
    } else {
        table_of(alloc, front, &[])
    };
    match told {
        Ok(told) => Ok(told),
        Err(_) => Err(AudFault::Memory),
    }
}

/// What settling writes of each block: as the restore that is pending, or as one to a point that would be made now.
fn told_settled(alloc: Global, history: &mut TrailHistory) -> Result<Vec<Told>, AudFault>
    ensures blocks { IfOk result (λ v. AreBlocks v.items) }
    ensures plan { IfOk result (λ v. (files : Files) (es : List Entry) → IsTraced files es history.old → MaySettle es no_point → Writes (settler es no_point) files [] v.items) }
    ensures only { IfErr result (λ e. e ≡ AudFault.Memory) }
    ensures kept { SameHistory history.old history.new }
{
    match history.pending {
        None => told_now(alloc, &mut history.live),
        Some(at) => told_pending(alloc, &history.live, &history.removed, at),
    }
}

/// What settling writes.
fn plan_settling(alloc: Global, history: &mut TrailHistory) -> Result<RestoreTable, AudFault>
    ensures runs { IfOk result (λ t. AreRuns t.runs.items) }
    ensures blocks { IfOk result (λ t. AreBlocks t.told.items) }
    ensures plan { IfOk result (λ t. (files : Files) (es : List Entry) → IsTraced files es history.old → MaySettle es no_point → IsPlan (settler es no_point) files t) }
    ensures only { IfErr result (λ e. e ≡ AudFault.Memory) }
    ensures kept { SameHistory history.old history.new }
{
    match told_settled(alloc, history) {
        Ok(told) => Ok(RestoreTable {
            runs: Vec::new(alloc),
            told,
        }),
        Err(fault) => Err(fault),
    }
}

/// Writes each block that the entries of a copy tell since the last Control, or that the restore writes that is pending, and syncs. It must be one
/// by the audit.
///
/// A stop at any moment leaves the same copy. Answers Disk where a call of the site failed, and Memory.
pub fn settle<S: Site>(
    alloc: Global,
    log: Log<S>,
    history: &mut TrailHistory,
) -> Result<Log<S>, (AudFault, Log<S>)>
    ensures moments { IfOk result (λ l. (head : List ℕ) (blocks : List (List ℕ)) → IsTrue S.tells → HoldsCopy log.end history.old head blocks (S.files log.site) → Only (S.files log.site) (S.clock log.site)
        → Steps (StaysCopy log.end.total log.end.tag head blocks) (S.clock log.site) (S.clock l.site)) }
    ensures stopped { IfErr result (λ e. (head : List ℕ) (blocks : List (List ℕ)) → IsTrue S.tells → HoldsCopy log.end history.old head blocks (S.files log.site) → Only (S.files log.site) (S.clock log.site)
        → Steps (StaysCopy log.end.total log.end.tag head blocks) (S.clock log.site) (S.clock e.1.site)) }
    ensures settled { IfOk result (λ l. (head : List ℕ) (blocks : List (List ℕ)) → IsTrue S.tells → HoldsCopy log.end history.old head blocks (S.files log.site) → IsSettled l.end head blocks (S.files l.site)) }
    ensures durable { IfOk result (λ l. IsTrue S.tells → Only (S.files l.site) (S.clock l.site)) }
    ensures kept { SameHistory history.old history.new }
    ensures kind { IfOk result (λ l. (l.end ≡ log.end) × (l.first ≡ log.first)) }
    ensures said { IfOk result (λ l. S.said l.site ≡ S.said log.site) }
    ensures said_then { IfErr result (λ e. S.said e.1.site ≡ S.said log.site) }
    ensures same { IfOk result (λ l. S.same_site log.site l.site) }
    ensures same_then { IfErr result (λ e. S.same_site log.site e.1.site) }
    ensures clean { IfOk result (λ l. S.disk_faults l.site ≡ S.disk_faults log.site) }
    ensures disk { IfErr result (λ e. CountedAt (e.0 ≡ AudFault.Disk) (S.disk_faults log.site) (S.disk_faults e.1.site)) }
    ensures say_faults { IfOk result (λ l. S.say_faults l.site ≡ S.say_faults log.site) }
    ensures say_faults_then { IfErr result (λ e. S.say_faults e.1.site ≡ S.say_faults log.site) }
{
    let table = match plan_settling(alloc, history) {
        Ok(table) => table,
        Err(fault) => return Err((fault, log)),
    };
    let begun = Begun { log };
    match begun.restore(&table) {
        Ok(restored) => {
            let Restored { mut log } = restored;
            match log.site.sync() {
                Ok(()) => Ok(log),
                Err(_) => Err((AudFault::Disk, log)),
            }
        }
        Err(refused) => Err(refused),
    }
}
