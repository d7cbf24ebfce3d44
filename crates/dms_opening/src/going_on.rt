//! A restore that is begun goes on to its Control.

ghost use Rattle.std.specs.Prelude.{◌≡◌, ◌⊎◌, ◌+◌, ◌/◌, ◌<◌, ◌≤◌, length, IfOk, IfErr, IsTrue};
ghost use Rattle.dms_moments.specs.Moments.{Runs};
ghost use Rattle.dms_history.specs.History.{Pending};
ghost use Rattle.dms_history.specs.Entries.{control_point};
ghost use Rattle.dms_audrec.specs.Spelling.{IsEntry};
ghost use Rattle.dms_audrec.specs.Reading.{counts_at};
ghost use Rattle.dms_audfile.specs.Counting.{CountedAt};
ghost use Rattle.dms_restore.specs.Counts.{AllAtMost};
ghost use Rattle.dms_restore.specs.Logging.{Ends, EndsSealed, LogGrows};
ghost use Rattle.dms_restore.specs.Parts.{SealsPart};
ghost use Rattle.dms_restore.specs.Planned.{AreCountsAt};
ghost use Rattle.dms_restore.specs.Views.{view_of, StaysSilent, LogStarts, IsSameTrail};
ghost use Rattle.dms_restore.specs.Laying.{schema_control};
ghost use Rattle.dms_restore.specs.Begins.{LeavesEach};
ghost use Rattle.dms_restore.specs.Over.{EndsOver, LeavesOver};
ghost use Rattle.dms_opening.specs.Claims.{IfGoesOn, IsFullAt, OverWhere};
ghost use Rattle.dms_opening.specs.Marking.{KeepsOrMarks};
ghost use Rattle.dms_opening.specs.Plans.{SameDumps};
ghost use Rattle.dms_opening.specs.Starts.{MayGoOn, OpenedAt};
ghost use Rattle.dms_restore.specs.Table.{AreBlocks, AreRuns, IsPlan};

use crate::marking::restore_marked;
use dms_audfile::AudFault;
use dms_restore::{Begun, Log, RestoreTable};
use dms_site::Site;

/// Marks what is missing, writes the blocks of the restore's point, and seals the description and the Control that end it. `blocks` are the counts of the files
/// 30,001 and on, and `counts` their bytes, as the Control has them.
pub(crate) fn go_on<S: Site>(
    begun: Begun<S>,
    table: &RestoreTable,
    blocks: &[u32],
    description: &[u8],
    point: u64,
    next: u64,
    counts: &[u8],
) -> Result<Log<S>, (AudFault, Log<S>)>
    requires runs { AreRuns table.now.runs.items }
    requires blocks { AreBlocks table.now.told.items }
    requires some { 0 < length description.now }
    requires few { length description.now ≤ 65535 }
    requires control { IsEntry (control_point point next (counts_at (length counts.now / 8) counts.now)) }
    requires size { length counts.now ≤ 1600 }
    requires files { length blocks.now ≤ 200 }
    requires small { AllAtMost blocks.now }
    ensures marked { IfOk result (λ l. (p : Pending) → IsTrue S.tells → IsPlan p (S.files begun.log.site) table.now → AreCountsAt blocks.now p → EndsSealed (view_of S.Site begun.log)
        → KeepsOrMarks p (S.files begun.log.site) (S.files l.site)) }
    ensures opened { IfOk result (λ l. let v = view_of S.Site begun.log in IfGoesOn S.tells v table.now point next counts.now (λ p. OpenedAt p v (view_of S.Site l) (schema_control description.now point next counts.now))) }
    ensures moments { IfOk result (λ l. (p : Pending) → IsTrue S.tells → MayGoOn p (view_of S.Site begun.log) table.now point next counts.now
        → LeavesEach (view_of S.Site begun.log) (view_of S.Site l)) }
    ensures stopped { IfErr result (λ e. (p : Pending) → IsTrue S.tells → MayGoOn p (view_of S.Site begun.log) table.now point next counts.now
        → LeavesEach (view_of S.Site begun.log) (view_of S.Site e.1)) }
    ensures over { IfOk result (λ l. let v = view_of S.Site begun.log in OverWhere S.tells v table.now (λ p. EndsOver p v (view_of S.Site l) (schema_control description.now point next counts.now))) }
    ensures over_moments { IfOk result (λ l. let v = view_of S.Site begun.log in OverWhere S.tells v table.now (λ p.
        Runs v.clock (S.clock l.site) (LeavesOver p v (schema_control description.now point next counts.now)))) }
    ensures over_stopped { IfErr result (λ e. let v = view_of S.Site begun.log in OverWhere S.tells v table.now (λ p.
        Runs v.clock (S.clock e.1.site) (LeavesOver p v (schema_control description.now point next counts.now)))) }
    ensures silent { IfOk result (λ l. (p : Pending) → IsTrue S.tells → MayGoOn p (view_of S.Site begun.log) table.now point next counts.now
        → StaysSilent S.Site begun.log.site l.site) }
    ensures silent_then { IfErr result (λ e. (p : Pending) → IsTrue S.tells → MayGoOn p (view_of S.Site begun.log) table.now point next counts.now
        → StaysSilent S.Site begun.log.site e.1.site) }
    ensures starts { IfOk result (λ l. (p : Pending) → IsTrue S.tells → IsPlan p (S.files begun.log.site) table.now → EndsSealed (view_of S.Site begun.log)
        → LogStarts (view_of S.Site l)) }
    ensures dumps { IfOk result (λ l. (p : Pending) → IsTrue S.tells → IsPlan p (S.files begun.log.site) table.now → EndsSealed (view_of S.Site begun.log)
        → SameDumps (S.files begun.log.site) (S.files l.site)) }
    ensures grown { IfOk result (λ l. (p : Pending) → IsTrue S.tells → IsPlan p (S.files begun.log.site) table.now → EndsSealed (view_of S.Site begun.log)
        → LogGrows 18 (view_of S.Site begun.log) (view_of S.Site l)) }
    ensures grown_then { IfErr result (λ e. (p : Pending) → IsTrue S.tells → IsPlan p (S.files begun.log.site) table.now → EndsSealed (view_of S.Site begun.log)
        → LogGrows 18 (view_of S.Site begun.log) (view_of S.Site e.1)) }
    ensures same { IfOk result (λ l. S.same_site begun.log.site l.site) }
    ensures same_then { IfErr result (λ e. S.same_site begun.log.site e.1.site) }
    ensures said { IfOk result (λ l. S.said l.site ≡ S.said begun.log.site) }
    ensures said_then { IfErr result (λ e. S.said e.1.site ≡ S.said begun.log.site) }
    ensures clean { IfOk result (λ l. S.disk_faults l.site ≡ S.disk_faults begun.log.site) }
    ensures only { IfErr result (λ e. (p : Pending) → IsTrue S.tells → IsPlan p (S.files begun.log.site) table.now
        → (e.0 ≡ AudFault.Disk) ⊎ (e.0 ≡ AudFault.Full begun.log.end.limit)) }
    ensures full { IfErr result (λ e. (p : Pending) → IsTrue S.tells → IsPlan p (S.files begun.log.site) table.now → e.0 ≡ AudFault.Full begun.log.end.limit
        → (e.1.end.used ≡ 0) × (10000 + begun.log.end.limit < e.1.end.file)) }
    ensures ends { IfErr result (λ e. (p : Pending) → IsTrue S.tells → IsPlan p (S.files begun.log.site) table.now → EndsSealed (view_of S.Site begun.log)
        → e.0 ≡ AudFault.Full begun.log.end.limit → Ends (view_of S.Site e.1)) }
    ensures part { IfErr result (λ e. let v = view_of S.Site begun.log in IfGoesOn S.tells v table.now point next counts.now (λ p. IsFullAt v e.0 → SealsPart v (view_of S.Site e.1) (schema_control description.now point next counts.now))) }
    ensures disk { IfErr result (λ e. CountedAt (e.0 ≡ AudFault.Disk) (S.disk_faults begun.log.site) (S.disk_faults e.1.site)) }
    ensures say_faults { IfOk result (λ l. S.say_faults l.site ≡ S.say_faults begun.log.site) }
    ensures say_faults_then { IfErr result (λ e. S.say_faults e.1.site ≡ S.say_faults begun.log.site) }
    ensures kind { IfOk result (λ l. IsSameTrail begun.log l) }
    ensures kind_then { IfErr result (λ e. IsSameTrail begun.log e.1) }
{
    match restore_marked(begun, blocks, table) {
        Ok(restored) => restored.finish(description, point, next, counts),
        Err(fault) => Err(fault),
    }
}
