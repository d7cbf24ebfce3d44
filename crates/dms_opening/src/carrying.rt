//! A plan is carried out: the restore is begun, its blocks are written, and it is ended.

ghost use Rattle.std.specs.Prelude.{◌≡◌, ◌≤◌, length, IfOk, IfErr, IsTrue};
ghost use Rattle.dms_moments.specs.Moments.{Runs};
ghost use Rattle.dms_history.specs.Entries.{by_halt_load};
ghost use Rattle.dms_history.specs.Events.{Stored};
ghost use Rattle.dms_history.specs.History.{Pending};
ghost use Rattle.dms_audrec.specs.Seen.{how_seen};
ghost use Rattle.dms_audrec.specs.Spelling.{IsRestoreKind, rows_of};
ghost use Rattle.dms_audfile.specs.Counting.{CountedAt};
ghost use Rattle.dms_running.specs.AnyBegun.{BeginLeaves};
ghost use Rattle.dms_running.specs.Standing.{IsWhole};
ghost use Rattle.dms_restore.specs.Begins.{AnyLeaves};
ghost use Rattle.dms_restore.specs.Logging.{LogGrows, telling, state, view};
ghost use Rattle.dms_restore.specs.Planned.{AreCountsAt};
ghost use Rattle.dms_restore.specs.Views.{view_of, LogStarts};
ghost use Rattle.dms_wal.specs.Closing.{IsFullTrail};
ghost use Rattle.dms_opening.specs.Carrying.{IsFitPlan, IsPlanned, WritesFor, MayBegin, RunsTo};
ghost use Rattle.dms_restore.specs.Over.{EndsOver, LeavesOver};
ghost use Rattle.dms_opening.specs.Claims.{RunsAsPlanned, ReopensAsPlanned, BeginsAsPlanned, GoesOnWhere, ends_of};
ghost use Rattle.dms_opening.specs.Marking.{KeepsOrMarks};
ghost use Rattle.dms_opening.specs.Plans.{SameDumps};
ghost use Rattle.dms_opening.specs.Openings.{RunsFrom, Reopens, text_of, IsFullFault, MayHaveWritten};

use crate::going_on::go_on;
use crate::starting::start;
use crate::{OpenFault, Opened, OpeningPlan, PlannedOpening};
use dms_audfile::AudFault;
use dms_audrec::BeginHow;
use dms_restore::{Log, count_bytes};
use dms_site::Site;

/// The site of a log. Makes no call of it.
pub fn site_of<S: Site>(log: Log<S>) -> S
    ensures { result ≡ log.site }
{
    let Log {
        site,
        end: _end,
        first: _,
    } = log;
    site
}

/// Begins the restore of a plan, which is of this kind, or goes on with the pending one, marks the blocks that it would take from where a structure file has
/// none, writes its blocks, and ends it.
pub fn carry_out<S: Site>(
    planned: PlannedOpening<S>,
    how: BeginHow<'_>,
) -> Result<Opened<S>, (OpenFault, S)>
    requires ready { IsFitPlan planned.plan }
    requires kind { IsRestoreKind (how_seen how) }
    requires few { length (rows_of (how_seen how)) ≤ 100 }
    requires limit { planned.log.end.limit ≡ 9999 }
    ensures runs { IfOk result (λ o. RunsAsPlanned S.tells (how_seen how.entry) (view_of S.Site planned.log) planned.plan (view_of S.Site o.log)) }
    ensures moments { IfOk result (λ o. ReopensAsPlanned S.tells (how_seen how.entry) (view_of S.Site planned.log) planned.plan (text_of S.Site planned.log.site) (S.clock o.log.site)) }
    ensures stopped { IfErr result (λ e. ReopensAsPlanned S.tells (how_seen how.entry) (view_of S.Site planned.log) planned.plan (text_of S.Site planned.log.site) (S.clock e.1)) }
    ensures runs_to { IfOk result (λ o. (right : Stored) → IsTrue S.tells → let v = view_of S.Site planned.log in MayBegin v right (how_seen how.entry) planned.plan
        → RunsTo v right (how_seen how.entry) planned.plan (view_of S.Site o.log)) }
    ensures leaves { IfOk result (λ o. (right : Stored) → IsTrue S.tells → let v = view_of S.Site planned.log in MayBegin v right (how_seen how.entry) planned.plan
        → AnyLeaves v right planned.plan.choice.point (view_of S.Site o.log)) }
    ensures leaves_then { IfErr result (λ e. BeginsAsPlanned S.tells (how_seen how.entry) (view_of S.Site planned.log) planned.plan (S.clock e.1)) }
    ensures over { IfOk result (λ o. let v = view_of S.Site planned.log in GoesOnWhere S.tells v planned.plan (λ p. EndsOver p v (view_of S.Site o.log) (ends_of planned.plan))) }
    ensures over_moments { IfOk result (λ o. let v = view_of S.Site planned.log in GoesOnWhere S.tells v planned.plan (λ p.
        Runs v.clock (S.clock o.log.site) (LeavesOver p v (ends_of planned.plan)))) }
    ensures over_stopped { IfErr result (λ e. let v = view_of S.Site planned.log in GoesOnWhere S.tells v planned.plan (λ p.
        Runs v.clock (S.clock e.1) (LeavesOver p v (ends_of planned.plan)))) }
    ensures only { IfErr result (λ e. (p : Pending) → IsTrue S.tells → WritesFor (view_of S.Site planned.log) p planned.plan → MayHaveWritten e.0) }
    ensures full { IfErr result (λ e. (p : Pending) → IsTrue S.tells → WritesFor (view_of S.Site planned.log) p planned.plan → IsFullFault e.0 → IsFullTrail (view_of S.Site planned.log) (S.files e.1)) }
    ensures grown { IfOk result (λ o. (p : Pending) → IsTrue S.tells → let v = view_of S.Site planned.log in WritesFor v p planned.plan
        → LogGrows 19 v (view_of S.Site o.log)) }
    ensures grown_then { IfErr result (λ e. (p : Pending) → IsTrue S.tells → let v = view_of S.Site planned.log in WritesFor v p planned.plan
        → LogGrows 19 v (view v.end v.first (S.files e.1) (S.clock e.1))) }
    ensures marked { IfOk result (λ o. (p : Pending) → IsTrue S.tells → WritesFor (view_of S.Site planned.log) p planned.plan → AreCountsAt planned.plan.counts.items p
        → KeepsOrMarks p (S.files planned.log.site) (S.files o.log.site)) }
    ensures starts { IfOk result (λ o. (p : Pending) → IsTrue S.tells → WritesFor (view_of S.Site planned.log) p planned.plan → LogStarts (view_of S.Site o.log)) }
    ensures dumps { IfOk result (λ o. (p : Pending) → IsTrue S.tells → WritesFor (view_of S.Site planned.log) p planned.plan → SameDumps (S.files planned.log.site) (S.files o.log.site)) }
    ensures plan { IfOk result (λ o. (o.point ≡ planned.plan.choice.point) × (o.next ≡ planned.plan.next) × (o.schema ≡ planned.plan.schema) × (o.counts ≡ planned.plan.counts)) }
    ensures kind { IfOk result (λ o. (o.log.end.total ≡ planned.log.end.total) × (o.log.end.limit ≡ planned.log.end.limit) × (o.log.first ≡ planned.log.first)) }
    ensures same { IfOk result (λ o. S.same_site planned.log.site o.log.site) }
    ensures same_then { IfErr result (λ e. S.same_site planned.log.site e.1) }
    ensures said { IfOk result (λ o. S.said o.log.site ≡ S.said planned.log.site) }
    ensures said_then { IfErr result (λ e. S.said e.1 ≡ S.said planned.log.site) }
    ensures clean { IfOk result (λ o. S.disk_faults o.log.site ≡ S.disk_faults planned.log.site) }
    ensures disk { IfErr result (λ e. CountedAt (e.0 ≡ OpenFault.Audit AudFault.Disk) (S.disk_faults planned.log.site) (S.disk_faults e.1)) }
    ensures say_faults { IfOk result (λ o. S.say_faults o.log.site ≡ S.say_faults planned.log.site) }
    ensures say_faults_then { IfErr result (λ e. S.say_faults e.1 ≡ S.say_faults planned.log.site) }
{
    let PlannedOpening { log, plan } = planned;
    let OpeningPlan {
        choice,
        next,
        table,
        counts,
        schema,
    } = plan;
    let begun = match start(log, choice.begins, choice.point, how) {
        Ok(begun) => begun,
        Err((fault, log)) => return Err((OpenFault::Audit(fault), site_of(log))),
    };
    let audit = begun.log.end.file.saturating_sub(10_000);
    let mut bytes = [0u8; 1600];
    let used = count_bytes(&counts, &mut bytes);
    match go_on(
        begun,
        &table,
        &counts,
        &schema,
        choice.point,
        next,
        &bytes[..used],
    ) {
        Ok(log) => Ok(Opened {
            log,
            schema,
            counts,
            next,
            point: choice.point,
            audit,
        }),
        Err((fault, log)) => Err((OpenFault::Audit(fault), site_of(log))),
    }
}
