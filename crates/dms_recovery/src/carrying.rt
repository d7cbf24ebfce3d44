//! What was planned is carried out: the restore that is pending first, and then the one that is asked for.

ghost use Rattle.std.specs.Prelude.{◌≡◌, ◌≤◌, Option, Some, length, IfOk, IfErr, IsTrue};
ghost use Rattle.dms_history.specs.History.{Pending};
ghost use Rattle.dms_audrec.specs.Seen.{how_seen};
ghost use Rattle.dms_audrec.specs.Spelling.{IsRestoreKind, rows_of};
ghost use Rattle.dms_audfile.specs.Counting.{CountedAt};
ghost use Rattle.dms_restore.specs.Logging.{LogGrows, view};
ghost use Rattle.dms_restore.specs.Views.{view_of};
ghost use Rattle.dms_wal.specs.Closing.{IsFullTrail};
ghost use Rattle.dms_opening.specs.Carrying.{IsFitPlan};
ghost use Rattle.dms_opening.specs.Openings.{IsFullFault, MayHaveWritten};
ghost use Rattle.dms_recovery.specs.Claims.{RunsAlone, LeavesAlone, ReachesAsPlanned, LeavesAsPlanned, MendsAsPlanned, LeavesMending};
ghost use Rattle.dms_recovery.specs.Marks.{MarksAll, WritesAll, WritesCounted};
ghost use Rattle.dms_recovery.specs.Planned.{AreFit};
ghost use Rattle.dms_recovery.specs.Ready.{AreReady, AreReadyBoth};

use crate::looking::PlannedRestore;
use dms_audfile::AudFault;
use dms_audrec::BeginHow;
use dms_opening::{OpenFault, Opened, OpeningPlan, PlannedOpening, carry_out};
use dms_restore::Log;
use dms_site::Site;

/// Ends the restore that is pending by the first plan, then begins the one that is asked for, which is of this kind, writes its blocks, and ends it.
fn carry_both<S: Site>(
    log: Log<S>,
    before: OpeningPlan,
    own: OpeningPlan,
    how: BeginHow<'_>,
) -> Result<Opened<S>, (OpenFault, S)>
    requires first_fits { IsFitPlan before }
    requires own_fits { IsFitPlan own }
    requires kind { IsRestoreKind (how_seen how) }
    requires few { length (rows_of (how_seen how)) ≤ 100 }
    requires limit { log.end.limit ≡ 9999 }
    ensures rolled { IfOk result (λ o. ReachesAsPlanned S.tells (how_seen how.entry) (view_of S.Site log) (Some before) own (view_of S.Site o.log)) }
    ensures rolls { IfOk result (λ o. LeavesAsPlanned S.tells (how_seen how.entry) (view_of S.Site log) (Some before) own (S.clock o.log.site)) }
    ensures rolls_then { IfErr result (λ e. LeavesAsPlanned S.tells (how_seen how.entry) (view_of S.Site log) (Some before) own (S.clock e.1)) }
    ensures mended { IfOk result (λ o. MendsAsPlanned S.tells (how_seen how.entry) (view_of S.Site log) (Some before) own (view_of S.Site o.log)) }
    ensures mends { IfOk result (λ o. LeavesMending S.tells (how_seen how.entry) (view_of S.Site log) (Some before) own (S.clock o.log.site)) }
    ensures mends_then { IfErr result (λ e. LeavesMending S.tells (how_seen how.entry) (view_of S.Site log) (Some before) own (S.clock e.1)) }
    ensures marked { IfOk result (λ o. (q p : Pending) → IsTrue S.tells → WritesCounted (view_of S.Site log) q before → WritesCounted (view_of S.Site log) p own
        → MarksAll (Some q) p (S.files log.site) (S.files o.log.site)) }
    ensures only { IfErr result (λ e. IsTrue S.tells → AreReadyBoth (view_of S.Site log) before own → MayHaveWritten e.0) }
    ensures full { IfErr result (λ e. IsTrue S.tells → AreReadyBoth (view_of S.Site log) before own → IsFullFault e.0 → IsFullTrail (view_of S.Site log) (S.files e.1)) }
    ensures grown { IfOk result (λ o. IsTrue S.tells → AreReadyBoth (view_of S.Site log) before own → LogGrows 38 (view_of S.Site log) (view_of S.Site o.log)) }
    ensures grown_then { IfErr result (λ e. IsTrue S.tells → let v = view_of S.Site log in AreReadyBoth v before own → LogGrows 38 v (view v.end v.first (S.files e.1) (S.clock e.1))) }
    ensures point { IfOk result (λ o. o.point ≡ own.choice.point) }
    ensures kind { IfOk result (λ o. (o.log.end.total ≡ log.end.total) × (o.log.end.limit ≡ log.end.limit) × (o.log.first ≡ log.first)) }
    ensures same { IfOk result (λ o. S.same_site log.site o.log.site) }
    ensures same_then { IfErr result (λ e. S.same_site log.site e.1) }
    ensures said { IfOk result (λ o. S.said o.log.site ≡ S.said log.site) }
    ensures said_then { IfErr result (λ e. S.said e.1 ≡ S.said log.site) }
    ensures clean { IfOk result (λ o. S.disk_faults o.log.site ≡ S.disk_faults log.site) }
    ensures disk { IfErr result (λ e. CountedAt (e.0 ≡ OpenFault.Audit AudFault.Disk) (S.disk_faults log.site) (S.disk_faults e.1)) }
    ensures say_faults { IfOk result (λ o. S.say_faults o.log.site ≡ S.say_faults log.site) }
    ensures say_faults_then { IfErr result (λ e. S.say_faults e.1 ≡ S.say_faults log.site) }
{
    let opened = match carry_out(PlannedOpening { log, plan: before }, BeginHow::HaltLoad) {
        Ok(opened) => opened,
        Err(refused) => return Err(refused),
    };
    let Opened {
        log,
        schema: _schema,
        counts: _counts,
        next: _,
        point: _,
        audit: _,
    } = opened;
    carry_out(PlannedOpening { log, plan: own }, how)
}

/// Ends the restore that is pending where that goes first, then begins the one that is asked for, which is of this kind, writes its blocks, and ends it.
pub(crate) fn carry<S: Site>(
    planned: PlannedRestore<S>,
    how: BeginHow<'_>,
) -> Result<Opened<S>, (OpenFault, S)>
    requires fit { AreFit planned.before planned.own }
    requires kind { IsRestoreKind (how_seen how) }
    requires few { length (rows_of (how_seen how)) ≤ 100 }
    requires limit { planned.log.end.limit ≡ 9999 }
    ensures runs_to { IfOk result (λ o. RunsAlone S.tells (how_seen how.entry) (view_of S.Site planned.log) planned.before planned.own (view_of S.Site o.log)) }
    ensures leaves { IfOk result (λ o. LeavesAlone S.tells (how_seen how.entry) (view_of S.Site planned.log) planned.before planned.own (S.clock o.log.site)) }
    ensures leaves_then { IfErr result (λ e. LeavesAlone S.tells (how_seen how.entry) (view_of S.Site planned.log) planned.before planned.own (S.clock e.1)) }
    ensures rolled { IfOk result (λ o. ReachesAsPlanned S.tells (how_seen how.entry) (view_of S.Site planned.log) planned.before planned.own (view_of S.Site o.log)) }
    ensures rolls { IfOk result (λ o. LeavesAsPlanned S.tells (how_seen how.entry) (view_of S.Site planned.log) planned.before planned.own (S.clock o.log.site)) }
    ensures rolls_then { IfErr result (λ e. LeavesAsPlanned S.tells (how_seen how.entry) (view_of S.Site planned.log) planned.before planned.own (S.clock e.1)) }
    ensures mended { IfOk result (λ o. MendsAsPlanned S.tells (how_seen how.entry) (view_of S.Site planned.log) planned.before planned.own (view_of S.Site o.log)) }
    ensures mends { IfOk result (λ o. LeavesMending S.tells (how_seen how.entry) (view_of S.Site planned.log) planned.before planned.own (S.clock o.log.site)) }
    ensures mends_then { IfErr result (λ e. LeavesMending S.tells (how_seen how.entry) (view_of S.Site planned.log) planned.before planned.own (S.clock e.1)) }
    ensures marked { IfOk result (λ o. (first : Option Pending) (p : Pending) → IsTrue S.tells → WritesAll (view_of S.Site planned.log) first p planned.before planned.own
        → MarksAll first p (S.files planned.log.site) (S.files o.log.site)) }
    ensures only { IfErr result (λ e. IsTrue S.tells → AreReady (view_of S.Site planned.log) planned.before planned.own → MayHaveWritten e.0) }
    ensures full { IfErr result (λ e. IsTrue S.tells → AreReady (view_of S.Site planned.log) planned.before planned.own → IsFullFault e.0 → IsFullTrail (view_of S.Site planned.log) (S.files e.1)) }
    ensures grown { IfOk result (λ o. IsTrue S.tells → AreReady (view_of S.Site planned.log) planned.before planned.own → LogGrows 38 (view_of S.Site planned.log) (view_of S.Site o.log)) }
    ensures grown_then { IfErr result (λ e. IsTrue S.tells → let v = view_of S.Site planned.log in AreReady v planned.before planned.own
        → LogGrows 38 v (view v.end v.first (S.files e.1) (S.clock e.1))) }
    ensures point { IfOk result (λ o. o.point ≡ planned.own.choice.point) }
    ensures kind { IfOk result (λ o. (o.log.end.total ≡ planned.log.end.total) × (o.log.end.limit ≡ planned.log.end.limit) × (o.log.first ≡ planned.log.first)) }
    ensures same { IfOk result (λ o. S.same_site planned.log.site o.log.site) }
    ensures same_then { IfErr result (λ e. S.same_site planned.log.site e.1) }
    ensures said { IfOk result (λ o. S.said o.log.site ≡ S.said planned.log.site) }
    ensures said_then { IfErr result (λ e. S.said e.1 ≡ S.said planned.log.site) }
    ensures clean { IfOk result (λ o. S.disk_faults o.log.site ≡ S.disk_faults planned.log.site) }
    ensures disk { IfErr result (λ e. CountedAt (e.0 ≡ OpenFault.Audit AudFault.Disk) (S.disk_faults planned.log.site) (S.disk_faults e.1)) }
    ensures say_faults { IfOk result (λ o. S.say_faults o.log.site ≡ S.say_faults planned.log.site) }
    ensures say_faults_then { IfErr result (λ e. S.say_faults e.1 ≡ S.say_faults planned.log.site) }
{
    let PlannedRestore { log, before, own } = planned;
    match before {
        None => carry_out(PlannedOpening { log, plan: own }, how),
        Some(before) => carry_both(log, before, own, how),
    }
}
