//! A database is looked at, and what a statement does of it is planned.

ghost use Rattle.std.specs.Prelude.{◌≡◌, ◌≤◌, IfOk, IfErr, IsTrue};
ghost use Rattle.dms_moments.specs.Moments.{Steps};
ghost use Rattle.dms_site.specs.Files.{Same};
ghost use Rattle.dms_audfile.specs.Counting.{CountedAt};
ghost use Rattle.dms_restore.specs.Views.{view_of, LogStarts};
ghost use Rattle.dms_opening.specs.Openings.{IsTrailFound, IsFullFault};
ghost use Rattle.dms_opening.specs.Plans.{IsScanRead};
ghost use Rattle.dms_recovery.specs.Claims.{PlansWanted, RefusesWantedOf};
ghost use Rattle.dms_recovery.specs.Planned.{AreFit, AreNamed};
ghost use Rattle.dms_recovery.specs.Refusing.{RefusesWanted};

use crate::Wanted;
use crate::planning::{Plans, plan_asked};
use crate::wanted::asked_of;
use dms_audfile::AudFault;
use dms_history::Row;
use dms_opening::{Found, OpenFault, OpeningPlan, Scanned};
use dms_restore::Log;
use dms_site::Site;
use std::alloc::Global;

/// A database that was looked at, and what a statement does of it: nothing was written yet.
pub struct PlannedRestore<S: Site> {
    /// The end of its trail, with the trail's first file.
    pub log: Log<S>,
    /// What ends the restore that is pending, where that goes first.
    pub before: Option<OpeningPlan>,
    /// The restore that is asked for.
    pub own: OpeningPlan,
}

/// Plans what is wanted of a trail that was scanned. Nothing changes.
pub(crate) fn plan_scanned<S: Site>(
    alloc: Global,
    scanned: Scanned<S>,
    wanted: Wanted,
    rows: &[Row],
) -> Result<PlannedRestore<S>, (OpenFault, S)>
    requires low { 10001 ≤ scanned.log.first }
    ensures plans { IfOk result (λ p. IsTrue S.tells → IsScanRead S.Site scanned
        → PlansWanted scanned.log.end.total scanned.log.first (S.files scanned.log.site) wanted rows.now p.before p.own) }
    ensures fit { IfOk result (λ p. AreFit p.before p.own) }
    ensures named { IfOk result (λ p. AreNamed p.before p.own) }
    ensures refused { IfErr result (λ e. IsTrue S.tells → IsScanRead S.Site scanned
        → RefusesWantedOf scanned.log.end.total scanned.log.first (S.files scanned.log.site) wanted e.0) }
    ensures kind { IfOk result (λ p. (p.log.end ≡ scanned.log.end) × (p.log.first ≡ scanned.log.first)) }
    ensures files { IfOk result (λ p. IsTrue S.tells → S.files p.log.site ≡ S.files scanned.log.site) }
    ensures files_then { IfErr result (λ e. IsTrue S.tells → S.files e.1 ≡ S.files scanned.log.site) }
    ensures moments { IfOk result (λ p. Steps Same (S.clock scanned.log.site) (S.clock p.log.site)) }
    ensures moments_then { IfErr result (λ e. Steps Same (S.clock scanned.log.site) (S.clock e.1)) }
    ensures same { IfOk result (λ p. S.same_site scanned.log.site p.log.site) }
    ensures same_then { IfErr result (λ e. S.same_site scanned.log.site e.1) }
    ensures said { IfOk result (λ p. S.said p.log.site ≡ S.said scanned.log.site) }
    ensures said_then { IfErr result (λ e. S.said e.1 ≡ S.said scanned.log.site) }
    ensures clean { IfOk result (λ p. S.disk_faults p.log.site ≡ S.disk_faults scanned.log.site) }
    ensures disk { IfErr result (λ e. CountedAt (e.0 ≡ OpenFault.Audit AudFault.Disk) (S.disk_faults scanned.log.site) (S.disk_faults e.1)) }
    ensures say_faults { IfOk result (λ p. S.say_faults p.log.site ≡ S.say_faults scanned.log.site) }
    ensures say_faults_then { IfErr result (λ e. S.say_faults e.1 ≡ S.say_faults scanned.log.site) }
{
    let Scanned { log, places, trace } = scanned;
    let Log {
        mut site,
        end,
        first,
    } = log;
    let asked = asked_of(&trace.history, wanted);
    match plan_asked(
        alloc, &mut site, first, end.tag, &places, trace, asked, rows,
    ) {
        Ok(Plans { before, own }) => Ok(PlannedRestore {
            log: Log { site, end, first },
            before,
            own,
        }),
        Err(fault) => Err((fault, site)),
    }
}

/// Scans the trail of the files that were found, and plans what is wanted of them. Nothing changes.
///
/// Answers the first refusal of the trail and of what is wanted, Disk where a call of the site failed, and Memory.
pub fn look_for<S: Site>(
    alloc: Global,
    found: Found<S>,
    wanted: Wanted,
    rows: &[Row],
) -> Result<PlannedRestore<S>, (OpenFault, S)>
    ensures starts { IfOk result (λ p. IsTrue S.tells → LogStarts (view_of S.Site p.log)) }
    ensures trail { IfOk result (λ p. IsTrue S.tells → IsTrailFound p.log.end.total p.log.first (S.files found.site)) }
    ensures plans { IfOk result (λ p. IsTrue S.tells → PlansWanted p.log.end.total p.log.first (S.files found.site) wanted rows.now p.before p.own) }
    ensures fit { IfOk result (λ p. AreFit p.before p.own) }
    ensures named { IfOk result (λ p. AreNamed p.before p.own) }
    ensures limit { IfOk result (λ p. p.log.end.limit ≡ 9999) }
    ensures refused { IfErr result (λ e. IsTrue S.tells → RefusesWanted (S.files found.site) wanted e.0) }
    ensures room { IfErr result (λ e. IsTrue S.tells → IsFullFault e.0 → ⊥) }
    ensures files { IfOk result (λ p. IsTrue S.tells → S.files p.log.site ≡ S.files found.site) }
    ensures files_then { IfErr result (λ e. IsTrue S.tells → S.files e.1 ≡ S.files found.site) }
    ensures moments { IfOk result (λ p. Steps Same (S.clock found.site) (S.clock p.log.site)) }
    ensures moments_then { IfErr result (λ e. Steps Same (S.clock found.site) (S.clock e.1)) }
    ensures same { IfOk result (λ p. S.same_site found.site p.log.site) }
    ensures same_then { IfErr result (λ e. S.same_site found.site e.1) }
    ensures said { IfOk result (λ p. S.said p.log.site ≡ S.said found.site) }
    ensures said_then { IfErr result (λ e. S.said e.1 ≡ S.said found.site) }
    ensures clean { IfOk result (λ p. S.disk_faults p.log.site ≡ S.disk_faults found.site) }
    ensures disk { IfErr result (λ e. CountedAt (e.0 ≡ OpenFault.Audit AudFault.Disk) (S.disk_faults found.site) (S.disk_faults e.1)) }
    ensures say_faults { IfOk result (λ p. S.say_faults p.log.site ≡ S.say_faults found.site) }
    ensures say_faults_then { IfErr result (λ e. S.say_faults e.1 ≡ S.say_faults found.site) }
{
    match found.scan(alloc, LAST_AUDIT_FILE) {
        Ok(scanned) => plan_scanned(alloc, scanned, wanted, rows),
        Err((fault, found)) => {
            let Found { site } = found;
            Err((OpenFault::Audit(fault), site))
        }
    }
}

/// The last audit file that may be written while a database is restored.
const LAST_AUDIT_FILE: u32 = 9999;
