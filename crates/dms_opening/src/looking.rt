//! A database is looked at: its trail is scanned, and its opening is planned.

ghost use Rattle.std.specs.Prelude.{◌≡◌, ◌≤◌, IfOk, IfErr, IsTrue};
ghost use Rattle.dms_moments.specs.Moments.{Steps};
ghost use Rattle.dms_site.specs.Files.{Same};
ghost use Rattle.dms_audfile.specs.Counting.{CountedAt};
ghost use Rattle.dms_restore.specs.Views.{view_of, LogStarts};
ghost use Rattle.dms_opening.specs.Looking.{IsLookedAt};
ghost use Rattle.dms_opening.specs.Openings.{IsTrailFound, NamesStructures, OpensAt, RunsWhere, ReopensSince, OpeningGrows, RefusesFiles, IsFullFault, HasFullTrail, MayHaveWritten};
ghost use Rattle.dms_opening.specs.Plans.{IsScanRead, Plans, RefusesPlan};
ghost use Rattle.dms_opening.specs.Carrying.{IsFitPlan};

use crate::carrying::{carry_out, site_of};
use crate::{Found, OpenFault, Opened, OpeningPlan, Scanned, prepare};
use dms_audfile::AudFault;
use dms_audrec::BeginHow;
use dms_restore::Log;
use dms_site::Site;
use std::alloc::Global;

/// A database that was looked at, and what its opening does: nothing was written yet. What has to be refused before the first write is judged here.
pub struct PlannedOpening<S: Site> {
    /// The end of its trail, with the trail's first file and its tag.
    pub log: Log<S>,
    /// The point, the next number, whether a restore is pending, what is written, the counts and the description.
    pub plan: OpeningPlan,
}

impl<S: Site> PlannedOpening<S> {
    /// The site of a database that was looked at, and isn't opened. Makes no call of it.
    pub fn into_site(self) -> S
        ensures { result ≡ self.log.site }
    {
        let PlannedOpening { log, plan: _plan } = self;
        site_of(log)
    }

    /// Opens a database that was looked at, as its plan says. All that is refused was refused before: it answers Disk where a call of the site failed,
    /// and Full where the audit has no room.
    pub fn open(self) -> Result<Opened<S>, (OpenFault, S)>
        requires ready { IsFitPlan self.plan }
        requires named { NamesStructures self.plan.schema.items self.plan.counts.items }
        requires limit { self.log.end.limit ≡ 9999 }
        ensures opens { IfOk result (λ o. IsTrue S.tells → IsLookedAt S.Site self → OpensAt o.log.end.total o.log.first (S.files self.log.site) o.point o.next o.schema.items o.counts.items) }
        ensures runs { IfOk result (λ o. IsTrue S.tells → IsLookedAt S.Site self → RunsWhere S.Site (S.files self.log.site) o) }
        ensures plan { IfOk result (λ o. (o.point ≡ self.plan.choice.point) × (o.next ≡ self.plan.next) × (o.schema ≡ self.plan.schema) × (o.counts ≡ self.plan.counts)) }
        ensures kind { IfOk result (λ o. (o.log.end.total ≡ self.log.end.total) × (o.log.end.limit ≡ self.log.end.limit) × (o.log.first ≡ self.log.first)) }
        ensures moments { IfOk result (λ o. IsTrue S.tells → IsLookedAt S.Site self → ReopensSince S.Site self.log.site o.log.site) }
        ensures stopped { IfErr result (λ e. IsTrue S.tells → IsLookedAt S.Site self → ReopensSince S.Site self.log.site e.1) }
        ensures only { IfErr result (λ e. IsTrue S.tells → IsLookedAt S.Site self → MayHaveWritten e.0) }
        ensures full { IfErr result (λ e. IsTrue S.tells → IsLookedAt S.Site self → IsFullFault e.0 → HasFullTrail (S.files self.log.site) (S.files e.1)) }
        ensures grows { IfOk result (λ o. IsTrue S.tells → IsLookedAt S.Site self → OpeningGrows S.Site self.log.site o.log.site) }
        ensures grows_then { IfErr result (λ e. IsTrue S.tells → IsLookedAt S.Site self → OpeningGrows S.Site self.log.site e.1) }
        ensures same { IfOk result (λ o. S.same_site self.log.site o.log.site) }
        ensures same_then { IfErr result (λ e. S.same_site self.log.site e.1) }
        ensures said { IfOk result (λ o. S.said o.log.site ≡ S.said self.log.site) }
        ensures said_then { IfErr result (λ e. S.said e.1 ≡ S.said self.log.site) }
        ensures clean { IfOk result (λ o. (S.disk_faults o.log.site ≡ S.disk_faults self.log.site) × (S.say_faults o.log.site ≡ S.say_faults self.log.site)) }
        ensures disk { IfErr result (λ e. CountedAt (e.0 ≡ OpenFault.Audit AudFault.Disk) (S.disk_faults self.log.site) (S.disk_faults e.1)) }
        ensures say_faults { IfErr result (λ e. S.say_faults e.1 ≡ S.say_faults self.log.site) }
    {
        carry_out(self, BeginHow::HaltLoad)
    }
}

/// Plans the opening of a trail that was scanned. Nothing changes.
pub(crate) fn plan_scanned<S: Site>(
    alloc: Global,
    scanned: Scanned<S>,
) -> Result<PlannedOpening<S>, (OpenFault, S)>
    requires low { 10001 ≤ scanned.log.first }
    ensures plans { IfOk result (λ p. IsTrue S.tells → IsScanRead S.Site scanned → Plans scanned.log.end.total scanned.log.first (S.files scanned.log.site) p.plan) }
    ensures ready { IfOk result (λ p. IsFitPlan p.plan) }
    ensures named { IfOk result (λ p. NamesStructures p.plan.schema.items p.plan.counts.items) }
    ensures refused { IfErr result (λ e. IsTrue S.tells → IsScanRead S.Site scanned → RefusesPlan scanned.log.end.total scanned.log.first (S.files scanned.log.site) e.0) }
    ensures kind { IfOk result (λ p. (p.log.end ≡ scanned.log.end) × (p.log.first ≡ scanned.log.first)) }
    ensures files { IfOk result (λ p. IsTrue S.tells → S.files p.log.site ≡ S.files scanned.log.site) }
    ensures files_then { IfErr result (λ e. IsTrue S.tells → S.files e.1 ≡ S.files scanned.log.site) }
    ensures moments { IfOk result (λ p. Steps Same (S.clock scanned.log.site) (S.clock p.log.site)) }
    ensures moments_then { IfErr result (λ e. Steps Same (S.clock scanned.log.site) (S.clock e.1)) }
    ensures same { IfOk result (λ p. S.same_site scanned.log.site p.log.site) }
    ensures same_then { IfErr result (λ e. S.same_site scanned.log.site e.1) }
    ensures said { IfOk result (λ p. S.said p.log.site ≡ S.said scanned.log.site) }
    ensures said_then { IfErr result (λ e. S.said e.1 ≡ S.said scanned.log.site) }
    ensures clean { IfOk result (λ p. S.disk_faults p.log.site ≡ S.disk_faults scanned.log.site) }
    ensures disk { IfErr result (λ e. CountedAt (e.0 ≡ OpenFault.Audit AudFault.Disk) (S.disk_faults scanned.log.site) (S.disk_faults e.1)) }
    ensures say_faults { IfOk result (λ p. S.say_faults p.log.site ≡ S.say_faults scanned.log.site) }
    ensures say_faults_then { IfErr result (λ e. S.say_faults e.1 ≡ S.say_faults scanned.log.site) }
{
    let Scanned { log, places, trace } = scanned;
    let Log {
        mut site,
        end,
        first,
    } = log;
    let mut plan = match prepare(alloc, &mut site, first, end.tag, &places, trace) {
        Ok(plan) => plan,
        Err(fault) => return Err((fault, site)),
    };
    match plan.cut_counts(alloc) {
        Ok(()) => {}
        Err(_) => return Err((OpenFault::Audit(AudFault::Memory), site)),
    }
    Ok(PlannedOpening {
        log: Log { site, end, first },
        plan,
    })
}

/// Scans the trail of the files that were found, and plans their opening. Nothing changes.
///
/// Answers the first refusal of the trail and of its points, Disk where a call of the site failed, and Memory.
pub fn look<S: Site>(alloc: Global, found: Found<S>) -> Result<PlannedOpening<S>, (OpenFault, S)>
    ensures starts { IfOk result (λ p. IsTrue S.tells → LogStarts (view_of S.Site p.log)) }
    ensures trail { IfOk result (λ p. IsTrue S.tells → IsTrailFound p.log.end.total p.log.first (S.files found.site)) }
    ensures plans { IfOk result (λ p. IsTrue S.tells → Plans p.log.end.total p.log.first (S.files found.site) p.plan) }
    ensures ready { IfOk result (λ p. IsFitPlan p.plan) }
    ensures named { IfOk result (λ p. NamesStructures p.plan.schema.items p.plan.counts.items) }
    ensures limit { IfOk result (λ p. p.log.end.limit ≡ 9999) }
    ensures refused { IfErr result (λ e. IsTrue S.tells → RefusesFiles (S.files found.site) e.0) }
    ensures room { IfErr result (λ e. IsTrue S.tells → IsFullFault e.0 → ⊥) }
    ensures files { IfOk result (λ p. IsTrue S.tells → S.files p.log.site ≡ S.files found.site) }
    ensures files_then { IfErr result (λ e. IsTrue S.tells → S.files e.1 ≡ S.files found.site) }
    ensures moments { IfOk result (λ p. Steps Same (S.clock found.site) (S.clock p.log.site)) }
    ensures moments_then { IfErr result (λ e. Steps Same (S.clock found.site) (S.clock e.1)) }
    ensures same { IfOk result (λ p. S.same_site found.site p.log.site) }
    ensures same_then { IfErr result (λ e. S.same_site found.site e.1) }
    ensures said { IfOk result (λ p. S.said p.log.site ≡ S.said found.site) }
    ensures said_then { IfErr result (λ e. S.said e.1 ≡ S.said found.site) }
    ensures clean { IfOk result (λ p. S.disk_faults p.log.site ≡ S.disk_faults found.site) }
    ensures disk { IfErr result (λ e. CountedAt (e.0 ≡ OpenFault.Audit AudFault.Disk) (S.disk_faults found.site) (S.disk_faults e.1)) }
    ensures say_faults { IfOk result (λ p. S.say_faults p.log.site ≡ S.say_faults found.site) }
    ensures say_faults_then { IfErr result (λ e. S.say_faults e.1 ≡ S.say_faults found.site) }
{
    match found.scan(alloc, LAST_AUDIT_FILE) {
        Ok(scanned) => plan_scanned(alloc, scanned),
        Err((fault, found)) => {
            let Found { site } = found;
            Err((OpenFault::Audit(fault), site))
        }
    }
}

/// The last audit file that may be written while a database is opened.
const LAST_AUDIT_FILE: u32 = 9999;
