//! What is wanted of a database that was looked at is carried out.

ghost use Rattle.std.specs.Prelude.{◌≡◌, ◌≤◌, length, IfOk, IfErr, IsTrue};
ghost use Rattle.dms_audrec.specs.Seen.{how_seen};
ghost use Rattle.dms_audrec.specs.Spelling.{IsRestoreKind, rows_of};
ghost use Rattle.dms_audfile.specs.Counting.{CountedAt};
ghost use Rattle.dms_opening.specs.Openings.{IsFullFault, HasFullTrail, MayHaveWritten};
ghost use Rattle.dms_recovery.specs.Claims.{GoesTo, RestoreReaches, RestoreLeaves, RollbackBehindReaches, RollbackBehindLeaves, MendingBehindReaches, MendingBehindLeaves};
ghost use Rattle.dms_recovery.specs.Marks.{MarksWanted};
ghost use Rattle.dms_recovery.specs.Looked.{Since, SinceLook};
ghost use Rattle.dms_recovery.specs.Planned.{AreFit};
ghost use Rattle.dms_recovery.specs.Refusing.{RecoveryGrows};

use crate::Recovered;
use crate::carrying::carry;
use crate::looking::PlannedRestore;
use dms_audfile::AudFault;
use dms_audrec::BeginHow;
use dms_opening::{OpenFault, Opened, site_of};
use dms_site::Site;

/// The site of a database that was restored, and the point that it is at.
fn recovered<S: Site>(opened: Opened<S>) -> Recovered<S>
    ensures { (result.site ≡ opened.log.site) × (result.point ≡ opened.point) }
{
    let Opened {
        log,
        schema: _schema,
        counts: _counts,
        next: _,
        point,
        audit: _,
    } = opened;
    Recovered {
        site: site_of(log),
        point,
    }
}

/// Carries out what was planned: ends the restore that is pending where that goes first, and does what is wanted by a restore of this kind. All that is refused
/// was refused before, and all memory was taken: it answers Disk where a call of the site failed, and Full where the audit has no room.
pub(crate) fn recover<S: Site>(
    planned: PlannedRestore<S>,
    how: BeginHow<'_>,
) -> Result<Recovered<S>, (OpenFault, S)>
    requires fit { AreFit planned.before planned.own }
    requires limit { planned.log.end.limit ≡ 9999 }
    requires kind { IsRestoreKind (how_seen how) }
    requires few { length (rows_of (how_seen how)) ≤ 100 }
    ensures ends { IfOk result (λ r. Since S.Site (how_seen how.entry) planned (λ wanted rows from. RestoreReaches S.Site from r.site wanted rows r.point)) }
    ensures point { IfOk result (λ r. Since S.Site (how_seen how.entry) planned (λ wanted rows from. GoesTo S.Site from wanted r.point)) }
    ensures moments { IfOk result (λ r. Since S.Site (how_seen how.entry) planned (λ wanted rows from. RestoreLeaves S.Site from r.site wanted rows)) }
    ensures stopped { IfErr result (λ e. Since S.Site (how_seen how.entry) planned (λ wanted rows from. RestoreLeaves S.Site from e.1 wanted rows)) }
    ensures rolled { IfOk result (λ r. Since S.Site (how_seen how.entry) planned (λ wanted rows from. RollbackBehindReaches S.Site from r.site wanted)) }
    ensures rolls { IfOk result (λ r. Since S.Site (how_seen how.entry) planned (λ wanted rows from. RollbackBehindLeaves S.Site from r.site wanted)) }
    ensures rolls_then { IfErr result (λ e. Since S.Site (how_seen how.entry) planned (λ wanted rows from. RollbackBehindLeaves S.Site from e.1 wanted)) }
    ensures marked { IfOk result (λ r. SinceLook S.Site planned (λ wanted rows from. IsTrue S.tells → MarksWanted (S.files from) (S.files r.site) wanted rows)) }
    ensures mended { IfOk result (λ r. Since S.Site (how_seen how.entry) planned (λ wanted rows from. MendingBehindReaches S.Site from r.site wanted rows)) }
    ensures mends { IfOk result (λ r. Since S.Site (how_seen how.entry) planned (λ wanted rows from. MendingBehindLeaves S.Site from r.site wanted rows)) }
    ensures mends_then { IfErr result (λ e. Since S.Site (how_seen how.entry) planned (λ wanted rows from. MendingBehindLeaves S.Site from e.1 wanted rows)) }
    ensures only { IfErr result (λ e. SinceLook S.Site planned (λ wanted rows from. IsTrue S.tells → MayHaveWritten e.0)) }
    ensures full { IfErr result (λ e. SinceLook S.Site planned (λ wanted rows from. IsTrue S.tells → IsFullFault e.0 → HasFullTrail (S.files from) (S.files e.1))) }
    ensures grows { IfOk result (λ r. SinceLook S.Site planned (λ wanted rows from. IsTrue S.tells → RecoveryGrows S.Site from r.site)) }
    ensures grows_then { IfErr result (λ e. SinceLook S.Site planned (λ wanted rows from. IsTrue S.tells → RecoveryGrows S.Site from e.1)) }
    ensures same { IfOk result (λ r. S.same_site planned.log.site r.site) }
    ensures same_then { IfErr result (λ e. S.same_site planned.log.site e.1) }
    ensures said { IfOk result (λ r. S.said r.site ≡ S.said planned.log.site) }
    ensures said_then { IfErr result (λ e. S.said e.1 ≡ S.said planned.log.site) }
    ensures clean { IfOk result (λ r. (S.disk_faults r.site ≡ S.disk_faults planned.log.site) × (S.say_faults r.site ≡ S.say_faults planned.log.site)) }
    ensures disk { IfErr result (λ e. CountedAt (e.0 ≡ OpenFault.Audit AudFault.Disk) (S.disk_faults planned.log.site) (S.disk_faults e.1)) }
    ensures say_faults { IfErr result (λ e. S.say_faults e.1 ≡ S.say_faults planned.log.site) }
{
    match carry(planned, how) {
        Ok(opened) => Ok(recovered(opened)),
        Err(refused) => Err(refused),
    }
}
