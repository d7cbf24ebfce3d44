//! Rollback and rebuild.

ghost use Rattle.std.specs.Prelude.{◌≡◌, ◌≤◌, ℕ, [], IfOk, IfErr, IsTrue};
ghost use Rattle.dms_audfile.specs.Counting.{CountedAt};
ghost use Rattle.dms_opening.specs.Openings.{IsTrailFound, IsFullFault, HasFullTrail, MayHaveWritten};
ghost use Rattle.dms_recovery.specs.Claims.{RollbackReaches, RollbackLeaves, RebuildReaches, RebuildLeaves};
ghost use Rattle.dms_recovery.specs.Marks.{MarksWanted};
ghost use Rattle.dms_recovery.specs.declared.wanted.Wanted.{Wanted};
ghost use Rattle.dms_recovery.specs.Looked.{SinceLook, SinceRebuild, SinceRoll};
ghost use Rattle.dms_recovery.specs.Planned.{AreFit};
ghost use Rattle.dms_recovery.specs.Refusing.{RecoveryGrows};
ghost use Rattle.dms_recovery.specs.Wanting.{chosen_point};

use crate::looking::PlannedRestore;
use crate::recovering::recover;
use dms_audfile::AudFault;
use dms_audrec::BeginHow;
use dms_opening::OpenFault;
use dms_site::Site;

/// The site of a database that was restored, of whose audit nothing waits, and the point that it is at.
pub struct Recovered<S: Site> {
    pub site: S,
    pub point: u64,
}

/// Rolls a database back that was looked at for that. A restore that is pending is ended first.
///
/// All that is refused was refused before, and all memory was taken: it answers Disk where a call of the site failed, and Full where the audit has no room.
pub fn roll_back<S: Site>(planned: PlannedRestore<S>) -> Result<Recovered<S>, (OpenFault, S)>
    requires fit { AreFit planned.before planned.own }
    requires limit { planned.log.end.limit ≡ 9999 }
    ensures ends { IfOk result (λ r. SinceRoll S.Site planned (λ n from. RollbackReaches S.Site from r.site n)) }
    ensures moments { IfOk result (λ r. SinceRoll S.Site planned (λ n from. RollbackLeaves S.Site from r.site n)) }
    ensures stopped { IfErr result (λ e. SinceRoll S.Site planned (λ n from. RollbackLeaves S.Site from e.1 n)) }
    ensures point { IfOk result (λ r. SinceRoll S.Site planned (λ n from. IsTrue S.tells → (total first : ℕ) → IsTrailFound total first (S.files from) → r.point ≡ n)) }
    ensures marked { IfOk result (λ r. SinceRoll S.Site planned (λ n from. IsTrue S.tells → MarksWanted (S.files from) (S.files r.site) (Wanted.Rollback n) [])) }
    ensures only { IfErr result (λ e. SinceLook S.Site planned (λ wanted rows from. IsTrue S.tells → MayHaveWritten e.0)) }
    ensures full { IfErr result (λ e. SinceLook S.Site planned (λ wanted rows from. IsTrue S.tells → IsFullFault e.0 → HasFullTrail (S.files from) (S.files e.1))) }
    ensures grows { IfOk result (λ r. SinceLook S.Site planned (λ wanted rows from. IsTrue S.tells → RecoveryGrows S.Site from r.site)) }
    ensures grows_then { IfErr result (λ e. SinceLook S.Site planned (λ wanted rows from. IsTrue S.tells → RecoveryGrows S.Site from e.1)) }
    ensures same { IfOk result (λ r. S.same_site planned.log.site r.site) }
    ensures same_then { IfErr result (λ e. S.same_site planned.log.site e.1) }
    ensures said { IfOk result (λ r. S.said r.site ≡ S.said planned.log.site) }
    ensures said_then { IfErr result (λ e. S.said e.1 ≡ S.said planned.log.site) }
    ensures clean { IfOk result (λ r. (S.disk_faults r.site ≡ S.disk_faults planned.log.site) × (S.say_faults r.site ≡ S.say_faults planned.log.site)) }
    ensures disk { IfErr result (λ e. CountedAt (e.0 ≡ OpenFault.Audit AudFault.Disk) (S.disk_faults planned.log.site) (S.disk_faults e.1)) }
    ensures say_faults { IfErr result (λ e. S.say_faults e.1 ≡ S.say_faults planned.log.site) }
{
    recover(planned, BeginHow::Rollback)
}

/// Rebuilds a database from a dump, from 1 to 9,999, that was looked at for that. What the structure files hold doesn't matter, nor does a restore that is
/// pending.
///
/// All that is refused was refused before, and all memory was taken: it answers Disk where a call of the site failed, and Full where the audit has no room.
pub fn rebuild<S: Site>(
    planned: PlannedRestore<S>,
    dump: u16,
) -> Result<Recovered<S>, (OpenFault, S)>
    requires some { 1 ≤ dump }
    requires few { dump ≤ 9999 }
    requires fit { AreFit planned.before planned.own }
    requires limit { planned.log.end.limit ≡ 9999 }
    ensures ends { IfOk result (λ r. SinceRebuild S.Site dump planned (λ chosen from. RebuildReaches S.Site from r.site dump chosen)) }
    ensures moments { IfOk result (λ r. SinceRebuild S.Site dump planned (λ chosen from. RebuildLeaves S.Site from r.site dump chosen)) }
    ensures stopped { IfErr result (λ e. SinceRebuild S.Site dump planned (λ chosen from. RebuildLeaves S.Site from e.1 dump chosen)) }
    ensures point { IfOk result (λ r. SinceRebuild S.Site dump planned (λ chosen from. IsTrue S.tells → (total first : ℕ) → IsTrailFound total first (S.files from)
        → r.point ≡ chosen_point total first (S.files from) chosen)) }
    ensures only { IfErr result (λ e. SinceLook S.Site planned (λ wanted rows from. IsTrue S.tells → MayHaveWritten e.0)) }
    ensures full { IfErr result (λ e. SinceLook S.Site planned (λ wanted rows from. IsTrue S.tells → IsFullFault e.0 → HasFullTrail (S.files from) (S.files e.1))) }
    ensures grows { IfOk result (λ r. SinceLook S.Site planned (λ wanted rows from. IsTrue S.tells → RecoveryGrows S.Site from r.site)) }
    ensures grows_then { IfErr result (λ e. SinceLook S.Site planned (λ wanted rows from. IsTrue S.tells → RecoveryGrows S.Site from e.1)) }
    ensures same { IfOk result (λ r. S.same_site planned.log.site r.site) }
    ensures same_then { IfErr result (λ e. S.same_site planned.log.site e.1) }
    ensures said { IfOk result (λ r. S.said r.site ≡ S.said planned.log.site) }
    ensures said_then { IfErr result (λ e. S.said e.1 ≡ S.said planned.log.site) }
    ensures clean { IfOk result (λ r. (S.disk_faults r.site ≡ S.disk_faults planned.log.site) × (S.say_faults r.site ≡ S.say_faults planned.log.site)) }
    ensures disk { IfErr result (λ e. CountedAt (e.0 ≡ OpenFault.Audit AudFault.Disk) (S.disk_faults planned.log.site) (S.disk_faults e.1)) }
    ensures say_faults { IfErr result (λ e. S.say_faults e.1 ≡ S.say_faults planned.log.site) }
{
    recover(planned, BeginHow::Rebuild(dump))
}
