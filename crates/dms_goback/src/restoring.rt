//! A database is restored, over a site of which no other file is written than the audit's and those of as many structures as the restore needs.

ghost use Rattle.std.specs.Prelude.{◌≡◌, ◌≤◌, ◌⊎◌, ℕ, IfOk, IfErr, IsTrue};
ghost use Rattle.dms_audfile.specs.Counting.{CountedAt};
ghost use Rattle.dms_opening.specs.Openings.{IsTrailFound};
ghost use Rattle.dms_recovery.specs.Wanting.{chosen_point};
ghost use Rattle.dms_recovery.specs.Refusing.{MayBeDone, RecoveryGrows, StaysUndone};
ghost use Rattle.dms_dumping.specs.Filling.{FillsTrail};
ghost use Rattle.dms_statelaws.specs.SiteLaws.{RollsSince, RollsEnd, RebuildsSince, RebuildsEnd};
ghost use Rattle.dms_goback.specs.Restores.{IsOfRestoring, IsRestoreRefused, NeverRefusesRestore, StaysFor};

use crate::looking::{bared, look_guarded, unguarded};
use dms_recovery::{Recovered, Wanted, rebuild, roll_back};
use dms_site::Site;
use dms_status::Status;
use std::alloc::Global;

/// Rolls a database back to a point.
pub(crate) fn roll_guarded<S: Site>(
    alloc: Global,
    site: S,
    point: u64,
) -> Result<Recovered<S>, (Status, S)>
    ensures moments { IfOk result (λ r. IsTrue S.tells → RollsSince S.Site site r.site point) }
    ensures stopped { IfErr result (λ e. IsTrue S.tells → RollsSince S.Site site e.1 point) }
    ensures ends { IfOk result (λ r. IsTrue S.tells → RollsEnd S.Site site r.site point) }
    ensures trail { IfOk result (λ r. IsTrue S.tells → RecoveryGrows S.Site site r.site) }
    ensures trail_then { IfErr result (λ e. IsTrue S.tells → RecoveryGrows S.Site site e.1) }
    ensures beside { IfOk result (λ r. StaysFor S.Site (Wanted.Rollback point) site r.site) }
    ensures beside_then { IfErr result (λ e. StaysFor S.Site (Wanted.Rollback point) site e.1) }
    ensures refused { IfErr result (λ e. IsTrue S.tells → IsRestoreRefused S.Site (Wanted.Rollback point) site e.1 e.0) }
    ensures complete { IfErr result (λ e. IsTrue S.tells → NeverRefusesRestore (Wanted.Rollback point) (S.files site) e.0) }
    ensures may { IfOk result (λ r. IsTrue S.tells → MayBeDone (S.files site) (Wanted.Rollback point)) }
    ensures may_then { IfErr result (λ e. IsTrue S.tells → MayBeDone (S.files site) (Wanted.Rollback point) ⊎ StaysUndone S.Site site e.1) }
    ensures full { IfErr result (λ e. FillsTrail S.Site site e.1 e.0) }
    ensures statuses { IfErr result (λ e. IsOfRestoring e.0) }
    ensures same { IfOk result (λ r. S.same_site site r.site) }
    ensures same_then { IfErr result (λ e. S.same_site site e.1) }
    ensures said { IfOk result (λ r. S.said r.site ≡ S.said site) }
    ensures said_then { IfErr result (λ e. S.said e.1 ≡ S.said site) }
    ensures clean { IfOk result (λ r. (S.disk_faults r.site ≡ S.disk_faults site) × (S.say_faults r.site ≡ S.say_faults site)) }
    ensures disk { IfErr result (λ e. CountedAt (e.0 ≡ Status.DiskFault) (S.disk_faults site) (S.disk_faults e.1)) }
    ensures say_faults { IfErr result (λ e. S.say_faults e.1 ≡ S.say_faults site) }
{
    let planned = match look_guarded(alloc, site, Wanted::Rollback(point)) {
        Ok(planned) => planned,
        Err(refused) => return Err(refused),
    };
    match roll_back(planned) {
        Ok(recovered) => Ok(bared(recovered)),
        Err((fault, guarded)) => Err(unguarded(fault, guarded)),
    }
}

/// Rebuilds a database from a dump.
pub(crate) fn rebuild_guarded<S: Site>(
    alloc: Global,
    site: S,
    dump: u16,
    point: Option<u64>,
) -> Result<Recovered<S>, (Status, S)>
    requires some { 1 ≤ dump }
    requires few { dump ≤ 9999 }
    ensures moments { IfOk result (λ r. IsTrue S.tells → RebuildsSince S.Site site r.site dump point) }
    ensures stopped { IfErr result (λ e. IsTrue S.tells → RebuildsSince S.Site site e.1 dump point) }
    ensures ends { IfOk result (λ r. IsTrue S.tells → RebuildsEnd S.Site site r.site dump point) }
    ensures point { IfOk result (λ r. IsTrue S.tells → (total first : ℕ) → IsTrailFound total first (S.files site) → r.point ≡ chosen_point total first (S.files site) point) }
    ensures trail { IfOk result (λ r. IsTrue S.tells → RecoveryGrows S.Site site r.site) }
    ensures trail_then { IfErr result (λ e. IsTrue S.tells → RecoveryGrows S.Site site e.1) }
    ensures beside { IfOk result (λ r. StaysFor S.Site (Wanted.Rebuild dump point) site r.site) }
    ensures beside_then { IfErr result (λ e. StaysFor S.Site (Wanted.Rebuild dump point) site e.1) }
    ensures refused { IfErr result (λ e. IsTrue S.tells → IsRestoreRefused S.Site (Wanted.Rebuild dump point) site e.1 e.0) }
    ensures complete { IfErr result (λ e. IsTrue S.tells → NeverRefusesRestore (Wanted.Rebuild dump point) (S.files site) e.0) }
    ensures may { IfOk result (λ r. IsTrue S.tells → MayBeDone (S.files site) (Wanted.Rebuild dump point)) }
    ensures may_then { IfErr result (λ e. IsTrue S.tells → MayBeDone (S.files site) (Wanted.Rebuild dump point) ⊎ StaysUndone S.Site site e.1) }
    ensures full { IfErr result (λ e. FillsTrail S.Site site e.1 e.0) }
    ensures statuses { IfErr result (λ e. IsOfRestoring e.0) }
    ensures same { IfOk result (λ r. S.same_site site r.site) }
    ensures same_then { IfErr result (λ e. S.same_site site e.1) }
    ensures said { IfOk result (λ r. S.said r.site ≡ S.said site) }
    ensures said_then { IfErr result (λ e. S.said e.1 ≡ S.said site) }
    ensures clean { IfOk result (λ r. (S.disk_faults r.site ≡ S.disk_faults site) × (S.say_faults r.site ≡ S.say_faults site)) }
    ensures disk { IfErr result (λ e. CountedAt (e.0 ≡ Status.DiskFault) (S.disk_faults site) (S.disk_faults e.1)) }
    ensures say_faults { IfErr result (λ e. S.say_faults e.1 ≡ S.say_faults site) }
{
    let planned = match look_guarded(alloc, site, Wanted::Rebuild(dump, point)) {
        Ok(planned) => planned,
        Err(refused) => return Err(refused),
    };
    match rebuild(planned, dump) {
        Ok(recovered) => Ok(bared(recovered)),
        Err((fault, guarded)) => Err(unguarded(fault, guarded)),
    }
}
