//! RECONSTRUCT: rows are made again from a dump, over a site of which no other file is written than the audit's and those of as many structures as that needs,
//! and that is said.

ghost use Rattle.std.specs.Prelude.{◌≡◌, ◌≤◌, ◌⊎◌, ℕ, Some, length, IfOk, IfErr, IsTrue};
ghost use Rattle.dms_audfile.specs.Counting.{CountedAt};
ghost use Rattle.dms_opening.specs.Openings.{IsTrailFound};
ghost use Rattle.dms_recovery.specs.Wanting.{last_of};
ghost use Rattle.dms_recovery.specs.Reconstructing.{MayMend};
ghost use Rattle.dms_recovery.specs.Refusing.{RecoveryGrows, StaysUndone};
ghost use Rattle.dms_dumping.specs.Filling.{FillsTrail};
ghost use Rattle.dms_statelaws.specs.SiteLaws.{MendsSince, MendsEnd};
ghost use Rattle.dms_dumping.specs.Statuses.{IsOfReading};
ghost use Rattle.dms_goback.specs.ReconstructDoes.{AreRowsRefused, IsOfMending, NeverRefusesRows, ReconstructDoes};
ghost use Rattle.dms_goback.specs.Restores.{StaysFor};

use crate::going_back::say_restored;
use crate::looking::{bared, look_rows_guarded, unguarded};
use dms_guard::Ended;
use dms_recovery::{Recovered, Wanted, reconstruct};
use dms_site::Site;
use dms_statements::NamedRow;
use dms_status::Status;
use std::alloc::Global;

/// Reconstructs rows from a dump.
fn reconstruct_guarded<S: Site>(
    alloc: Global,
    site: S,
    dump: u16,
    rows: &[NamedRow],
) -> Result<Recovered<S>, (Status, S)>
    requires some { 1 ≤ dump }
    requires few { dump ≤ 9999 }
    requires hundred { length rows.now ≤ 100 }
    ensures moments { IfOk result (λ r. IsTrue S.tells → MendsSince S.Site site r.site dump rows.now) }
    ensures stopped { IfErr result (λ e. IsTrue S.tells → MendsSince S.Site site e.1 dump rows.now) }
    ensures ends { IfOk result (λ r. IsTrue S.tells → MendsEnd S.Site site r.site dump rows.now) }
    ensures point { IfOk result (λ r. IsTrue S.tells → (total first n : ℕ) → IsTrailFound total first (S.files site) → last_of total first (S.files site) ≡ Some n → r.point ≡ n) }
    ensures trail { IfOk result (λ r. IsTrue S.tells → RecoveryGrows S.Site site r.site) }
    ensures trail_then { IfErr result (λ e. IsTrue S.tells → RecoveryGrows S.Site site e.1) }
    ensures beside { IfOk result (λ r. StaysFor S.Site (Wanted.Reconstruct dump) site r.site) }
    ensures beside_then { IfErr result (λ e. StaysFor S.Site (Wanted.Reconstruct dump) site e.1) }
    ensures refused { IfErr result (λ e. IsTrue S.tells → AreRowsRefused S.Site dump rows.now site e.1 e.0) }
    ensures complete { IfErr result (λ e. IsTrue S.tells → NeverRefusesRows dump rows.now (S.files site) e.0) }
    ensures may { IfOk result (λ r. IsTrue S.tells → MayMend (S.files site) dump rows.now) }
    ensures may_then { IfErr result (λ e. IsTrue S.tells → MayMend (S.files site) dump rows.now ⊎ StaysUndone S.Site site e.1) }
    ensures full { IfErr result (λ e. FillsTrail S.Site site e.1 e.0) }
    ensures statuses { IfErr result (λ e. IsOfMending e.0) }
    ensures same { IfOk result (λ r. S.same_site site r.site) }
    ensures same_then { IfErr result (λ e. S.same_site site e.1) }
    ensures said { IfOk result (λ r. S.said r.site ≡ S.said site) }
    ensures said_then { IfErr result (λ e. S.said e.1 ≡ S.said site) }
    ensures clean { IfOk result (λ r. (S.disk_faults r.site ≡ S.disk_faults site) × (S.say_faults r.site ≡ S.say_faults site)) }
    ensures disk { IfErr result (λ e. CountedAt (e.0 ≡ Status.DiskFault) (S.disk_faults site) (S.disk_faults e.1)) }
    ensures say_faults { IfErr result (λ e. S.say_faults e.1 ≡ S.say_faults site) }
{
    let looked = match look_rows_guarded(alloc, site, dump, rows) {
        Ok(looked) => looked,
        Err(refused) => return Err(refused),
    };
    match reconstruct(looked, dump) {
        Ok(recovered) => Ok(bared(recovered)),
        Err((fault, guarded)) => Err(unguarded(fault, guarded)),
    }
}

/// `RECONSTRUCT name ROW r, .. FROM d`, of at most 100 rows and a dump from 1 to 9,999, over a site by value.
pub fn reconstruct_over<S: Site>(alloc: Global, site: S, dump: u16, rows: &[NamedRow]) -> Ended<S>
    requires some { 1 ≤ dump }
    requires few { dump ≤ 9999 }
    requires hundred { length rows.now ≤ 100 }
    ensures does { ReconstructDoes S.Site dump rows.now site result.site result.status }
    ensures taken { IsOfReading result.status → ⊥ }
    ensures disk { CountedAt (result.status ≡ Status.DiskFault) (S.disk_faults site) (S.disk_faults result.site) }
    ensures say { CountedAt (result.status ≡ Status.SayFault) (S.say_faults site) (S.say_faults result.site) }
    ensures same { S.same_site site result.site }
{
    match reconstruct_guarded(alloc, site, dump, rows) {
        Ok(recovered) => say_restored(alloc, b"RECONSTRUCTED AT POINT ", recovered),
        Err((status, site)) => Ended { status, site },
    }
}
