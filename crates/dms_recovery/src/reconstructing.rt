//! Reconstruction of rows.

ghost use Rattle.std.specs.Prelude.{◌≡◌, ◌≤◌, ℕ, Some, length, IfOk, IfErr, IsTrue};
ghost use Rattle.dms_audrec.specs.Spelling.{AreRows};
ghost use Rattle.dms_audfile.specs.Counting.{CountedAt};
ghost use Rattle.dms_opening.specs.Openings.{IsTrailFound, IsFullFault, HasFullTrail, MayHaveWritten};
ghost use Rattle.dms_opening.specs.Whole.{StaysRead};
ghost use Rattle.dms_recovery.specs.Claims.{ReconstructReaches, ReconstructLeaves};
ghost use Rattle.dms_recovery.specs.Marks.{MarksNamed};
ghost use Rattle.dms_recovery.specs.Looked.{AreLookedFor, SinceRows, rows_in};
ghost use Rattle.dms_recovery.specs.Planned.{AreFit, AreNamed};
ghost use Rattle.dms_recovery.specs.Reconstructing.{IsOpenFault, MayMend, RefusesReconstruct};
ghost use Rattle.dms_recovery.specs.Refusing.{RecoveryGrows};
ghost use Rattle.dms_recovery.specs.Wanting.{last_of};

use crate::looking::{PlannedRestore, look_for};
use crate::naming::{FoundRows, ReconstructFault, look_for_rows};
use crate::recovering::recover;
use crate::{Recovered, Wanted};
use dms_audfile::AudFault;
use dms_audrec::BeginHow;
use dms_base::Bytes;
use dms_opening::{Found, OpenFault};
use dms_site::Site;
use dms_statements::NamedRow;
use std::alloc::Global;

/// What is done where rows are reconstructed, and the bytes of these rows, as the audit has them: nothing was written yet.
pub struct PlannedRows<S: Site> {
    pub planned: PlannedRestore<S>,
    pub list: Bytes,
}

/// Looks at a database, of which at most 100 rows are wanted from a dump, finds these rows, and plans their reconstruction at the last point. Nothing changes.
///
/// Answers the first refusal of the trail, of a restore that is pending, of the last point and of the dump, then NoSuchRow with the first row that isn't there,
/// Disk where a call of the site failed, and Memory.
pub fn plan_rows<S: Site>(
    alloc: Global,
    found: Found<S>,
    dump: u16,
    named: &[NamedRow],
) -> Result<PlannedRows<S>, (ReconstructFault, S)>
    requires hundred { length named.now ≤ 100 }
    ensures looked { IfOk result (λ p. AreLookedFor S.Site found.site dump named.now p) }
    ensures fit { IfOk result (λ p. AreFit p.planned.before p.planned.own) }
    ensures named { IfOk result (λ p. AreNamed p.planned.before p.planned.own) }
    ensures limit { IfOk result (λ p. p.planned.log.end.limit ≡ 9999) }
    ensures rows { IfOk result (λ p. AreRows (rows_in p.list)) }
    ensures few { IfOk result (λ p. length (rows_in p.list) ≤ 100) }
    ensures may { IfOk result (λ p. IsTrue S.tells → MayMend (S.files found.site) dump named.now) }
    ensures refused { IfErr result (λ e. IsTrue S.tells → RefusesReconstruct (S.files found.site) dump named.now e.0) }
    ensures room { IfErr result (λ e. IsTrue S.tells → IsOpenFault e.0 IsFullFault → ⊥) }
    ensures stays_then { IfErr result (λ e. StaysRead S.Site found.site e.1) }
    ensures disk { IfErr result (λ e. CountedAt (e.0 ≡ ReconstructFault.Open (OpenFault.Audit AudFault.Disk)) (S.disk_faults found.site) (S.disk_faults e.1)) }
{
    let looked = match look_for_rows(alloc, found, dump, named) {
        Ok(looked) => looked,
        Err(refused) => return Err(refused),
    };
    let FoundRows { site, rows, list } = looked;
    match look_for(alloc, Found { site }, Wanted::Reconstruct(dump), &rows) {
        Ok(planned) => Ok(PlannedRows { planned, list }),
        Err((fault, site)) => Err((ReconstructFault::Open(fault), site)),
    }
}

/// Reconstructs rows of structures from a dump, from 1 to 9,999, of a database that was looked at for that. What these rows hold doesn't matter. A restore that
/// is pending is ended first.
///
/// All that is refused was refused before, and all memory was taken: it answers Disk where a call of the site failed, and Full where the audit has no room.
pub fn reconstruct<S: Site>(
    looked: PlannedRows<S>,
    dump: u16,
) -> Result<Recovered<S>, (OpenFault, S)>
    requires some { 1 ≤ dump }
    requires few { dump ≤ 9999 }
    requires fit { AreFit looked.planned.before looked.planned.own }
    requires limit { looked.planned.log.end.limit ≡ 9999 }
    requires rows { AreRows (rows_in looked.list) }
    requires hundred { length (rows_in looked.list) ≤ 100 }
    ensures ends { IfOk result (λ r. SinceRows S.Site dump looked (λ named from. ReconstructReaches S.Site from r.site dump named)) }
    ensures moments { IfOk result (λ r. SinceRows S.Site dump looked (λ named from. ReconstructLeaves S.Site from r.site dump named)) }
    ensures stopped { IfErr result (λ e. SinceRows S.Site dump looked (λ named from. ReconstructLeaves S.Site from e.1 dump named)) }
    ensures point { IfOk result (λ r. SinceRows S.Site dump looked (λ named from. IsTrue S.tells → (total first n : ℕ) → IsTrailFound total first (S.files from)
        → last_of total first (S.files from) ≡ Some n → r.point ≡ n)) }
    ensures marked { IfOk result (λ r. SinceRows S.Site dump looked (λ named from. IsTrue S.tells → MarksNamed (S.files from) (S.files r.site) dump named)) }
    ensures only { IfErr result (λ e. SinceRows S.Site dump looked (λ named from. IsTrue S.tells → MayHaveWritten e.0)) }
    ensures full { IfErr result (λ e. SinceRows S.Site dump looked (λ named from. IsTrue S.tells → IsFullFault e.0 → HasFullTrail (S.files from) (S.files e.1))) }
    ensures grows { IfOk result (λ r. SinceRows S.Site dump looked (λ named from. IsTrue S.tells → RecoveryGrows S.Site from r.site)) }
    ensures grows_then { IfErr result (λ e. SinceRows S.Site dump looked (λ named from. IsTrue S.tells → RecoveryGrows S.Site from e.1)) }
    ensures same { IfOk result (λ r. S.same_site looked.planned.log.site r.site) }
    ensures same_then { IfErr result (λ e. S.same_site looked.planned.log.site e.1) }
    ensures said { IfOk result (λ r. S.said r.site ≡ S.said looked.planned.log.site) }
    ensures said_then { IfErr result (λ e. S.said e.1 ≡ S.said looked.planned.log.site) }
    ensures clean { IfOk result (λ r. (S.disk_faults r.site ≡ S.disk_faults looked.planned.log.site) × (S.say_faults r.site ≡ S.say_faults looked.planned.log.site)) }
    ensures disk { IfErr result (λ e. CountedAt (e.0 ≡ OpenFault.Audit AudFault.Disk) (S.disk_faults looked.planned.log.site) (S.disk_faults e.1)) }
    ensures say_faults { IfErr result (λ e. S.say_faults e.1 ≡ S.say_faults looked.planned.log.site) }
{
    let PlannedRows { planned, list } = looked;
    recover(planned, BeginHow::Reconstruct(dump, list.as_slice()))
}
