//! A database is looked at, and no block that its opening takes from a structure file is missing.

ghost use Rattle.std.specs.Prelude.{◌≡◌, ◌≢◌, IfOk, IfErr, IsErrOf, IsTrue};
ghost use Rattle.dms_audfile.specs.Counting.{CountedAt};
ghost use Rattle.dms_audfile.specs.Reads.{ReadsAlone};
ghost use Rattle.dms_opening.specs.Carrying.{IsFitPlan};
ghost use Rattle.dms_opening.specs.Looking.{IsLookedAt};
ghost use Rattle.dms_opening.specs.Openings.{NamesStructures};
ghost use Rattle.dms_opening.specs.Short.{NoneShort};
ghost use Rattle.dms_opening.specs.Whole.{JudgesWhole, RefusesWhole, NoShortOf, StaysRead};

use crate::{Found, OpenFault, OpeningPlan, PlannedOpening, first_short, look};
use dms_audfile::AudFault;
use dms_restore::Log;
use dms_site::Site;
use std::alloc::Global;

/// Why a database isn't opened.
#[derive(Clone, Copy)]
pub enum OpenRefusal {
    /// Its trail, a restore that is pending or its last point is refused, a call of the site failed, or memory was refused.
    Fault(OpenFault),
    /// A block of a structure file isn't there whole, and the opening doesn't write it.
    Short(u32, u32),
}

/// Judges whether all blocks are there that an opening that is planned takes from structure files. Nothing changes, and no block is read.
fn judge_whole<S: Site>(site: &mut S, plan: &OpeningPlan) -> Result<(), OpenRefusal>
    requires { IsFitPlan plan.now }
    ensures whole { IfOk result (λ o. IsTrue S.tells → NoneShort (S.files site.old) plan.now.counts.items plan.now.table) }
    ensures refused { IfErr result (λ e. IsTrue S.tells → JudgesWhole (S.files site.old) plan.now e) }
    ensures reads { ReadsAlone S.Site site.old site.new }
    ensures same_site { S.same_site site.old site.new }
    ensures disk { CountedAt (IsErrOf result (OpenRefusal.Fault (OpenFault.Audit AudFault.Disk))) (S.disk_faults site.old) (S.disk_faults site.new) }
{
    match first_short(site, &plan.counts, &plan.table) {
        Err(_) => Err(OpenRefusal::Fault(OpenFault::Audit(AudFault::Disk))),
        Ok(Some(short)) => Err(OpenRefusal::Short(short.file, short.block)),
        Ok(None) => Ok(()),
    }
}

/// Looks at the database of a site and plans its opening. Nothing changes.
///
/// Answers the first refusal of the opening, and then the first block that it would take from a structure file that ends before or within it.
pub fn look_whole<S: Site>(alloc: Global, site: S) -> Result<PlannedOpening<S>, (OpenRefusal, S)>
    ensures looked { IfOk result (λ p. IsTrue S.tells → IsLookedAt S.Site p) }
    ensures whole { IfOk result (λ p. IsTrue S.tells → NoShortOf (S.files site)) }
    ensures ready { IfOk result (λ p. IsFitPlan p.plan) }
    ensures named { IfOk result (λ p. NamesStructures p.plan.schema.items p.plan.counts.items) }
    ensures limit { IfOk result (λ p. p.log.end.limit ≡ 9999) }
    ensures refused { IfErr result (λ e. IsTrue S.tells → RefusesWhole (S.files site) e.0) }
    ensures room { IfErr result (λ e. IsTrue S.tells → e.0 ≢ OpenRefusal.Fault (OpenFault.Audit (AudFault.Full 9999))) }
    ensures stays { IfOk result (λ p. StaysRead S.Site site p.log.site) }
    ensures stays_then { IfErr result (λ e. StaysRead S.Site site e.1) }
    ensures clean { IfOk result (λ p. S.disk_faults p.log.site ≡ S.disk_faults site) }
    ensures disk { IfErr result (λ e. CountedAt (e.0 ≡ OpenRefusal.Fault (OpenFault.Audit AudFault.Disk)) (S.disk_faults site) (S.disk_faults e.1)) }
{
    let planned = match look(alloc, Found { site }) {
        Ok(planned) => planned,
        Err((fault, site)) => return Err((OpenRefusal::Fault(fault), site)),
    };
    let PlannedOpening { log, plan } = planned;
    let Log {
        mut site,
        end,
        first,
    } = log;
    match judge_whole(&mut site, &plan) {
        Ok(()) => Ok(PlannedOpening {
            log: Log { site, end, first },
            plan,
        }),
        Err(refusal) => Err((refusal, site)),
    }
}
