//! What a statement does, and what it needs, before its first write.

ghost use Rattle.std.specs.Prelude.{◌≡◌, ◌≤◌, ℕ, IfOk, IfErr, IsErrOf, IsTrue};
ghost use Rattle.dms_audfile.specs.Counting.{CountedAt};
ghost use Rattle.dms_audfile.specs.Reads.{ReadsAlone};
ghost use Rattle.dms_opening.specs.DumpLooks.{IsFitFound};
ghost use Rattle.dms_opening.specs.Plans.{AreFoundFor, IsTaggedRead};
ghost use Rattle.dms_recovery.specs.Planned.{PlansAll, AreFit, AreNamed, RefusesAll};

use crate::cutting::cut;
use crate::finding::find_asked;
use dms_audfile::{AudFault, EntryPlace};
use dms_history::Row;
use dms_opening::{
    Asked, DumpFound, OpenFault, OpeningPlan, find_begun, prepare_asked, prepare_behind,
};
use dms_restore::TrailTrace;
use dms_site::Site;
use std::alloc::Global;

/// What ends the restore that is pending, where that goes first, and the restore that is asked for.
pub(crate) struct Plans {
    pub(crate) before: Option<OpeningPlan>,
    pub(crate) own: OpeningPlan,
}

/// What is done for what is asked of a trail that begins with file `first` and was scanned, by what the dumps are found to be. Nothing changes.
fn plan_found<S: Site>(
    alloc: Global,
    site: &mut S,
    first: u32,
    places: &[EntryPlace],
    trace: TrailTrace,
    asked: Asked,
    rows: &[Row],
    begun: &DumpFound,
    look: &DumpFound,
) -> Result<Plans, OpenFault>
    requires low { 10001 ≤ first }
    requires begun { IsFitFound begun.now }
    requires look { IsFitFound look.now }
    ensures plans { IfOk result (λ p. IsTrue S.tells → (total : ℕ) → AreFoundFor total first (S.files site.old) places.now trace asked begun.now look.now
        → PlansAll total first (S.files site.old) asked rows.now p.before p.own) }
    ensures fit { IfOk result (λ p. AreFit p.before p.own) }
    ensures named { IfOk result (λ p. AreNamed p.before p.own) }
    ensures refused { IfErr result (λ e. IsTrue S.tells → (total : ℕ) → AreFoundFor total first (S.files site.old) places.now trace asked begun.now look.now
        → RefusesAll total first (S.files site.old) asked e) }
    ensures reads { ReadsAlone S.Site site.old site.new }
    ensures same_site { S.same_site site.old site.new }
    ensures disk { CountedAt (IsErrOf result (OpenFault.Audit AudFault.Disk)) (S.disk_faults site.old) (S.disk_faults site.new) }
{
    let mut trace = trace;
    let plan = match prepare_asked(
        alloc, site, first, places, &mut trace, asked, rows, begun, look,
    ) {
        Ok(plan) => plan,
        Err(fault) => return Err(fault),
    };
    let plan = match cut(alloc, plan) {
        Ok(plan) => plan,
        Err(fault) => return Err(fault),
    };
    if plan.choice.begins {
        return Ok(Plans {
            before: None,
            own: plan,
        });
    }
    let own = match prepare_behind(alloc, site, first, places, trace, asked, rows, look) {
        Ok(own) => own,
        Err(fault) => return Err(fault),
    };
    match cut(alloc, own) {
        Ok(own) => Ok(Plans {
            before: Some(plan),
            own,
        }),
        Err(fault) => Err(fault),
    }
}

/// What is done for what is asked of a trail that begins with file `first`, has this tag and was scanned. The dumps of the restores are looked at.
/// Nothing changes.
pub(crate) fn plan_asked<S: Site>(
    alloc: Global,
    site: &mut S,
    first: u32,
    tag: u64,
    places: &[EntryPlace],
    trace: TrailTrace,
    asked: Asked,
    rows: &[Row],
) -> Result<Plans, OpenFault>
    requires low { 10001 ≤ first }
    ensures plans { IfOk result (λ p. IsTrue S.tells → (total : ℕ) → IsTaggedRead total tag first (S.files site.old) places.now trace
        → PlansAll total first (S.files site.old) asked rows.now p.before p.own) }
    ensures fit { IfOk result (λ p. AreFit p.before p.own) }
    ensures named { IfOk result (λ p. AreNamed p.before p.own) }
    ensures refused { IfErr result (λ e. IsTrue S.tells → (total : ℕ) → IsTaggedRead total tag first (S.files site.old) places.now trace
        → RefusesAll total first (S.files site.old) asked e) }
    ensures reads { ReadsAlone S.Site site.old site.new }
    ensures same_site { S.same_site site.old site.new }
    ensures disk { CountedAt (IsErrOf result (OpenFault.Audit AudFault.Disk)) (S.disk_faults site.old) (S.disk_faults site.new) }
{
    let begun = match find_begun(alloc, site, tag, &trace.history) {
        Ok(begun) => begun,
        Err(fault) => return Err(OpenFault::Audit(fault)),
    };
    let look = match find_asked(alloc, site, tag, asked) {
        Ok(look) => look,
        Err(fault) => {
            begun.let_go();
            return Err(OpenFault::Audit(fault));
        }
    };
    let planned = plan_found(
        alloc, site, first, places, trace, asked, rows, &begun, &look,
    );
    begun.let_go();
    look.let_go();
    planned
}
