//! A database is opened over a guarded site.

ghost use Rattle.std.specs.Prelude.{◌≡◌, ◌≤◌, ◌⊎◌, ◌+◌, ℕ, length, IfOk, IfErr, IsTrue};
ghost use Rattle.dms_moments.specs.Moments.{Steps};
ghost use Rattle.dms_site.specs.Files.{Same};
ghost use Rattle.dms_audfile.specs.Counting.{CountedAt};
ghost use Rattle.dms_wal.specs.Lifting.{AreCounts};
ghost use Rattle.dms_wal.specs.Marks.{IsDescription};
ghost use Rattle.dms_opening.specs.Openings.{NamesStructures, OpensAt, RunsWhere, ReopensSince, IsFullFault, HasFullTrail, OpeningGrows, MayHaveWritten, IsOpenable, IsNoRefusal};
ghost use Rattle.dms_opening.specs.Whole.{NoShortOf, OnFault, RefusesWhole, CanOpenWhole, StaysUnopenedWhole};
ghost use Rattle.dms_guard.specs.Bare.{bare};
ghost use Rattle.dms_guard.specs.Guard.{StaysBeside, StaysBut};

use crate::planned::guarded;
use crate::site::RunSite;
use dms_audfile::AudFault;
use dms_opening::{OpenFault, OpenRefusal, Opened, look_whole};
use dms_site::Site;
use std::alloc::Global;
use std::marker::{Brand, PhantomData};

/// Opens the database of a site: begins a restore by halt/load to the last point, or goes on with the restore that is pending, and ends it. The audit may go
/// on up to file 9,999 meanwhile. From the first write on the site is guarded: of it only audit files are written, and the files of as many structures as the
/// description at the point names, and of those behind them up to the last that has a block there.
///
/// Answers the first refusal of the trail, of a restore that is pending and of the last point, and then the first block that it would take from a structure
/// file that ends before or within it, before anything is written, Disk where a call of the site failed, Full where the audit has no room, and Memory,
/// before anything is written.
pub fn open<S: Site>(
    alloc: Global,
    site: S,
) -> Result<Opened<RunSite<S, Brand>>, (OpenRefusal, RunSite<S, Brand>)>
    ensures opens { IfOk result (λ o. IsTrue S.tells → OpensAt o.log.end.total o.log.first (S.files site) o.point o.next o.schema.items o.counts.items) }
    ensures whole { IfOk result (λ o. IsTrue S.tells → NoShortOf (S.files site)) }
    ensures runs { IfOk result (λ o. IsTrue S.tells → RunsWhere S.Site (S.files site) (bare o)) }
    ensures fit { IfOk result (λ o. IsDescription o.schema.items × AreCounts o.counts.items) }
    ensures named { IfOk result (λ o. NamesStructures o.schema.items o.counts.items) }
    ensures limit { IfOk result (λ o. o.log.end.limit ≡ 9999) }
    ensures moments { IfOk result (λ o. IsTrue S.tells → ReopensSince S.Site site o.log.site.site) }
    ensures stopped { IfErr result (λ e. IsTrue S.tells → ReopensSince S.Site site e.1.site) }
    ensures refused { IfErr result (λ e. IsTrue S.tells → RefusesWhole (S.files site) e.0) }
    ensures full { IfErr result (λ e. IsTrue S.tells → OnFault e.0 IsFullFault → HasFullTrail (S.files site) (S.files e.1.site)) }
    ensures grows { IfOk result (λ o. IsTrue S.tells → OpeningGrows S.Site site o.log.site.site) }
    ensures grows_then { IfErr result (λ e. IsTrue S.tells → OpeningGrows S.Site site e.1.site) }
    ensures begun { IfErr result (λ e. IsTrue S.tells → CanOpenWhole (S.files site) ⊎ StaysUnopenedWhole S.Site site e.1.site e.0) }
    ensures complete { IfErr result (λ e. IsTrue S.tells → (total first : ℕ) → IsOpenable total first (S.files site) → OnFault e.0 IsNoRefusal) }
    ensures files_then { IfErr result (λ e. IsTrue S.tells → (OnFault e.0 MayHaveWritten → ⊥) → S.files e.1.site ≡ S.files site) }
    ensures moments_then { IfErr result (λ e. IsTrue S.tells → (OnFault e.0 MayHaveWritten → ⊥) → Steps Same (S.clock site) (S.clock e.1.site)) }
    ensures same { IfOk result (λ o. S.same_site site o.log.site.site) }
    ensures same_then { IfErr result (λ e. S.same_site site e.1.site) }
    ensures within { IfOk result (λ o. (o.log.site.structures ≡ length o.counts.items) × StaysBut S.Site (length o.counts.items) site o.log.site.site) }
    ensures beside_then { IfErr result (λ e. StaysBeside S.Site site e.1.site) }
    ensures said { IfOk result (λ o. S.said o.log.site.site ≡ S.said site) }
    ensures said_then { IfErr result (λ e. S.said e.1.site ≡ S.said site) }
    ensures clean { IfOk result (λ o. (S.disk_faults o.log.site.site + o.log.site.refused ≡ S.disk_faults site) × (S.say_faults o.log.site.site ≡ S.say_faults site)) }
    ensures counted { IfOk result (λ o. S.disk_faults site ≤ S.disk_faults o.log.site.site) }
    ensures counted_then { IfErr result (λ e. S.disk_faults site ≤ S.disk_faults e.1.site) }
    ensures disk { IfErr result (λ e. CountedAt (e.0 ≡ OpenRefusal.Fault (OpenFault.Audit AudFault.Disk)) (S.disk_faults site) (S.disk_faults e.1.site + e.1.refused)) }
    ensures say_faults { IfErr result (λ e. S.say_faults e.1.site ≡ S.say_faults site) }
{
    let planned = match look_whole(alloc, site) {
        Ok(planned) => planned,
        Err((refusal, site)) => {
            let by: PhantomData<Brand> = PhantomData;
            let guarded = RunSite {
                site,
                structures: 0,
                refused: 0,
                by,
            };
            return Err((refusal, guarded));
        }
    };
    match guarded(planned).open() {
        Ok(opened) => Ok(opened),
        Err((fault, site)) => Err((OpenRefusal::Fault(fault), site)),
    }
}
