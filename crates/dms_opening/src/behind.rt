//! What is asked of a database whose pending restore ends first, before the first write of both.

ghost use Rattle.std.specs.Prelude.{◌≡◌, ◌⊎◌, ℕ, None, IfOk, IfErr, IsErrOf, IsTrue};
ghost use Rattle.dms_audfile.specs.Counting.{CountedAt};
ghost use Rattle.dms_audfile.specs.Reads.{ReadsAlone};
ghost use Rattle.dms_opening.specs.declared.dump_looks.DumpFound as found;
ghost use Rattle.dms_opening.specs.Behind.{PlansBehind, RefusesBehind};
ghost use Rattle.dms_opening.specs.Claims.{IfAsked};
ghost use Rattle.dms_opening.specs.DumpLooks.{IsFitFound};
ghost use Rattle.dms_opening.specs.Plans.{AreFoundFor, FitsOpening};

use crate::asked::Asked;
use crate::choosing::{Choice, OpenFault, point_of};
use crate::dump_looks::DumpFound;
use crate::numbers::last_point;
use crate::plan::{OpeningPlan, read_description};
use crate::preparing::{begin_own, plan_pending};
use dms_audfile::{AudFault, EntryPlace};
use dms_history::Row;
use dms_restore::TrailTrace;
use dms_site::Site;
use std::alloc::Global;

/// What the restore that is asked for does, and what it needs, once the one that is pending has ended: of a trail that begins with file `first` and was
/// scanned, of which nothing was refused. `rows` are those of a reconstruction, and `look` is what the dump that is asked for is found to be.
///
/// Nothing changes. Answers Damaged of file `first` where the Schema at the point has no byte or more than 65,535, Disk where a call of the site failed,
/// and Memory.
pub fn prepare_behind<S: Site>(
    alloc: Global,
    site: &mut S,
    first: u32,
    places: &[EntryPlace],
    trace: TrailTrace,
    asked: Asked,
    rows: &[Row],
    look: &DumpFound,
) -> Result<OpeningPlan, OpenFault>
    requires look { IsFitFound look.now }
    ensures plans { IfOk result (λ plan. IfAsked S.tells first (S.files site.old) places.now trace asked look.now (λ total. PlansBehind total first (S.files site.old) asked rows.now plan)) }
    ensures fit { IfOk result FitsOpening }
    ensures refused { IfErr result (λ e. IfAsked S.tells first (S.files site.old) places.now trace asked look.now (λ total. RefusesBehind total first (S.files site.old) asked e)) }
    ensures reads { ReadsAlone S.Site site.old site.new }
    ensures same_site { S.same_site site.old site.new }
    ensures disk { CountedAt (IsErrOf result (OpenFault.Audit AudFault.Disk)) (S.disk_faults site.old) (S.disk_faults site.new) }
{
    let point = point_of(asked, last_point(&trace.history));
    let schema = match read_description(alloc, site, first, places, &trace, point) {
        Ok(schema) => schema,
        Err(fault) => return Err(fault),
    };
    let next = trace.history.next;
    let mut history = trace.history;
    match begin_own(&mut history, alloc, point, asked, rows) {
        Ok(()) => {}
        Err(_) => return Err(OpenFault::Audit(AudFault::Memory)),
    }
    match plan_pending(alloc, site, &history, look) {
        Ok((table, counts)) => Ok(OpeningPlan {
            choice: Choice {
                begins: true,
                point,
            },
            next,
            table,
            counts,
            schema,
        }),
        Err(fault) => Err(OpenFault::Audit(fault)),
    }
}
