//! What is done for what is asked, and what it needs, before its first write.

ghost use Rattle.std.specs.Prelude.{◌≡◌, ◌≤◌, ◌⊎◌, ℕ, [], false, Some, length, if◌then◌else◌, IfOk, IfErr, IsErrOf, IsTrue};
ghost use Rattle.dms_site.specs.Files.{Files};
ghost use Rattle.dms_history.specs.EntryEvents.{live_of};
ghost use Rattle.dms_history.specs.History.{Pending};
ghost use Rattle.dms_history.specs.Pick.{count_at};
ghost use Rattle.dms_history.specs.Places.{IsLive};
ghost use Rattle.dms_history.specs.SchemaAt.{schema_at};
ghost use Rattle.dms_audfile.specs.Counting.{CountedAt};
ghost use Rattle.dms_audfile.specs.Reads.{ReadsAlone};
ghost use Rattle.dms_audfile.specs.TrailEntries.{trail_entries};
ghost use Rattle.dms_restore.specs.Counts.{count_of, AllAtMost};
ghost use Rattle.dms_restore.specs.Table.{AreBlocks, AreRuns, IsPlan};
ghost use Rattle.dms_opening.specs.Claims.{DescribesAt, HasNone, PlansDone};
ghost use Rattle.dms_opening.specs.DumpLooks.{IsFitFound};
ghost use Rattle.dms_opening.specs.Starts.{TracesDone};
ghost use Rattle.dms_opening.specs.Plans.{IsTrailRead, IsTaggedRead, CannotDescribe, HasNoDescriptionAt, IsPlainFault, AreFoundFor, Plans, PlansFor, FitsOpening, RefusesFor, RefusesPlan};

use crate::asked::Asked;
use crate::choosing::{Choice, OpenFault, choose};
use crate::describing::{read_schema, schema_span};
use crate::dump_looks::{DumpFound, find_begun};
use crate::preparing::{begin_where, plan_pending};
use dms_audfile::{AudFault, EntryPlace};
use dms_history::Row;
use dms_history::laws::points_have_schemas;
use dms_restore::{RestoreTable, TrailHistory, TrailTrace};
use dms_site::Site;
use std::alloc::Global;

/// What is done for what is asked, and what it needs, before its first write.
#[derive(Drop)]
pub struct OpeningPlan {
    pub choice: Choice,
    /// The next number.
    pub next: u64,
    /// What the restore writes.
    pub table: RestoreTable,
    /// How many blocks each of the files 30,001 to 30,200 has at its point.
    pub counts: Vec<u32>,
    /// The bytes of the description there.
    pub schema: Vec<u8>,
}

/// The bytes of a Schema as a description of a trail that begins with file `first`. Damaged where they are none, or more than 65,535.
fn fitting(first: u32, bytes: Vec<u8>) -> Result<Vec<u8>, OpenFault>
    ensures same { IfOk result (λ v. v.items ≡ bytes.items) }
    ensures some { IfOk result (λ v. 1 ≤ length v.items) }
    ensures few { IfOk result (λ v. length v.items ≤ 65535) }
    ensures damaged { IfErr result (λ e. (e ≡ OpenFault.Audit (AudFault.Damaged first 0)) × CannotDescribe bytes.items) }
{
    if bytes.is_empty() || bytes.len() > 65_535 {
        Err(OpenFault::Audit(AudFault::Damaged(first, 0)))
    } else {
        Ok(bytes)
    }
}

/// Reads the description at a point.
///
/// Nothing changes. Answers Disk where a call of the site failed, Memory, and Damaged of file `first` where the Schema there can't be a
/// description's.
pub(crate) fn read_description<S: Site>(
    alloc: Global,
    site: &mut S,
    first: u32,
    places: &[EntryPlace],
    trace: &TrailTrace,
    point: u64,
) -> Result<Vec<u8>, OpenFault>
    ensures bytes { IfOk result (λ v. DescribesAt S.tells first (S.files site.old) places.now trace.now point v.items) }
    ensures some { IfOk result (λ v. 1 ≤ length v.items) }
    ensures few { IfOk result (λ v. length v.items ≤ 65535) }
    ensures only { IfErr result (λ e. HasNone S.tells first (S.files site.old) places.now trace.now point e) }
    ensures reads { ReadsAlone S.Site site.old site.new }
    ensures same_site { S.same_site site.old site.new }
    ensures disk { CountedAt (IsErrOf result (OpenFault.Audit AudFault.Disk)) (S.disk_faults site.old) (S.disk_faults site.new) }
{
    points_have_schemas();
    let span = match schema_span(trace, point) {
        Some(span) => span,
        None => return Err(OpenFault::Audit(AudFault::Damaged(first, 0))),
    };
    match read_schema(alloc, site, places, &span) {
        Ok(bytes) => fitting(first, bytes),
        Err(fault) => Err(OpenFault::Audit(fault)),
    }
}

/// What a restore writes, and how many blocks each of the files 30,001 to 30,200 has at its point. `found` is what its dump is found to be. What is kept
/// gets the Begin of a restore that begins.
///
/// Answers Disk where a call of the site failed, and Memory, of a trail that was scanned.
fn prepare_restore<S: Site>(
    alloc: Global,
    site: &mut S,
    choice: &Choice,
    history: &mut TrailHistory,
    asked: Asked,
    rows: &[Row],
    found: &DumpFound,
) -> Result<(RestoreTable, Vec<u32>), OpenFault>
    requires fit { IsFitFound found.now }
    ensures runs { IfOk result (λ x. AreRuns x.0.runs.items) }
    ensures blocks { IfOk result (λ x. AreBlocks x.0.told.items) }
    ensures plan { IfOk result (λ x. PlansDone S.tells (S.files site.old) history.old asked rows.now choice.now found.now x.0) }
    ensures counts { IfOk result (λ x. IsTrue S.tells → (p : Pending) → TracesDone (S.files site.old) history.old asked rows.now choice.now p
        → (f : ℕ) → count_of x.1.items f ≡ count_at p.entries p.point f) }
    ensures size { IfOk result (λ x. length x.1.items ≡ 200) }
    ensures small { IfOk result (λ x. AllAtMost x.1.items) }
    ensures only { IfErr result (λ e. IsTrue S.tells → (p : Pending) → TracesDone (S.files site.old) history.old asked rows.now choice.now p → IsPlainFault e) }
    ensures kept { choice.now.begins ≡ false → history.new ≡ history.old }
    ensures reads { ReadsAlone S.Site site.old site.new }
    ensures same_site { S.same_site site.old site.new }
    ensures disk { CountedAt (IsErrOf result (OpenFault.Audit AudFault.Disk)) (S.disk_faults site.old) (S.disk_faults site.new) }
{
    match begin_where(history, alloc, choice, asked, rows) {
        Ok(()) => {}
        Err(_) => return Err(OpenFault::Audit(AudFault::Memory)),
    }
    match plan_pending(alloc, site, history, found) {
        Ok(planned) => Ok(planned),
        Err(fault) => Err(OpenFault::Audit(fault)),
    }
}

/// What the dump of the restore is found to be that begins or goes on.
fn found_for<'a>(choice: &Choice, begun: &'a DumpFound, look: &'a DumpFound) -> &'a DumpFound
    ensures { result.now ≡ (if choice.now.begins then look.now else begun.now) }
{
    if choice.begins { look } else { begun }
}

/// What is done for what is asked of a trail that begins with file `first` and was scanned, and what it needs. `rows` are those of a reconstruction,
/// `begun` is what the dump of the restore that is pending is found to be, and `look` the dump that is asked for. Where a restore begins, what is kept gets
/// its Begin.
///
/// Nothing else changes. Answers the first refusal of what is asked, Damaged of file `first` where the Schema at the point has no byte or more than
/// 65,535, Disk where a call of the site failed, and Memory.
pub fn prepare_asked<S: Site>(
    alloc: Global,
    site: &mut S,
    first: u32,
    places: &[EntryPlace],
    trace: &mut TrailTrace,
    asked: Asked,
    rows: &[Row],
    begun: &DumpFound,
    look: &DumpFound,
) -> Result<OpeningPlan, OpenFault>
    requires low { 10001 ≤ first }
    requires begun { IsFitFound begun.now }
    requires look { IsFitFound look.now }
    ensures plans { IfOk result (λ plan. IsTrue S.tells → (total : ℕ) → AreFoundFor total first (S.files site.old) places.now trace.old asked begun.now look.now
        → PlansFor total first (S.files site.old) asked rows.now plan) }
    ensures fit { IfOk result FitsOpening }
    ensures refused { IfErr result (λ e. IsTrue S.tells → (total : ℕ) → AreFoundFor total first (S.files site.old) places.now trace.old asked begun.now look.now
        → RefusesFor total first (S.files site.old) asked e) }
    ensures kept { IfOk result (λ plan. plan.choice.begins ≡ false → trace.new ≡ trace.old) }
    ensures reads { ReadsAlone S.Site site.old site.new }
    ensures same_site { S.same_site site.old site.new }
    ensures disk { CountedAt (IsErrOf result (OpenFault.Audit AudFault.Disk)) (S.disk_faults site.old) (S.disk_faults site.new) }
{
    let choice = match choose(
        &trace.history,
        alloc,
        first,
        asked,
        begun.look(),
        look.look(),
    ) {
        Ok(choice) => choice,
        Err(fault) => return Err(fault),
    };
    let schema = match read_description(alloc, site, first, places, trace, choice.point) {
        Ok(schema) => schema,
        Err(fault) => return Err(fault),
    };
    let next = trace.history.next;
    let found = found_for(&choice, begun, look);
    match prepare_restore(alloc, site, &choice, &mut trace.history, asked, rows, found) {
        Ok((table, counts)) => Ok(OpeningPlan {
            choice,
            next,
            table,
            counts,
            schema,
        }),
        Err(fault) => Err(fault),
    }
}

/// What an opening does, and what it needs, of a trail that begins with file `first`, has this tag and was scanned. The dump of a restore that is pending is looked
/// at.
///
/// Nothing changes. Answers the first refusal by the pending restore and the last point, Damaged of file `first` where the Schema at the
/// point has no byte or more than 65,535, Disk where a call of the site failed, and Memory.
pub fn prepare<S: Site>(
    alloc: Global,
    site: &mut S,
    first: u32,
    tag: u64,
    places: &[EntryPlace],
    trace: TrailTrace,
) -> Result<OpeningPlan, OpenFault>
    requires { 10001 ≤ first }
    ensures plans { IfOk result (λ plan. IsTrue S.tells → (total : ℕ) → IsTaggedRead total tag first (S.files site.old) places.now trace → Plans total first (S.files site.old) plan) }
    ensures fit { IfOk result FitsOpening }
    ensures refused { IfErr result (λ e. IsTrue S.tells → (total : ℕ) → IsTaggedRead total tag first (S.files site.old) places.now trace → RefusesPlan total first (S.files site.old) e) }
    ensures reads { ReadsAlone S.Site site.old site.new }
    ensures same_site { S.same_site site.old site.new }
    ensures disk { CountedAt (IsErrOf result (OpenFault.Audit AudFault.Disk)) (S.disk_faults site.old) (S.disk_faults site.new) }
{
    let begun = match find_begun(alloc, site, tag, &trace.history) {
        Ok(begun) => begun,
        Err(fault) => return Err(OpenFault::Audit(fault)),
    };
    let none = DumpFound::Missing;
    let mut trace = trace;
    let planned = prepare_asked(
        alloc,
        site,
        first,
        places,
        &mut trace,
        Asked::HaltLoad,
        &[],
        &begun,
        &none,
    );
    begun.let_go();
    none.let_go();
    planned
}
