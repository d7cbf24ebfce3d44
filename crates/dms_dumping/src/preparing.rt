//! A database is opened to be dumped. All that is refused is refused before the first write, and all memory is taken before it.

ghost use Rattle.std.specs.Prelude.{◌≡◌, ◌≤◌, ◌+◌, ◌⊎◌, ℕ, IfOk, IfErr, IsTrue};
ghost use Rattle.dms_audfile.specs.Counting.{CountedAt};
ghost use Rattle.dms_opening.specs.Openings.{OpensAt, RunsWhere, ReopensSince, OpeningGrows};
ghost use Rattle.dms_restore.specs.Counts.{file_counts};
ghost use Rattle.dms_dumping.specs.Filling.{FillsTrail};
ghost use Rattle.dms_guard.specs.Bare.{bare};
ghost use Rattle.dms_guard.specs.Guard.{StaysBeside};
ghost use Rattle.dms_dumping.specs.Writing.{dumped_text};
ghost use Rattle.dms_dumping.specs.Statuses.{IsDumpRefusal, IsOfPreparing};
ghost use Rattle.dms_dumping.specs.Preparing.{IsDumpRefused, NeverRefusesDump};
ghost use Rattle.dms_dumping.specs.Refusing.{CanDump};
ghost use Rattle.dms_opening.specs.Whole.{StaysRead};
ghost use Rattle.dms_wal.specs.Lifting.{AreCounts};

use crate::looking::{DumpPlan, look_to_dump, status_of_refusal};
use crate::saying::dumped_text;
use dms_base::Bytes;
use dms_guard::{RunSite, guarded, status_of_open};
use dms_history::FileCount;
use dms_opening::Opened;
use dms_restore::Log;
use dms_site::Site;
use dms_status::Status;
use std::alloc::Global;
use std::marker::Brand;

/// A database that was opened to be dumped.
pub(crate) struct ReadyDump<S: Site> {
    pub opened: Opened<S>,
    /// How many blocks each structure file has.
    pub counts: Vec<FileCount>,
    /// What is said when the dump is made.
    pub line: Bytes,
}

/// Judges a dump and opens the database for it. From the first write on the site is guarded: of it only audit files are written, and the files of as many
/// structures as the opening needs.
fn open_to_dump<S: Site>(
    alloc: Global,
    site: S,
    dump: u16,
) -> Result<ReadyDump<RunSite<S, Brand>>, (Status, S)>
    ensures opens { IfOk result (λ r. IsTrue S.tells → OpensAt r.opened.log.end.total r.opened.log.first (S.files site) r.opened.point r.opened.next r.opened.schema.items r.opened.counts.items) }
    ensures runs { IfOk result (λ r. IsTrue S.tells → RunsWhere S.Site (S.files site) (bare r.opened)) }
    ensures table { IfOk result (λ r. AreCounts r.opened.counts.items) }
    ensures counts { IfOk result (λ r. r.counts.items ≡ file_counts 30001 r.opened.counts.items) }
    ensures line { IfOk result (λ r. r.line ≡ dumped_text dump r.opened.point) }
    ensures moments { IfOk result (λ r. IsTrue S.tells → ReopensSince S.Site site r.opened.log.site.site) }
    ensures stopped { IfErr result (λ e. IsTrue S.tells → ReopensSince S.Site site e.1) }
    ensures beside { IfOk result (λ r. StaysBeside S.Site site r.opened.log.site.site) }
    ensures beside_then { IfErr result (λ e. StaysBeside S.Site site e.1) }
    ensures grows { IfOk result (λ r. IsTrue S.tells → OpeningGrows S.Site site r.opened.log.site.site) }
    ensures grows_then { IfErr result (λ e. IsTrue S.tells → OpeningGrows S.Site site e.1) }
    ensures refused { IfErr result (λ e. IsDumpRefusal e.0 → IsTrue S.tells → IsDumpRefused S.Site dump site e.1 e.0) }
    ensures can { IfOk result (λ r. IsTrue S.tells → CanDump dump (S.files site)) }
    ensures can_then { IfErr result (λ e. IsTrue S.tells → CanDump dump (S.files site) ⊎ StaysRead S.Site site e.1) }
    ensures complete { IfErr result (λ e. IsTrue S.tells → NeverRefusesDump dump (S.files site) e.0) }
    ensures full { IfErr result (λ e. FillsTrail S.Site site e.1 e.0) }
    ensures statuses { IfErr result (λ e. IsOfPreparing e.0) }
    ensures same { IfOk result (λ r. S.same_site site r.opened.log.site.site) }
    ensures same_then { IfErr result (λ e. S.same_site site e.1) }
    ensures said { IfOk result (λ r. S.said r.opened.log.site.site ≡ S.said site) }
    ensures said_then { IfErr result (λ e. S.said e.1 ≡ S.said site) }
    ensures clean { IfOk result (λ r. (S.disk_faults r.opened.log.site.site ≡ S.disk_faults site) × (S.say_faults r.opened.log.site.site ≡ S.say_faults site)) }
    ensures disk { IfErr result (λ e. CountedAt (e.0 ≡ Status.DiskFault) (S.disk_faults site) (S.disk_faults e.1)) }
    ensures say_faults { IfErr result (λ e. S.say_faults e.1 ≡ S.say_faults site) }
{
    let plan = match look_to_dump(alloc, site, dump) {
        Ok(plan) => plan,
        Err((refusal, site)) => return Err((status_of_refusal(refusal), site)),
    };
    let DumpPlan { planned, counts } = plan;
    let line = match dumped_text(alloc, dump, planned.plan.choice.point) {
        Ok(line) => line,
        Err(_) => return Err((Status::Memory, planned.into_site())),
    };
    match guarded(planned).open() {
        Ok(opened) => Ok(ReadyDump {
            opened,
            counts,
            line,
        }),
        Err((fault, guarded)) => {
            let RunSite {
                site,
                structures: _,
                refused,
                by: _by,
            } = guarded;
            // No opening comes to a call that is refused: nothing below writes another file.
            if refused > 0 {
                return Err((Status::Memory, site));
            }
            Err((status_of_open(fault), site))
        }
    }
}

/// The site below a guarded one.
fn bared<S: Site>(ready: ReadyDump<RunSite<S, Brand>>) -> ReadyDump<S>
    ensures site { result.opened.log.site ≡ ready.opened.log.site.site }
    ensures trail { (result.opened.log.end ≡ ready.opened.log.end) × (result.opened.log.first ≡ ready.opened.log.first) }
    ensures kept { (result.opened.schema ≡ ready.opened.schema) × (result.opened.counts ≡ ready.opened.counts) }
    ensures numbers { (result.opened.next ≡ ready.opened.next) × (result.opened.point ≡ ready.opened.point) × (result.opened.audit ≡ ready.opened.audit) }
    ensures beside { (result.counts ≡ ready.counts) × (result.line ≡ ready.line) }
{
    let ReadyDump {
        opened,
        counts,
        line,
    } = ready;
    let Opened {
        log,
        schema,
        counts: table,
        next,
        point,
        audit,
    } = opened;
    let Log { site, end, first } = log;
    let RunSite {
        site,
        structures: _,
        refused: _,
        by: _by,
    } = site;
    ReadyDump {
        opened: Opened {
            log: Log { site, end, first },
            schema,
            counts: table,
            next,
            point,
            audit,
        },
        counts,
        line,
    }
}

/// Judges a dump and opens the database for it, over a site of which no dump is written meanwhile.
pub(crate) fn prepare_dump<S: Site>(
    alloc: Global,
    site: S,
    dump: u16,
) -> Result<ReadyDump<S>, (Status, S)>
    ensures opens { IfOk result (λ r. IsTrue S.tells → OpensAt r.opened.log.end.total r.opened.log.first (S.files site) r.opened.point r.opened.next r.opened.schema.items r.opened.counts.items) }
    ensures runs { IfOk result (λ r. IsTrue S.tells → RunsWhere S.Site (S.files site) r.opened) }
    ensures table { IfOk result (λ r. AreCounts r.opened.counts.items) }
    ensures counts { IfOk result (λ r. r.counts.items ≡ file_counts 30001 r.opened.counts.items) }
    ensures line { IfOk result (λ r. r.line ≡ dumped_text dump r.opened.point) }
    ensures moments { IfOk result (λ r. IsTrue S.tells → ReopensSince S.Site site r.opened.log.site) }
    ensures stopped { IfErr result (λ e. IsTrue S.tells → ReopensSince S.Site site e.1) }
    ensures beside { IfOk result (λ r. StaysBeside S.Site site r.opened.log.site) }
    ensures beside_then { IfErr result (λ e. StaysBeside S.Site site e.1) }
    ensures grows { IfOk result (λ r. IsTrue S.tells → OpeningGrows S.Site site r.opened.log.site) }
    ensures grows_then { IfErr result (λ e. IsTrue S.tells → OpeningGrows S.Site site e.1) }
    ensures refused { IfErr result (λ e. IsDumpRefusal e.0 → IsTrue S.tells → IsDumpRefused S.Site dump site e.1 e.0) }
    ensures can { IfOk result (λ r. IsTrue S.tells → CanDump dump (S.files site)) }
    ensures can_then { IfErr result (λ e. IsTrue S.tells → CanDump dump (S.files site) ⊎ StaysRead S.Site site e.1) }
    ensures complete { IfErr result (λ e. IsTrue S.tells → NeverRefusesDump dump (S.files site) e.0) }
    ensures full { IfErr result (λ e. FillsTrail S.Site site e.1 e.0) }
    ensures statuses { IfErr result (λ e. IsOfPreparing e.0) }
    ensures same { IfOk result (λ r. S.same_site site r.opened.log.site) }
    ensures same_then { IfErr result (λ e. S.same_site site e.1) }
    ensures said { IfOk result (λ r. S.said r.opened.log.site ≡ S.said site) }
    ensures said_then { IfErr result (λ e. S.said e.1 ≡ S.said site) }
    ensures clean { IfOk result (λ r. (S.disk_faults r.opened.log.site ≡ S.disk_faults site) × (S.say_faults r.opened.log.site ≡ S.say_faults site)) }
    ensures disk { IfErr result (λ e. CountedAt (e.0 ≡ Status.DiskFault) (S.disk_faults site) (S.disk_faults e.1)) }
    ensures say_faults { IfErr result (λ e. S.say_faults e.1 ≡ S.say_faults site) }
{
    match open_to_dump(alloc, site, dump) {
        Ok(ready) => Ok(bared(ready)),
        Err(refused) => Err(refused),
    }
}
