//! What is judged before a dump is made, and the opening before it.

ghost use Rattle.std.specs.Prelude.{◌≡◌, ◌≢◌, ◌+◌, ◌≤◌, IfOk, IfErr, IsErrOf, IsTrue, slice_index};
ghost use Rattle.dms_audfile.specs.Counting.{CountedAt};
ghost use Rattle.dms_audfile.specs.Reads.{ReadsAlone};
ghost use Rattle.dms_opening.specs.Carrying.{IsFitPlan};
ghost use Rattle.dms_opening.specs.Looking.{IsLookedAt};
ghost use Rattle.dms_opening.specs.Openings.{NamesStructures};
ghost use Rattle.dms_opening.specs.Plans.{Plans};
ghost use Rattle.dms_restore.specs.Counts.{file_counts};
ghost use Rattle.dms_opening.specs.Short.{NoneShort};
ghost use Rattle.dms_opening.specs.Whole.{StaysRead};
ghost use Rattle.dms_dumping.specs.Refusing.{CanDump, JudgesDump, RefusesDump, refusal_status};

use crate::listing::list_counts;
use dms_audfile::AudFault;
use dms_dump::is_dump_open;
use dms_guard::status_of_open;
use dms_history::FileCount;
use dms_opening::{Found, OpenFault, OpeningPlan, PlannedOpening, first_short, look};
use dms_restore::Log;
use dms_site::Site;
use dms_status::Status;
use std::alloc::Global;

/// Why a dump isn't made. Nothing was written then.
#[derive(Clone, Copy)]
pub(crate) enum DumpRefusal {
    /// The database can't be opened.
    Open(OpenFault),
    /// The gate of the dump is open.
    Exists,
    /// A block of a structure file isn't there whole, and the opening doesn't write it.
    Short(u32, u32),
}

/// The status that a refusal ends with.
pub(crate) fn status_of_refusal(refusal: DumpRefusal) -> Status
    ensures { result ≡ refusal_status refusal }
{
    match refusal {
        DumpRefusal::Open(fault) => status_of_open(fault),
        DumpRefusal::Exists => Status::Exists,
        DumpRefusal::Short(file, block) => Status::Damaged(file, block),
    }
}

/// A database that can be opened and then dumped, and how many blocks each structure file will have.
pub(crate) struct DumpPlan<S: Site> {
    pub planned: PlannedOpening<S>,
    pub counts: Vec<FileCount>,
}

/// Judges a dump of a database whose opening is planned: its gate, and then the blocks that the opening doesn't write. How many blocks each
/// structure file will have. Nothing changes.
fn judge_dump<S: Site>(
    alloc: Global,
    site: &mut S,
    dump: u16,
    plan: &OpeningPlan,
) -> Result<Vec<FileCount>, DumpRefusal>
    requires { IsFitPlan plan.now }
    ensures counts { IfOk result (λ v. v.items ≡ file_counts 30001 plan.now.counts.items) }
    ensures shut { IfOk result (λ v. IsTrue S.tells → slice_index (S.files site.old (20000 + dump)) 0 ≢ 1) }
    ensures none { IfOk result (λ v. IsTrue S.tells → NoneShort (S.files site.old) plan.now.counts.items plan.now.table) }
    ensures refused { IfErr result (λ e. IsTrue S.tells → JudgesDump dump (S.files site.old) plan.now e) }
    ensures reads { ReadsAlone S.Site site.old site.new }
    ensures same_site { S.same_site site.old site.new }
    ensures disk { CountedAt (IsErrOf result (DumpRefusal.Open (OpenFault.Audit AudFault.Disk))) (S.disk_faults site.old) (S.disk_faults site.new) }
{
    match is_dump_open(site, dump) {
        Err(_) => return Err(DumpRefusal::Open(OpenFault::Audit(AudFault::Disk))),
        Ok(true) => return Err(DumpRefusal::Exists),
        Ok(false) => {}
    }
    match first_short(site, &plan.counts, &plan.table) {
        Err(_) => return Err(DumpRefusal::Open(OpenFault::Audit(AudFault::Disk))),
        Ok(Some(short)) => return Err(DumpRefusal::Short(short.file, short.block)),
        Ok(None) => {}
    }
    match list_counts(alloc, &plan.counts) {
        Ok(counts) => Ok(counts),
        Err(_) => Err(DumpRefusal::Open(OpenFault::Audit(AudFault::Memory))),
    }
}

/// Looks at the database of a site, plans its opening, and judges a dump of it. Nothing changes.
///
/// Answers the first refusal of the opening, then Exists, and then the first block that can't be dumped.
pub(crate) fn look_to_dump<S: Site>(
    alloc: Global,
    site: S,
    dump: u16,
) -> Result<DumpPlan<S>, (DumpRefusal, S)>
    ensures looked { IfOk result (λ p. IsTrue S.tells → IsLookedAt S.Site p.planned) }
    ensures ready { IfOk result (λ p. IsFitPlan p.planned.plan) }
    ensures named { IfOk result (λ p. NamesStructures p.planned.plan.schema.items p.planned.plan.counts.items) }
    ensures limit { IfOk result (λ p. p.planned.log.end.limit ≡ 9999) }
    ensures counts { IfOk result (λ p. p.counts.items ≡ file_counts 30001 p.planned.plan.counts.items) }
    ensures can { IfOk result (λ p. IsTrue S.tells → CanDump dump (S.files site)) }
    ensures refused { IfErr result (λ e. IsTrue S.tells → RefusesDump dump (S.files site) e.0) }
    ensures room { IfErr result (λ e. IsTrue S.tells → e.0 ≡ DumpRefusal.Open (OpenFault.Audit (AudFault.Full 9999)) → ⊥) }
    ensures stays { IfOk result (λ p. StaysRead S.Site site p.planned.log.site) }
    ensures stays_then { IfErr result (λ e. StaysRead S.Site site e.1) }
    ensures clean { IfOk result (λ p. S.disk_faults p.planned.log.site ≡ S.disk_faults site) }
    ensures disk { IfErr result (λ e. CountedAt (e.0 ≡ DumpRefusal.Open (OpenFault.Audit AudFault.Disk)) (S.disk_faults site) (S.disk_faults e.1)) }
{
    let planned = match look(alloc, Found { site }) {
        Ok(planned) => planned,
        Err((fault, site)) => return Err((DumpRefusal::Open(fault), site)),
    };
    let PlannedOpening { log, plan } = planned;
    let Log {
        mut site,
        end,
        first,
    } = log;
    match judge_dump(alloc, &mut site, dump, &plan) {
        Ok(counts) => Ok(DumpPlan {
            planned: PlannedOpening {
                log: Log { site, end, first },
                plan,
            },
            counts,
        }),
        Err(refusal) => Err((refusal, site)),
    }
}
