//! A database is looked at for a statement, and what is planned of it goes on over a guarded site.

ghost use Rattle.std.specs.Prelude.{◌≡◌, ◌≤◌, ◌+◌, ℕ, List, [], length, IfOk, IfErr, IsTrue};
ghost use Rattle.dms_audfile.specs.Counting.{CountedAt};
ghost use Rattle.dms_audrec.specs.Spelling.{AreRows};
ghost use Rattle.dms_history.specs.declared.event.Row as row;
ghost use Rattle.dms_opening.specs.Openings.{MayHaveWritten};
ghost use Rattle.dms_opening.specs.Whole.{StaysRead};
ghost use Rattle.dms_recovery.specs.Looked.{AreLookedFor, GoesWithin, IsLookedFor, rows_in};
ghost use Rattle.dms_recovery.specs.Planned.{AreFit, AreWithin};
ghost use Rattle.dms_recovery.specs.Reconstructing.{MayMend};
ghost use Rattle.dms_recovery.specs.Refusing.{MayBeDone};
ghost use Rattle.dms_recovery.specs.declared.wanted.Wanted as meant;
ghost use Rattle.dms_dumping.specs.Filling.{FillsTrail};
ghost use Rattle.dms_guard.specs.Bare.{around};
ghost use Rattle.dms_guard.specs.Statuses.{IsRefusal};
ghost use Rattle.dms_goback.specs.ReconstructDoes.{AreRowsRefused, IsOfMending, NeverRefusesRows, reconstruct_status};
ghost use Rattle.dms_goback.specs.Restores.{IsOfRestoring, IsRestoreRefused, NeverRefusesRestore};

use dms_audfile::AudFault;
use dms_guard::{RunSite, status_of_open};
use dms_opening::{Found, OpenFault, OpeningPlan};
use dms_recovery::{
    PlannedRestore, PlannedRows, ReconstructFault, Recovered, Wanted, look_for, plan_rows,
};
use dms_restore::Log;
use dms_site::Site;
use dms_statements::NamedRow;
use dms_status::{LimitKind, NeedFault, Status};
use std::alloc::Global;
use std::marker::{Brand, PhantomData};

/// The greater of the numbers of structure files that the restore that goes first needs, and the one that is asked for.
fn most_structures(before: &Option<OpeningPlan>, own: &OpeningPlan) -> u8
    requires fit { AreFit before.now own.now }
    ensures few { result ≤ 200 }
    ensures within { (s : ℕ) → AreWithin s before.now own.now → result ≤ s }
{
    let own = own.counts.len();
    match before {
        None => own as u8,
        Some(before) => own.max(before.counts.len()) as u8,
    }
}

/// What is planned, over a guarded site: of it the files of as many structures are written as its restores need. Makes no call.
fn guarded<S: Site>(planned: PlannedRestore<S>) -> PlannedRestore<RunSite<S, Brand>>
    requires fit { AreFit planned.before planned.own }
    ensures looked { (wanted : meant.Wanted) (rows : List row.Row) (from : S) → IsLookedFor S.Site from wanted rows planned
        → IsLookedFor ⟦<RunSite<S, Brand> as Site>⟧ (around result.log.site from) wanted rows result }
    ensures stays { (from : S) → StaysRead S.Site from planned.log.site → StaysRead S.Site from result.log.site.site }
    ensures clean { S.disk_faults result.log.site.site ≡ S.disk_faults planned.log.site }
    ensures fresh { result.log.site.refused ≡ 0 }
    ensures few { result.log.site.structures ≤ 200 }
    ensures within { (s : ℕ) → AreWithin s planned.before planned.own → result.log.site.structures ≤ s }
    ensures fit { AreFit result.before result.own }
    ensures end { result.log.end ≡ planned.log.end }
{
    let structures = most_structures(&planned.before, &planned.own);
    let PlannedRestore { log, before, own } = planned;
    let Log { site, end, first } = log;
    let by: PhantomData<Brand> = PhantomData;
    PlannedRestore {
        log: Log {
            site: RunSite {
                site,
                structures,
                refused: 0,
                by,
            },
            end,
            first,
        },
        before,
        own,
    }
}

/// Looks at a database for a rollback or a rebuild, and names the status where that fails. Nothing changes.
pub(crate) fn look_guarded<S: Site>(
    alloc: Global,
    site: S,
    wanted: Wanted,
) -> Result<PlannedRestore<RunSite<S, Brand>>, (Status, S)>
    ensures looked { IfOk result (λ p. IsLookedFor ⟦<RunSite<S, Brand> as Site>⟧ (around p.log.site site) wanted [] p) }
    ensures fit { IfOk result (λ p. AreFit p.before p.own) }
    ensures limit { IfOk result (λ p. p.log.end.limit ≡ 9999) }
    ensures stays { IfOk result (λ p. StaysRead S.Site site p.log.site.site) }
    ensures clean { IfOk result (λ p. (S.disk_faults p.log.site.site ≡ S.disk_faults site) × (p.log.site.refused ≡ 0)) }
    ensures few { IfOk result (λ p. p.log.site.structures ≤ 200) }
    ensures within { IfOk result (λ p. IsTrue S.tells → (s : ℕ) → GoesWithin s wanted (S.files site) → p.log.site.structures ≤ s) }
    ensures may { IfOk result (λ p. IsTrue S.tells → MayBeDone (S.files site) wanted) }
    ensures refused { IfErr result (λ e. IsTrue S.tells → IsRestoreRefused S.Site wanted site e.1 e.0) }
    ensures complete { IfErr result (λ e. IsTrue S.tells → NeverRefusesRestore wanted (S.files site) e.0) }
    ensures full { IfErr result (λ e. FillsTrail S.Site site e.1 e.0) }
    ensures statuses { IfErr result (λ e. IsOfRestoring e.0) }
    ensures stays_then { IfErr result (λ e. StaysRead S.Site site e.1) }
    ensures disk { IfErr result (λ e. CountedAt (e.0 ≡ Status.DiskFault) (S.disk_faults site) (S.disk_faults e.1)) }
{
    match look_for(alloc, Found { site }, wanted, &[]) {
        Ok(planned) => Ok(guarded(planned)),
        Err((fault, site)) => Err((status_of_open(fault), site)),
    }
}

/// The status that a fault of a reconstruction ends with.
fn status_of_rows(fault: ReconstructFault) -> Status
    ensures { result ≡ reconstruct_status fault }
{
    match fault {
        ReconstructFault::Open(fault) => status_of_open(fault),
        ReconstructFault::NoSuchRow(row) => Status::Needed(NeedFault::NoSuchRow(row.name, row.row)),
    }
}

/// Looks at a database for a reconstruction of rows, and names the status where that fails. Nothing changes.
pub(crate) fn look_rows_guarded<S: Site>(
    alloc: Global,
    site: S,
    dump: u16,
    rows: &[NamedRow],
) -> Result<PlannedRows<RunSite<S, Brand>>, (Status, S)>
    requires hundred { length rows.now ≤ 100 }
    ensures looked { IfOk result (λ p. AreLookedFor ⟦<RunSite<S, Brand> as Site>⟧ (around p.planned.log.site site) dump rows.now p) }
    ensures fit { IfOk result (λ p. AreFit p.planned.before p.planned.own) }
    ensures limit { IfOk result (λ p. p.planned.log.end.limit ≡ 9999) }
    ensures rows { IfOk result (λ p. AreRows (rows_in p.list)) }
    ensures hundred { IfOk result (λ p. length (rows_in p.list) ≤ 100) }
    ensures stays { IfOk result (λ p. StaysRead S.Site site p.planned.log.site.site) }
    ensures clean { IfOk result (λ p. (S.disk_faults p.planned.log.site.site ≡ S.disk_faults site) × (p.planned.log.site.refused ≡ 0)) }
    ensures few { IfOk result (λ p. p.planned.log.site.structures ≤ 200) }
    ensures within { IfOk result (λ p. IsTrue S.tells → (s : ℕ) → GoesWithin s (Wanted.Reconstruct dump) (S.files site) → p.planned.log.site.structures ≤ s) }
    ensures may { IfOk result (λ p. IsTrue S.tells → MayMend (S.files site) dump rows.now) }
    ensures refused { IfErr result (λ e. IsTrue S.tells → AreRowsRefused S.Site dump rows.now site e.1 e.0) }
    ensures complete { IfErr result (λ e. IsTrue S.tells → NeverRefusesRows dump rows.now (S.files site) e.0) }
    ensures full { IfErr result (λ e. FillsTrail S.Site site e.1 e.0) }
    ensures statuses { IfErr result (λ e. IsOfMending e.0) }
    ensures stays_then { IfErr result (λ e. StaysRead S.Site site e.1) }
    ensures disk { IfErr result (λ e. CountedAt (e.0 ≡ Status.DiskFault) (S.disk_faults site) (S.disk_faults e.1)) }
{
    let looked = match plan_rows(alloc, Found { site }, dump, rows) {
        Ok(looked) => looked,
        Err((fault, site)) => return Err((status_of_rows(fault), site)),
    };
    let PlannedRows { planned, list } = looked;
    let planned = guarded(planned);
    Ok(PlannedRows { planned, list })
}

/// The site below a guarded one that was restored.
pub(crate) fn bared<S: Site>(recovered: Recovered<RunSite<S, Brand>>) -> Recovered<S>
    ensures site { result.site ≡ recovered.site.site }
    ensures point { result.point ≡ recovered.point }
{
    let Recovered { site, point } = recovered;
    let RunSite {
        site,
        structures: _,
        refused: _,
        by: _by,
    } = site;
    Recovered { site, point }
}

/// The site below a guarded one where a restore failed that was planned, and the status.
pub(crate) fn unguarded<S: Site>(fault: OpenFault, guarded: RunSite<S, Brand>) -> (Status, S)
    ensures site { result.1 ≡ guarded.site }
    ensures statuses { IsOfRestoring result.0 }
    ensures none { MayHaveWritten fault → IsRefusal result.0 → ⊥ }
    ensures full { (k : ℕ) → result.0 ≡ Status.Limit (LimitKind.AuditFile k) → fault ≡ OpenFault.Audit (AudFault.Full k) }
    ensures disk { (before : ℕ) → before ≤ S.disk_faults guarded.site → CountedAt (fault ≡ OpenFault.Audit AudFault.Disk) before (S.disk_faults guarded.site + guarded.refused)
        → CountedAt (result.0 ≡ Status.DiskFault) before (S.disk_faults guarded.site) }
{
    let RunSite {
        site,
        structures: _,
        refused,
        by: _by,
    } = guarded;
    // No restore comes to a call that is refused: nothing below writes another file.
    if refused > 0 {
        return (Status::Memory, site);
    }
    (status_of_open(fault), site)
}
