//! The rows that a statement names are found in the description and the counts of the last point, before anything is written.

ghost use Rattle.std.specs.Prelude.{◌≡◌, ◌≤◌, length, IfOk, IfErr, IsTrue};
ghost use Rattle.dms_moments.specs.Moments.{Steps};
ghost use Rattle.dms_site.specs.Files.{Same};
ghost use Rattle.dms_audrec.specs.Spelling.{AreRows, pair_bytes, row_file, row_number};
ghost use Rattle.dms_audfile.specs.Counting.{CountedAt};
ghost use Rattle.dms_opening.specs.Openings.{IsFullFault};
ghost use Rattle.dms_recovery.specs.Reconstructing.{fault_of_row, FindsRows, HasEach, IsOpenFault, LacksRow, MayMend, NamesRows, RefusesReconstruct};
ghost use Rattle.dms_statements.specs.declared.statement.NamedRow as meant;

use crate::Wanted;
use crate::looking::{PlannedRestore, look_for};
use crate::rows::{RowFault, find_rows, row_bytes};
use dms_audfile::AudFault;
use dms_base::Bytes;
use dms_desc_bytes::{decode, spelling_law};
use dms_history::Row;
use dms_opening::{Found, OpenFault, site_of};
use dms_site::Site;
use dms_statements::NamedRow;
use std::alloc::Global;

/// Why rows aren't reconstructed.
#[derive(Clone, Copy)]
pub enum ReconstructFault {
    /// As any restore isn't carried out.
    Open(OpenFault),
    /// No structure has that name, or it has no such row. Nothing was written then.
    NoSuchRow(NamedRow),
}

/// Why rows aren't reconstructed that aren't found.
fn fault_of_row(fault: RowFault) -> ReconstructFault
    ensures { result ≡ fault_of_row fault }
{
    match fault {
        RowFault::Missing(row) => ReconstructFault::NoSuchRow(row),
        RowFault::Memory => ReconstructFault::Open(OpenFault::Audit(AudFault::Memory)),
    }
}

/// The rows that are named, by the bytes of a description and counts of the files from 30,001 on. Answers the first one that isn't there, and Memory.
fn rows_described(
    alloc: Global,
    schema: &[u8],
    counts: &[u32],
    named: &[NamedRow],
) -> Result<Vec<Row>, RowFault>
    requires few { length counts.now ≤ 200 }
    requires hundred { length named.now ≤ 100 }
    ensures finds { IfOk result (λ rows. FindsRows schema.now named.now rows.items) }
    ensures there { IfOk result (λ rows. HasEach schema.now counts.now named.now) }
    ensures lacks { IfErr result (λ e. (r : meant.NamedRow) → e ≡ RowFault.Missing r → LacksRow schema.now counts.now named.now r) }
{
    spelling_law();
    match decode(alloc, schema) {
        Ok(Some(desc)) => find_rows(alloc, desc.structures.as_slice(), counts, named),
        Ok(None) => find_rows(alloc, &[], counts, named),
        Err(_) => Err(RowFault::Memory),
    }
}

/// The rows of structure files that were named, and their bytes, as the audit has them.
pub(crate) struct FoundRows<S: Site> {
    pub(crate) site: S,
    pub(crate) rows: Vec<Row>,
    pub(crate) list: Bytes,
}

/// Looks at a database, of which rows are wanted from a dump, and finds these rows. Nothing changes.
///
/// Answers the first refusal of the trail, of a restore that is pending, of the last point and of the dump, then the first row that isn't there, Disk where a
/// call of the site failed, and Memory.
pub(crate) fn look_for_rows<S: Site>(
    alloc: Global,
    found: Found<S>,
    dump: u16,
    named: &[NamedRow],
) -> Result<FoundRows<S>, (ReconstructFault, S)>
    requires hundred { length named.now ≤ 100 }
    ensures rows { IfOk result (λ f. AreRows f.rows.items) }
    ensures few { IfOk result (λ f. length f.rows.items ≤ 100) }
    ensures list { IfOk result (λ f. f.list ≡ pair_bytes row_file row_number f.rows.items) }
    ensures names { IfOk result (λ f. IsTrue S.tells → NamesRows (S.files found.site) named.now f.rows.items) }
    ensures may { IfOk result (λ f. IsTrue S.tells → MayMend (S.files found.site) dump named.now) }
    ensures refused { IfErr result (λ e. IsTrue S.tells → RefusesReconstruct (S.files found.site) dump named.now e.0) }
    ensures room { IfErr result (λ e. IsTrue S.tells → IsOpenFault e.0 IsFullFault → ⊥) }
    ensures files { IfOk result (λ f. IsTrue S.tells → S.files f.site ≡ S.files found.site) }
    ensures files_then { IfErr result (λ e. IsTrue S.tells → S.files e.1 ≡ S.files found.site) }
    ensures moments { IfOk result (λ f. Steps Same (S.clock found.site) (S.clock f.site)) }
    ensures moments_then { IfErr result (λ e. Steps Same (S.clock found.site) (S.clock e.1)) }
    ensures same { IfOk result (λ f. S.same_site found.site f.site) }
    ensures same_then { IfErr result (λ e. S.same_site found.site e.1) }
    ensures said { IfOk result (λ f. S.said f.site ≡ S.said found.site) }
    ensures said_then { IfErr result (λ e. S.said e.1 ≡ S.said found.site) }
    ensures clean { IfOk result (λ f. S.disk_faults f.site ≡ S.disk_faults found.site) }
    ensures disk { IfErr result (λ e. CountedAt (e.0 ≡ ReconstructFault.Open (OpenFault.Audit AudFault.Disk)) (S.disk_faults found.site) (S.disk_faults e.1)) }
    ensures say_faults { IfOk result (λ f. S.say_faults f.site ≡ S.say_faults found.site) }
    ensures say_faults_then { IfErr result (λ e. S.say_faults e.1 ≡ S.say_faults found.site) }
{
    let planned = match look_for(alloc, found, Wanted::Reconstruct(dump), &[]) {
        Ok(planned) => planned,
        Err((fault, site)) => return Err((ReconstructFault::Open(fault), site)),
    };
    let PlannedRestore {
        log,
        before: _before,
        own,
    } = planned;
    let site = site_of(log);
    let rows = match rows_described(alloc, &own.schema, &own.counts, named) {
        Ok(rows) => rows,
        Err(fault) => return Err((fault_of_row(fault), site)),
    };
    match row_bytes(alloc, &rows) {
        Ok(list) => Ok(FoundRows { site, rows, list }),
        Err(_) => Err((
            ReconstructFault::Open(OpenFault::Audit(AudFault::Memory)),
            site,
        )),
    }
}
