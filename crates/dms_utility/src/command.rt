//! The command `utility`.

ghost use Rattle.std.specs.Prelude.{◌≡◌, ◌≤◌, ℕ, List, [], Some, length};
ghost use Rattle.dms_audfile.specs.Counting.{CountedAt};
ghost use Rattle.dms_dumping.specs.DumpDoes.{DumpDoes};
ghost use Rattle.dms_dumping.specs.Statuses.{IsOfReading};
ghost use Rattle.dms_goback.specs.RebuildDoes.{RebuildDoes};
ghost use Rattle.dms_goback.specs.ReconstructDoes.{ReconstructDoes};
ghost use Rattle.dms_goback.specs.RollbackDoes.{RollbackDoes};
ghost use Rattle.dms_utility.specs.UtilityDoes.{UtilityDoes};

use crate::asking::statement_in;
use dms_dumping::dump_over;
use dms_goback::{rebuild_over, reconstruct_over, rollback_over};
use dms_site::{Site, Source};
use dms_statements::{NamedRow, Statement};
use dms_status::Status;
use std::alloc::Global;

/// `DUMP TO d`: opens the database by halt/load, and writes its dump d.
fn dump_command<S: Site>(alloc: Global, site: &mut S, dump: u16) -> Status
    requires some { 1 ≤ dump }
    requires few { dump ≤ 9999 }
    ensures does { DumpDoes S.Site dump site.old site.new result }
    ensures taken { IsOfReading result → ⊥ }
    ensures disk { CountedAt (result ≡ Status.DiskFault) (S.disk_faults site.old) (S.disk_faults site.new) }
    ensures say { CountedAt (result ≡ Status.SayFault) (S.say_faults site.old) (S.say_faults site.new) }
    ensures same_site { S.same_site site.old site.new }
{
    let ended = dump_over(alloc, site, dump);
    let status = ended.status;
    let _site = ended.into_site();
    status
}

/// `ROLLBACK TO n`: takes the database back to its point n.
fn rollback_command<S: Site>(alloc: Global, site: &mut S, point: u64) -> Status
    ensures does { RollbackDoes S.Site point site.old site.new result }
    ensures taken { IsOfReading result → ⊥ }
    ensures disk { CountedAt (result ≡ Status.DiskFault) (S.disk_faults site.old) (S.disk_faults site.new) }
    ensures say { CountedAt (result ≡ Status.SayFault) (S.say_faults site.old) (S.say_faults site.new) }
    ensures same_site { S.same_site site.old site.new }
{
    let ended = rollback_over(alloc, site, point);
    let status = ended.status;
    let _site = ended.into_site();
    status
}

/// `REBUILD FROM d TO n`, and `REBUILD FROM d`, which goes to the last point: makes the structure files anew from dump d and the audit.
fn rebuild_command<S: Site>(alloc: Global, site: &mut S, dump: u16, point: Option<u64>) -> Status
    requires some { 1 ≤ dump }
    requires few { dump ≤ 9999 }
    ensures does { RebuildDoes S.Site dump point site.old site.new result }
    ensures taken { IsOfReading result → ⊥ }
    ensures disk { CountedAt (result ≡ Status.DiskFault) (S.disk_faults site.old) (S.disk_faults site.new) }
    ensures say { CountedAt (result ≡ Status.SayFault) (S.say_faults site.old) (S.say_faults site.new) }
    ensures same_site { S.same_site site.old site.new }
{
    let ended = rebuild_over(alloc, site, dump, point);
    let status = ended.status;
    let _site = ended.into_site();
    status
}

/// `RECONSTRUCT name ROW r, .. FROM d`: makes these rows of structures anew from dump d and the audit.
fn reconstruct_command<S: Site>(alloc: Global, site: &mut S, dump: u16, rows: &[NamedRow]) -> Status
    requires some { 1 ≤ dump }
    requires few { dump ≤ 9999 }
    requires hundred { length rows.now ≤ 100 }
    ensures does { ReconstructDoes S.Site dump rows.now site.old site.new result }
    ensures taken { IsOfReading result → ⊥ }
    ensures disk { CountedAt (result ≡ Status.DiskFault) (S.disk_faults site.old) (S.disk_faults site.new) }
    ensures say { CountedAt (result ≡ Status.SayFault) (S.say_faults site.old) (S.say_faults site.new) }
    ensures same_site { S.same_site site.old site.new }
{
    let ended = reconstruct_over(alloc, site, dump, rows);
    let status = ended.status;
    let _site = ended.into_site();
    status
}

/// `utility`: carries out the statement that the input is.
pub fn utility_command<S: Site, I: Source>(alloc: Global, site: &mut S, source: &mut I) -> Status
    ensures does { UtilityDoes S.Site I.Source site.old site.new source.old source.new result }
    ensures end { result ≡ Status.Ok → (all : List ℕ) → I.left source.old ≡ Some all → I.left source.new ≡ Some [] }
    ensures disk { CountedAt (result ≡ Status.DiskFault) (S.disk_faults site.old) (S.disk_faults site.new) }
    ensures say { CountedAt (result ≡ Status.SayFault) (S.say_faults site.old) (S.say_faults site.new) }
    ensures input { CountedAt (result ≡ Status.InputFault) (I.faults source.old) (I.faults source.new) }
    ensures same_site { S.same_site site.old site.new }
    ensures same_source { I.same_source source.old source.new }
{
    match statement_in(alloc, source) {
        Err(status) => status,
        Ok(Statement::Dump(dump)) => dump_command(alloc, site, dump),
        Ok(Statement::Rebuild(dump, point)) => rebuild_command(alloc, site, dump, point),
        Ok(Statement::Rollback(point)) => rollback_command(alloc, site, point),
        Ok(Statement::Reconstruct(dump, rows)) => {
            reconstruct_command(alloc, site, dump, rows.as_slice())
        }
    }
}
