//! The script of a load is run over its database.

ghost use Rattle.std.specs.Prelude.{◌≡◌, ◌≤◌, IsTrue};
ghost use Rattle.dms_audfile.specs.Counting.{CountedAt};
ghost use Rattle.dms_load.specs.Muting.{SameMuted};
ghost use Rattle.dms_loadrun.specs.Description.{load_description};
ghost use Rattle.dms_loadrun.specs.Filling.{Fills};
ghost use Rattle.dms_loadrun.specs.Statuses.{IsOfFilling, filled_status};
ghost use Rattle.dms_newdb.specs.State.{StandsNew};

use dms_guard::Ended;
use dms_load::{LoadSource, MuteSite};
use dms_runtop::run_command;
use dms_site::Site;
use dms_status::{LimitKind, Status};
use std::alloc::Global;

/// The status that the run of the script ends a load with. What can't come, since the script was counted before, counts as want of memory.
fn status_of_filling(status: Status) -> Status
    ensures { result ≡ filled_status status }
{
    match status {
        Status::Ok
        | Status::NoDatabase
        | Status::Needed(_)
        | Status::DiskFault
        | Status::Limit(LimitKind::AuditFile(_))
        | Status::Damaged(_, _) => status,
        _ => Status::Memory,
    }
}

/// Runs the script of a seed over the database of a site by value, and closes it. What the lines answer is dropped.
fn fill_by<S: Site>(alloc: Global, site: S, seed: u64, n: u32) -> Ended<S>
    requires few { n ≤ 20000 }
    requires new { IsTrue S.tells → StandsNew 0 load_description (S.files site) }
    ensures fills { Fills S.Site load_description seed n site result.site result.status }
    ensures statuses { IsOfFilling result.status }
    ensures disk { CountedAt (result.status ≡ Status.DiskFault) (S.disk_faults site) (S.disk_faults result.site) }
    ensures same { SameMuted S.Site site result.site }
{
    let mut source = LoadSource::new(seed, n + 4);
    let mut muted = MuteSite {
        site,
        lines: u64::from(n) + 4,
    };
    let status = run_command(alloc, &mut muted, &mut source);
    let MuteSite { site, lines: _ } = muted;
    Ended {
        status: status_of_filling(status),
        site,
    }
}

/// Runs the script of a seed over the new database of its schema, and closes it. Nothing is printed.
pub fn fill_database<S: Site>(alloc: Global, site: &mut S, seed: u64, n: u32) -> Status
    requires few { n ≤ 20000 }
    requires new { IsTrue S.tells → StandsNew 0 load_description (S.files site.old) }
    ensures fills { Fills S.Site load_description seed n site.old site.new result }
    ensures statuses { IsOfFilling result }
    ensures disk { CountedAt (result ≡ Status.DiskFault) (S.disk_faults site.old) (S.disk_faults site.new) }
    ensures said { S.said site.new ≡ S.said site.old }
    ensures say_faults { S.say_faults site.new ≡ S.say_faults site.old }
    ensures same_site { S.same_site site.old site.new }
{
    let ended = fill_by(alloc, site, seed, n);
    let status = ended.status;
    let _site = ended.into_site();
    status
}
