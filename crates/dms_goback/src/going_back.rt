//! ROLLBACK and REBUILD: the database is restored to a point, and that is said.

ghost use Rattle.std.specs.Prelude.{◌≡◌, ◌≤◌, IsTrue};
ghost use Rattle.dms_audfile.specs.Counting.{CountedAt};
ghost use Rattle.dms_moments.specs.Moments.{Steps};
ghost use Rattle.dms_site.specs.Files.{PrintsPartOf};
ghost use Rattle.dms_statelaws.specs.SiteLaws.{SameFiles};
ghost use Rattle.dms_dumping.specs.Statuses.{IsOfReading};
ghost use Rattle.dms_status.specs.Saying.{SaysLine};
ghost use Rattle.dms_dumping.specs.Writing.{point_line};
ghost use Rattle.dms_goback.specs.RebuildDoes.{RebuildDoes};
ghost use Rattle.dms_goback.specs.Restores.{IsOfRestored};
ghost use Rattle.dms_goback.specs.RollbackDoes.{RollbackDoes};

use crate::restoring::{rebuild_guarded, roll_guarded};
use dms_dumping::{point_line, say_done};
use dms_guard::Ended;
use dms_recovery::Recovered;
use dms_site::Site;
use dms_status::Status;
use std::alloc::Global;

/// `ROLLBACK TO n`, over a site by value.
pub fn rollback_over<S: Site>(alloc: Global, site: S, point: u64) -> Ended<S>
    ensures does { RollbackDoes S.Site point site result.site result.status }
    ensures taken { IsOfReading result.status → ⊥ }
    ensures disk { CountedAt (result.status ≡ Status.DiskFault) (S.disk_faults site) (S.disk_faults result.site) }
    ensures say { CountedAt (result.status ≡ Status.SayFault) (S.say_faults site) (S.say_faults result.site) }
    ensures same { S.same_site site result.site }
{
    let line = match point_line(alloc, b"ROLLED BACK TO POINT ", point) {
        Ok(line) => line,
        Err(_) => {
            return Ended {
                status: Status::Memory,
                site,
            };
        }
    };
    match roll_guarded(alloc, site, point) {
        Ok(recovered) => {
            let Recovered { site, point: _ } = recovered;
            say_done(site, line.as_slice())
        }
        Err((status, site)) => Ended { status, site },
    }
}

/// Says of a database that was restored these words, and its point. Answers Ok, SayFault and Memory.
pub(crate) fn say_restored<S: Site>(
    alloc: Global,
    words: &[u8],
    recovered: Recovered<S>,
) -> Ended<S>
    ensures says { IsTrue S.tells_said → SaysLine result.status (point_line words.now recovered.point) (S.said recovered.site) (S.said result.site) }
    ensures statuses { IsOfRestored result.status }
    ensures files { IsTrue S.tells → S.files result.site ≡ S.files recovered.site }
    ensures moments { Steps SameFiles (S.clock recovered.site) (S.clock result.site) }
    ensures same { S.same_site recovered.site result.site }
    ensures disk { S.disk_faults result.site ≡ S.disk_faults recovered.site }
    ensures say { CountedAt (result.status ≡ Status.SayFault) (S.say_faults recovered.site) (S.say_faults result.site) }
{
    let Recovered { site, point } = recovered;
    match point_line(alloc, words, point) {
        Ok(line) => say_done(site, line.as_slice()),
        Err(_) => Ended {
            status: Status::Memory,
            site,
        },
    }
}

/// `REBUILD FROM d TO n` and `REBUILD FROM d`, over a site by value.
pub fn rebuild_over<S: Site>(alloc: Global, site: S, dump: u16, point: Option<u64>) -> Ended<S>
    requires some { 1 ≤ dump }
    requires few { dump ≤ 9999 }
    ensures does { RebuildDoes S.Site dump point site result.site result.status }
    ensures taken { IsOfReading result.status → ⊥ }
    ensures disk { CountedAt (result.status ≡ Status.DiskFault) (S.disk_faults site) (S.disk_faults result.site) }
    ensures say { CountedAt (result.status ≡ Status.SayFault) (S.say_faults site) (S.say_faults result.site) }
    ensures same { S.same_site site result.site }
{
    match rebuild_guarded(alloc, site, dump, point) {
        Ok(recovered) => say_restored(alloc, b"REBUILT TO POINT ", recovered),
        Err((status, site)) => Ended { status, site },
    }
}
