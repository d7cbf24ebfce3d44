//! DUMP: the database is opened, and its dump is written.

ghost use Rattle.std.specs.Prelude.{◌≡◌, ◌≤◌, IsTrue};
ghost use Rattle.dms_audfile.specs.Counting.{CountedAt};
ghost use Rattle.dms_dumping.specs.DumpDoes.{DumpDoes};
ghost use Rattle.dms_dumping.specs.Statuses.{IsOfReading};

use crate::preparing::prepare_dump;
use crate::writing::write_ready;
use dms_guard::Ended;
use dms_run::states_law;
use dms_site::Site;
use dms_status::Status;
use std::alloc::Global;

/// `DUMP TO d`, over a site by value.
pub fn dump_over<S: Site>(alloc: Global, site: S, dump: u16) -> Ended<S>
    requires some { 1 ≤ dump }
    requires few { dump ≤ 9999 }
    ensures does { DumpDoes S.Site dump site result.site result.status }
    ensures taken { IsOfReading result.status → ⊥ }
    ensures disk { CountedAt (result.status ≡ Status.DiskFault) (S.disk_faults site) (S.disk_faults result.site) }
    ensures say { CountedAt (result.status ≡ Status.SayFault) (S.say_faults site) (S.say_faults result.site) }
    ensures same { S.same_site site result.site }
{
    states_law();
    match prepare_dump(alloc, site, dump) {
        Ok(ready) => write_ready(ready, dump),
        Err((status, site)) => Ended { status, site },
    }
}
