//! A dump is written of a database that was opened, and that is said.

ghost use Rattle.std.specs.Prelude.{◌≡◌, ◌≢◌, ◌≤◌, ◌+◌, ℕ, true, length, IsTrue};
ghost use Rattle.dms_moments.specs.Moments.{Steps};
ghost use Rattle.dms_site.specs.Files.{OnDisk, Only, PrintsPartOf};
ghost use Rattle.dms_restore.specs.Counts.{file_counts};
ghost use Rattle.dms_audrec.specs.Spelling.{counts_rise};
ghost use Rattle.dms_audfile.specs.Counting.{CountedAt};
ghost use Rattle.dms_dump.specs.Body.{dump_made};
ghost use Rattle.dms_dump.specs.Stops.{BecomesDump};
ghost use Rattle.dms_dumping.specs.Statuses.{IsOfWriting, IsOfReady};
ghost use Rattle.dms_status.specs.Saying.{IsSpoken, SaysLine};
ghost use Rattle.dms_dumping.specs.Writing.{IsHeadOf, WritesDump};
ghost use Rattle.dms_wal.specs.Lifting.{AreCounts};

use crate::preparing::ReadyDump;
use crate::saying::say_done;
use dms_dump::{DumpFault, write_dump};
use dms_guard::Ended;
use dms_history::FileCount;
use dms_opening::Opened;
use dms_restore::Log;
use dms_site::Site;
use dms_status::Status;

/// Writes a dump of a database that was opened. Answers Ok, and DiskFault where a call of the site failed. That the gate of the dump is open, or that a
/// block isn't there whole, was judged before: where it were so, that counts as want of memory.
pub(crate) fn write_opened<S: Site>(opened: Opened<S>, counts: &[FileCount], dump: u16) -> Ended<S>
    requires number { dump ≤ 9999 }
    requires few { length counts.now ≤ 200 }
    requires rising { counts_rise 30001 counts.now ≡ true }
    ensures head { IsHeadOf opened.log.end.tag opened.point opened.audit counts.now }
    ensures written { result.status ≡ Status.Ok → IsTrue S.tells
        → S.files result.site (20000 + dump) ≡ dump_made 1 opened.log.end.tag opened.point opened.audit counts.now (S.files opened.log.site) }
    ensures durable { result.status ≡ Status.Ok → IsTrue S.tells → Only (S.files result.site) (S.clock result.site) }
    ensures others { IsTrue S.tells → (g : ℕ) → g ≢ 20000 + dump → S.files result.site g ≡ S.files opened.log.site g }
    ensures moments { IsTrue S.tells
        → Steps (OnDisk (20000 + dump) (BecomesDump (dump_made 1 opened.log.end.tag opened.point opened.audit counts.now (S.files opened.log.site)))) (S.clock opened.log.site) (S.clock result.site) }
    ensures statuses { IsOfWriting result.status }
    ensures said { S.said result.site ≡ S.said opened.log.site }
    ensures same { S.same_site opened.log.site result.site }
    ensures disk { CountedAt (result.status ≡ Status.DiskFault) (S.disk_faults opened.log.site) (S.disk_faults result.site) }
    ensures say_faults { S.say_faults result.site ≡ S.say_faults opened.log.site }
{
    let Opened {
        log,
        schema: _schema,
        counts: _counts,
        next: _,
        point,
        audit,
    } = opened;
    let Log {
        mut site,
        end,
        first: _,
    } = log;
    let tag = end.tag;
    let _end = end;
    match write_dump(&mut site, dump, tag, point, audit, counts) {
        Ok(()) => Ended {
            status: Status::Ok,
            site,
        },
        Err(DumpFault::Disk) => Ended {
            status: Status::DiskFault,
            site,
        },
        Err(_) => Ended {
            status: Status::Memory,
            site,
        },
    }
}

/// Writes the dump of a database that was opened for it, and says so.
pub(crate) fn write_ready<S: Site>(ready: ReadyDump<S>, dump: u16) -> Ended<S>
    requires number { dump ≤ 9999 }
    requires table { AreCounts ready.opened.counts.items }
    requires counts { ready.counts.items ≡ file_counts 30001 ready.opened.counts.items }
    ensures head { IsHeadOf ready.opened.log.end.tag ready.opened.point ready.opened.audit ready.counts.items }
    ensures written { IsSpoken result.status → IsTrue S.tells
        → S.files result.site (20000 + dump) ≡ dump_made 1 ready.opened.log.end.tag ready.opened.point ready.opened.audit ready.counts.items (S.files ready.opened.log.site) }
    ensures durable { IsSpoken result.status → IsTrue S.tells → Only (S.files result.site) (S.clock result.site) }
    ensures others { IsTrue S.tells → (g : ℕ) → g ≢ 20000 + dump → S.files result.site g ≡ S.files ready.opened.log.site g }
    ensures moments { IsTrue S.tells → let o = ready.opened in
        Steps (WritesDump (20000 + dump) (dump_made 1 o.log.end.tag o.point o.audit ready.counts.items (S.files o.log.site))) (S.clock o.log.site) (S.clock result.site) }
    ensures statuses { IsOfReady result.status }
    ensures says { IsTrue S.tells_said → SaysLine result.status ready.line (S.said ready.opened.log.site) (S.said result.site) }
    ensures same { S.same_site ready.opened.log.site result.site }
    ensures disk { CountedAt (result.status ≡ Status.DiskFault) (S.disk_faults ready.opened.log.site) (S.disk_faults result.site) }
    ensures say { CountedAt (result.status ≡ Status.SayFault) (S.say_faults ready.opened.log.site) (S.say_faults result.site) }
{
    let ReadyDump {
        opened,
        counts,
        line,
    } = ready;
    let ended = write_opened(opened, &counts, dump);
    match ended.status {
        Status::Ok => say_done(ended.into_site(), line.as_slice()),
        _ => ended,
    }
}
