//! The command `run`.

ghost use Rattle.std.specs.Prelude.{◌≡◌, ◌↔◌, ◌<◌, ◌≤◌, ◌^◌, ◌⊎◌, ◌+◌, [], ℕ, List, Option, Some, IfSome, IsTrue};
ghost use Rattle.dms_audfile.specs.Counting.{CountedAt};
ghost use Rattle.dms_desc.specs.Shape.{as_described};
ghost use Rattle.dms_desc_bytes.specs.Spelling.{spelling};
ghost use Rattle.dms_desc_bytes.specs.WellFormed.{IsWellFormed};
ghost use Rattle.dms_opening.specs.Openings.{NamesStructures};
ghost use Rattle.dms_guard.specs.Bare.{bare};
ghost use Rattle.dms_run.specs.Opens.{DatabaseState, HoldsTold};
ghost use Rattle.dms_runtop.specs.Command.{GrowsOpened, StandsOpened, RunKeepsTrail, RunsCommand, RunsOpened};
ghost use Rattle.dms_runtop.specs.Describing.{IsUnderSchema};
ghost use Rattle.dms_runtop.specs.Full.{HasNoRoom, PassesAtFull};
ghost use Rattle.dms_guard.specs.Guard.{SameGuarded, StaysBeside};
ghost use Rattle.dms_runtop.specs.Inputs.{TakesInput};
ghost use Rattle.dms_runtop.specs.RunDoes.{Opens, RunDoes};
ghost use Rattle.dms_runtop.specs.Statuses.{IsOfRun, IsOfScript};
ghost use Rattle.dms_wal.specs.Lifting.{AreCounts};

use crate::describing::describe;
use crate::full::status_of_full;
use crate::over::run_over;
use dms_desc::Description;
use dms_desc_bytes::{encode, spelling_law};
use dms_descfile::FileFault;
use dms_guard::{Ended, Knows, RunSite, open, status_of_refusal};
use dms_opening::Opened;
use dms_restore::Log;
use dms_run::{held_law, stands_law, states_law};
use dms_site::{Site, Source};
use dms_status::{LimitKind, Status};
use dms_store::served_law;
use std::alloc::Global;
use std::marker::Brand;

/// The status that a fault of the description ends with.
fn status_of_description(fault: FileFault) -> Status
    ensures disk { (result ≡ Status.DiskFault → fault ≡ FileFault.Disk) × (fault ≡ FileFault.Disk → result ≡ Status.DiskFault) }
    ensures memory { fault ≡ FileFault.Memory → result ≡ Status.Memory }
{
    match fault {
        FileFault::Disk => Status::DiskFault,
        FileFault::Memory => Status::Memory,
    }
}

/// The site of a database that was opened.
fn site_of<S: Site>(opened: Opened<S>) -> S
    ensures { result ≡ opened.log.site }
{
    let Opened {
        log,
        schema: _schema,
        counts: _counts,
        next: _,
        point: _,
        audit: _,
    } = opened;
    let Log {
        site,
        end: _end,
        first: _,
    } = log;
    site
}

/// The bytes of a description, where memory isn't refused.
fn bytes_of(alloc: Global, desc: &Description) -> Option<Vec<u8>>
    ensures { IfSome result (λ bytes. bytes.items ≡ spelling (as_described desc.now)) }
{
    let Ok(spelled) = encode(alloc, desc) else {
        return None;
    };
    match Vec::from_slice(alloc, spelled.as_slice()) {
        Ok(bytes) => Some(bytes),
        Err(_) => None,
    }
}

/// Whether there is room for the numbers of a script, from the next one on.
fn has_numbers_left(next: u64) -> bool
    ensures { IsTrue result ↔ (next + 1000003 < 2 ^ 64) }
{
    next < u64::MAX - 1_000_002
}

/// Runs the script over a database that was opened, under this description, and closes it. Where there is no room for the numbers of a script that
/// counts as want of memory.
fn run_described<S: Site, I: Source>(
    alloc: Global,
    opened: Opened<S>,
    desc: &Description,
    source: &mut I,
) -> Ended<S>
    requires formed { IsWellFormed (as_described desc.now) }
    requires under { IsUnderSchema opened.schema.items (as_described desc.now) }
    requires table { AreCounts opened.counts.items }
    requires named { NamesStructures opened.schema.items opened.counts.items }
    requires known { IsTrue S.tells → StandsOpened S.Site opened }
    ensures ran { RunsOpened S.Site opened (I.left source.old) (I.left source.new) result.status result.site }
    ensures grown { GrowsOpened S.Site opened result.site }
    ensures takes { TakesInput I.Source source.old source.new result.status }
    ensures statuses { (result.status ≡ Status.Ok) ⊎ IsOfScript result.status }
    ensures disk { CountedAt (result.status ≡ Status.DiskFault) (S.disk_faults opened.log.site) (S.disk_faults result.site) }
    ensures say { CountedAt (result.status ≡ Status.SayFault) (S.say_faults opened.log.site) (S.say_faults result.site) }
    ensures same { S.same_site opened.log.site result.site }
{
    served_law();
    spelling_law();
    if !has_numbers_left(opened.next) {
        return Ended {
            status: Status::Memory,
            site: site_of(opened),
        };
    }
    let Some(schema) = bytes_of(alloc, desc) else {
        return Ended {
            status: Status::Memory,
            site: site_of(opened),
        };
    };
    let Opened {
        log,
        schema: _schema,
        counts,
        next,
        point,
        audit,
    } = opened;
    let opened = Opened {
        log,
        schema,
        counts,
        next,
        point,
        audit,
    };
    match opened.into_running(
        alloc,
        u32::from(desc.buffers),
        u32::from(desc.controlpoint),
        u32::from(desc.files),
    ) {
        Ok(running) => run_over(alloc, desc, running, source),
        Err((_fault, site)) => Ended {
            status: Status::Memory,
            site,
        },
    }
}

/// Runs the script over a database that was opened, under the description at its last point, and closes it.
fn run_opened<S: Site, I: Source>(alloc: Global, opened: Opened<S>, source: &mut I) -> Ended<S>
    requires table { AreCounts opened.counts.items }
    requires named { NamesStructures opened.schema.items opened.counts.items }
    requires known { IsTrue S.tells → StandsOpened S.Site opened }
    ensures ran { RunsOpened S.Site opened (I.left source.old) (I.left source.new) result.status result.site }
    ensures grown { GrowsOpened S.Site opened result.site }
    ensures takes { TakesInput I.Source source.old source.new result.status }
    ensures statuses { (result.status ≡ Status.Ok) ⊎ IsOfScript result.status }
    ensures disk { CountedAt (result.status ≡ Status.DiskFault) (S.disk_faults opened.log.site) (S.disk_faults result.site) }
    ensures say { CountedAt (result.status ≡ Status.SayFault) (S.say_faults opened.log.site) (S.say_faults result.site) }
    ensures same { S.same_site opened.log.site result.site }
{
    let Opened {
        log,
        schema,
        counts,
        next,
        point,
        audit,
    } = opened;
    let Log {
        mut site,
        end,
        first,
    } = log;
    match describe(alloc, &mut site, schema.as_slice()) {
        Ok(desc) => {
            let opened = Opened {
                log: Log { site, end, first },
                schema,
                counts,
                next,
                point,
                audit,
            };
            run_described(alloc, opened, &desc, source)
        }
        Err(fault) => Ended {
            status: status_of_description(fault),
            site,
        },
    }
}

/// The same, over the site of a run, where it may be known what the files stand for.
fn run_known<S: Site, I: Source, K: Knows>(
    alloc: Global,
    opened: Opened<RunSite<S, K>>,
    source: &mut I,
) -> Ended<RunSite<S, K>>
    requires table { AreCounts opened.counts.items }
    requires named { NamesStructures opened.schema.items opened.counts.items }
    requires known { IsTrue S.tells → IsTrue K.known → StandsOpened S.Site (bare opened) }
    ensures ran { IsTrue K.known → RunsOpened S.Site (bare opened) (I.left source.old) (I.left source.new) result.status result.site.site }
    ensures grown { IsTrue K.known → GrowsOpened S.Site (bare opened) result.site.site }
    ensures takes { TakesInput I.Source source.old source.new result.status }
    ensures statuses { (result.status ≡ Status.Ok) ⊎ IsOfScript result.status }
    ensures disk { CountedAt (result.status ≡ Status.DiskFault) (S.disk_faults opened.log.site.site + opened.log.site.refused) (S.disk_faults result.site.site + result.site.refused) }
    ensures say { CountedAt (result.status ≡ Status.SayFault) (S.say_faults opened.log.site.site) (S.say_faults result.site.site) }
    ensures same { SameGuarded S.Site opened.log.site.structures opened.log.site.site result.site.structures result.site.site }
{
    run_opened(alloc, opened, source)
}

/// The same, and where the audit had no room that was confirmed by the file that its limit names.
fn run_confirmed<S: Site, I: Source, K: Knows>(
    alloc: Global,
    opened: Opened<RunSite<S, Brand>>,
    source: &mut I,
) -> Ended<RunSite<S, Brand>>
    requires table { AreCounts opened.counts.items }
    requires named { NamesStructures opened.schema.items opened.counts.items }
    requires known { IsTrue S.tells → IsTrue K.known → StandsOpened S.Site (bare opened) }
    ensures ran { IsTrue K.known → RunsOpened S.Site (bare opened) (I.left source.old) (I.left source.new) result.status result.site.site }
    ensures grown { IsTrue K.known → GrowsOpened S.Site (bare opened) result.site.site }
    ensures takes { TakesInput I.Source source.old source.new result.status }
    ensures statuses { (result.status ≡ Status.Ok) ⊎ IsOfScript result.status }
    ensures passes { PassesAtFull S.Site opened.log.end.total opened.log.first result.status result.site.site }
    ensures disk { CountedAt (result.status ≡ Status.DiskFault) (S.disk_faults opened.log.site.site + opened.log.site.refused) (S.disk_faults result.site.site + result.site.refused) }
    ensures say { CountedAt (result.status ≡ Status.SayFault) (S.say_faults opened.log.site.site) (S.say_faults result.site.site) }
    ensures same { SameGuarded S.Site opened.log.site.structures opened.log.site.site result.site.structures result.site.site }
{
    let first = opened.log.first;
    let total = opened.log.end.total;
    let ended = run_known::<S, I, Brand>(alloc, opened, source);
    match ended.status {
        Status::Limit(LimitKind::AuditFile(limit)) => {
            let mut site = ended.into_site();
            let status = status_of_full(&mut site, first, total, limit);
            Ended { status, site }
        }
        _ => ended,
    }
}

/// `run` over a site by value, that is guarded from its opening on.
fn run_found<S: Site, I: Source>(alloc: Global, site: S, source: &mut I) -> Ended<RunSite<S, Brand>>
    ghost state: { Option DatabaseState }
    requires told { IsTrue S.tells → HoldsTold state (S.files site) }
    ensures opens { Opens S.Site I.Source site result.site.site source.old source.new result.status }
    ensures ran { RunsCommand S.Site state site result.site.site (I.left source.old) (I.left source.new) result.status }
    ensures trail { RunKeepsTrail S.Site state site result.site.site }
    ensures takes { TakesInput I.Source source.old source.new result.status }
    ensures statuses { IsOfRun result.status }
    ensures full { HasNoRoom S.Site site result.site.site result.status }
    ensures disk { CountedAt (result.status ≡ Status.DiskFault) (S.disk_faults site) (S.disk_faults result.site.site + result.site.refused) }
    ensures counted { S.disk_faults site ≤ S.disk_faults result.site.site }
    ensures say { CountedAt (result.status ≡ Status.SayFault) (S.say_faults site) (S.say_faults result.site.site) }
    ensures same { S.same_site site result.site.site }
    ensures beside { StaysBeside S.Site site result.site.site }
{
    held_law();
    states_law();
    match open(alloc, site) {
        Ok(opened) => run_confirmed::<S, I, Brand>(alloc, opened, source),
        Err((refusal, site)) => Ended {
            status: status_of_refusal(refusal),
            site,
        },
    }
}

/// `run` over a site by value, of which no other file than those that a run may write is written.
fn run_guarded<S: Site, I: Source>(alloc: Global, site: S, source: &mut I) -> Ended<S>
    ghost state: { Option DatabaseState }
    requires told { IsTrue S.tells → HoldsTold state (S.files site) }
    ensures opens { Opens S.Site I.Source site result.site source.old source.new result.status }
    ensures ran { RunsCommand S.Site state site result.site (I.left source.old) (I.left source.new) result.status }
    ensures trail { RunKeepsTrail S.Site state site result.site }
    ensures takes { TakesInput I.Source source.old source.new result.status }
    ensures statuses { IsOfRun result.status }
    ensures full { HasNoRoom S.Site site result.site result.status }
    ensures disk { CountedAt (result.status ≡ Status.DiskFault) (S.disk_faults site) (S.disk_faults result.site) }
    ensures say { CountedAt (result.status ≡ Status.SayFault) (S.say_faults site) (S.say_faults result.site) }
    ensures same { S.same_site site result.site }
    ensures beside { StaysBeside S.Site site result.site }
{
    let ended = run_found(alloc, site, source);
    let status = ended.status;
    let RunSite {
        site,
        structures: _,
        refused,
        by: _by,
    } = ended.into_site();
    // No run comes to a call that is refused: nothing below writes another file.
    if refused > 0 {
        return Ended {
            status: Status::Memory,
            site,
        };
    }
    Ended { status, site }
}

/// `run`: opens the database by halt/load, runs the lines of the script and closes it.
///
/// What is said of points, moments and text is said of each state that the files stand for at entry: a caller may tell it, and needn't. Each
/// stop leaves files that stand for one again, so that what it tells of them is what another run asks for.
pub fn run_command<S: Site, I: Source>(alloc: Global, site: &mut S, source: &mut I) -> Status
    ghost state: { Option DatabaseState }
    requires told { IsTrue S.tells → HoldsTold state (S.files site.old) }
    ensures does { RunDoes S.Site I.Source state site.old site.new source.old source.new result }
    ensures end { result ≡ Status.Ok → (all : List ℕ) → I.left source.old ≡ Some all → I.left source.new ≡ Some [] }
    ensures disk { CountedAt (result ≡ Status.DiskFault) (S.disk_faults site.old) (S.disk_faults site.new) }
    ensures say { CountedAt (result ≡ Status.SayFault) (S.say_faults site.old) (S.say_faults site.new) }
    ensures input { CountedAt (result ≡ Status.InputFault) (I.faults source.old) (I.faults source.new) }
    ensures same_site { S.same_site site.old site.new }
    ensures same_source { I.same_source source.old source.new }
{
    held_law();
    stands_law();
    let ended = run_guarded(alloc, site, source);
    let status = ended.status;
    let _site = ended.into_site();
    status
}
