//! A script over a database that was opened.

ghost use Rattle.std.specs.Prelude.{◌≡◌, ◌⊎◌, Some, IsTrue};
ghost use Rattle.dms_audfile.specs.Counting.{CountedAt};
ghost use Rattle.dms_desc.specs.Shape.{as_described};
ghost use Rattle.dms_desc_bytes.specs.WellFormed.{IsWellFormed};
ghost use Rattle.dms_model.specs.Db.{Db};
ghost use Rattle.dms_model.specs.Session.{fresh_session};
ghost use Rattle.dms_runtop.specs.Inputs.{TakesInput};
ghost use Rattle.dms_runtop.specs.Over.{RunsOver, ClosesOver, GrowsOver};
ghost use Rattle.dms_runtop.specs.Statuses.{IsOfClosing, IsOfScript};
ghost use Rattle.dms_store.specs.Lifted.{Serves};
ghost use Rattle.dms_storeverbs.specs.View.{StandsFor, engine_view, view};
ghost use Rattle.dms_wal.specs.Database.{running_held};

use crate::ending::{fault_within, status_of_block, status_of_run};
use dms_desc::Description;
use dms_feed::Feed;
use dms_guard::Ended;
use dms_runner::run_lines;
use dms_site::{Site, Source};
use dms_status::Status;
use dms_store::BlockStore;
use dms_storeverbs::Engine;
use dms_wal::Running;
use std::alloc::Global;

/// The database under an engine.
fn running_under<S: Site>(engine: Engine<BlockStore<Running<S>>>) -> Running<S>
    ensures { result ≡ engine.store.over.below }
{
    engine.into_store().into_below()
}

/// Closes a database in which nothing is changed since the last point, and gives the site.
fn close_over<S: Site>(alloc: Global, running: Running<S>) -> Ended<S>
    requires { (running_held S.Site running).sound }
    ensures closes { ClosesOver S.Site running result.status result.site }
    ensures said { IsTrue S.tells_said → S.said result.site ≡ S.said running.log.site }
    ensures statuses { (result.status ≡ Status.Ok) ⊎ IsOfClosing result.status }
    ensures disk { CountedAt (result.status ≡ Status.DiskFault) (S.disk_faults running.log.site) (S.disk_faults result.site) }
    ensures say_faults { S.say_faults result.site ≡ S.say_faults running.log.site }
    ensures same { S.same_site running.log.site result.site }
{
    // A script's end goes back from what was open, so nothing is changed then. Where something were, that counts as want of memory, and the next
    // opening goes back from it.
    if running.changed {
        return Ended {
            status: Status::Memory,
            site: running.into_site(),
        };
    }
    match running.close(alloc) {
        Ok(site) => Ended {
            status: Status::Ok,
            site,
        },
        Err((fault, site)) => Ended {
            status: status_of_block(fault),
            site,
        },
    }
}

/// Runs the lines of a script over the store of an engine without programs, and closes the database.
fn run_engine<S: Site, I: Source>(
    alloc: Global,
    mut engine: Engine<BlockStore<Running<S>>>,
    source: &mut I,
) -> Ended<S>
    requires sound { (engine_view engine).sound }
    requires fresh { (db : Db) → (engine_view engine).db ≡ Some db → StandsFor (view engine) (fresh_session db (engine_view engine).next) }
    requires found { engine.store.found ≡ 0 }
    ensures ran { RunsOver S.Site engine.store.over.below (as_described engine.desc) (I.left source.old) (I.left source.new) result.status result.site }
    ensures grown { GrowsOver S.Site engine.store.over.below result.site }
    ensures takes { TakesInput I.Source source.old source.new result.status }
    ensures statuses { (result.status ≡ Status.Ok) ⊎ IsOfScript result.status }
    ensures disk { CountedAt (result.status ≡ Status.DiskFault) (S.disk_faults engine.store.over.below.log.site) (S.disk_faults result.site) }
    ensures say { CountedAt (result.status ≡ Status.SayFault) (S.say_faults engine.store.over.below.log.site) (S.say_faults result.site) }
    ensures same { S.same_site engine.store.over.below.log.site result.site }
{
    let mut feed = Feed::new();
    match run_lines(alloc, &mut engine, &mut feed, source) {
        Ok(()) => {
            let running = running_under(engine);
            close_over(alloc, running)
        }
        Err(fault) => {
            let running = running_under(engine);
            let fault = fault_within(fault, running.log.end.limit);
            Ended {
                status: status_of_run(fault),
                site: running.into_site(),
            }
        }
    }
}

/// Runs the lines of a script over a running database, and closes it. Where the run stops before the script's end it isn't closed: the next
/// opening recovers it.
pub fn run_over<S: Site, I: Source>(
    alloc: Global,
    desc: &Description,
    running: Running<S>,
    source: &mut I,
) -> Ended<S>
    requires sound { (running_held S.Site running).sound }
    requires serves { Serves (as_described desc.now) (running_held S.Site running) }
    requires formed { IsWellFormed (as_described desc.now) }
    requires mark { IsTrue S.tells → (running_held S.Site running).mark ≡ (running_held S.Site running).content }
    ensures ran { RunsOver S.Site running (as_described desc.now) (I.left source.old) (I.left source.new) result.status result.site }
    ensures grown { GrowsOver S.Site running result.site }
    ensures takes { TakesInput I.Source source.old source.new result.status }
    ensures statuses { (result.status ≡ Status.Ok) ⊎ IsOfScript result.status }
    ensures disk { CountedAt (result.status ≡ Status.DiskFault) (S.disk_faults running.log.site) (S.disk_faults result.site) }
    ensures say { CountedAt (result.status ≡ Status.SayFault) (S.say_faults running.log.site) (S.say_faults result.site) }
    ensures same { S.same_site running.log.site result.site }
{
    match BlockStore::new(alloc, desc, running) {
        Err((_fault, running)) => Ended {
            status: Status::Memory,
            site: running.into_site(),
        },
        Ok(store) => match Engine::new(alloc, desc, store) {
            Err((_fault, store)) => Ended {
                status: Status::Memory,
                site: store.into_below().into_site(),
            },
            Ok(engine) => run_engine(alloc, engine, source),
        },
    }
}
