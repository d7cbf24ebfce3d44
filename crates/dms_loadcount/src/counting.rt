ghost use Rattle.std.specs.Prelude.{◌≡◌, ◌+◌, ◌≤◌, Some, length, IfOk, IsErrOf};
ghost use Rattle.dms_desc.specs.Shape.{as_described};
ghost use Rattle.dms_desc_bytes.specs.WellFormed.{IsWellFormed};
ghost use Rattle.dms_loadcount.specs.Answers.{HoldsTooMany};
ghost use Rattle.dms_loadcount.specs.Counted.{CountsLoad, CountsText};
ghost use Rattle.dms_model.specs.Db.{Db, records_of};

use dms_desc::Description;
use dms_feed::Feed;
use dms_load::{LoadSource, Summary, times};
use dms_model::Store;
use dms_plain::PlainStore;
use dms_runner::{RunFault, left_law, run_lines};
use dms_sitemem::MemSite;
use dms_storeverbs::Engine;
use std::alloc::Global;

/// The number of the data set ACCOUNT: it is the second structure of the schema.
const ACCOUNT: u16 = 2;

/// Why the answers of a script aren't counted.
#[derive(Clone, Copy, Debug, PartialEq, Eq)]
pub enum CountFault {
    Memory,
    /// A line would be the 10,001st that is held.
    Held,
}

/// Counts what was printed and what was made by a script of so many lines over a database that began empty, at its end.
fn summary_of(store: PlainStore<MemSite>, lines: u32) -> Summary
    requires { 1 ≤ (⟦<PlainStore<MemSite> as Store>⟧.seen store).next }
    ensures text { CountsText lines (⟦<PlainStore<MemSite> as Store>⟧.seen store).said result }
    ensures quiets { result.quiets + 1 ≡ (⟦<PlainStore<MemSite> as Store>⟧.seen store).next }
    ensures records { (db : Db) → (⟦<PlainStore<MemSite> as Store>⟧.seen store).db ≡ Some db → result.records ≡ length (records_of db.records 2) }
{
    let quiets = store.next_number() - 1;
    let records = store.count(ACCOUNT) as u64;
    let site = store.into_site();
    let text = site.text();
    Summary {
        lines,
        done: times(b" DONE", text),
        exceptions: times(b" EXCEPTION", text),
        held: times(b" WAITS FOR", text),
        unanswered: times(b" UNANSWERED", text),
        quiets,
        records,
    }
}

/// Why a script wasn't counted that was run over a database in memory. Another limit than that of held lines, and a taking that fails, can't come.
fn fault_of(fault: RunFault) -> CountFault
    ensures { result ≡ CountFault.Held → fault ≡ RunFault.Held }
{
    match fault {
        RunFault::Held => CountFault::Held,
        _ => CountFault::Memory,
    }
}

/// The summary of the script `load seed n`: its lines are run over a database in memory that begins empty, under this description, and what they answer
/// is counted. It touches no file. No script of a load has more lines or bytes than a script may have.
pub fn count_load(
    alloc: Global,
    desc: &Description,
    seed: u64,
    n: u32,
) -> Result<Summary, CountFault>
    requires few { n ≤ 20000 }
    requires formed { IsWellFormed (as_described desc.now) }
    ensures counts { IfOk result (λ summary. CountsLoad (as_described desc.now) seed n summary) }
    ensures held { IsErrOf result CountFault.Held → HoldsTooMany (as_described desc.now) seed n }
{
    left_law();
    let Ok(site) = MemSite::new(alloc, Vec::new(alloc), None) else {
        return Err(CountFault::Memory);
    };
    match PlainStore::new(alloc, desc, site) {
        Err((_fault, _site)) => Err(CountFault::Memory),
        Ok(store) => match Engine::new(alloc, desc, store) {
            Err((_fault, _store)) => Err(CountFault::Memory),
            Ok(mut engine) => {
                let mut feed = Feed::new();
                let mut source = LoadSource::new(seed, n + 4);
                let ran = run_lines(alloc, &mut engine, &mut feed, &mut source);
                let store = engine.into_store();
                match ran {
                    Ok(()) => Ok(summary_of(store, n + 4)),
                    Err(fault) => Err(fault_of(fault)),
                }
            }
        },
    }
}
