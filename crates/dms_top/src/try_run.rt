ghost use Rattle.std.specs.Prelude.{◌≡◌, ◌≢◌, [], IsTrue, IsOk, IsErrOf};
ghost use Rattle.dms_desc.specs.Shape.{as_described};
ghost use Rattle.dms_desc_bytes.specs.WellFormed.{IsWellFormed};
ghost use Rattle.dms_feed.specs.Feeds.{Remains};
ghost use Rattle.dms_feed.specs.Lines.{raw_lines};
ghost use Rattle.dms_plain.specs.Speaking.{OnlySpeaks};
ghost use Rattle.dms_runner.specs.Blaming.{CutRun};
ghost use Rattle.dms_top.specs.Answering.{Printed, PrintedFront, PrintedPart, lines_events, lines_text};
ghost use Rattle.dms_status.specs.declared.status.LimitKind.{LimitKind as Kind};
ghost use Rattle.dms_top.specs.Premises.{OfRest};
ghost use Rattle.dms_audfile.specs.Counting.{CountedAt};
ghost use Rattle.dms_top.specs.TryLimits.{CutLines, PassesLimit, SaidIf, WithinLimits};
ghost use Rattle.dms_top.specs.Words.{IsOfTry, ComesUnsaid};
ghost use Rattle.dms_status.specs.declared.status.SchemaFault.{SchemaFault as Refusal};

use dms_block::BlockFault;
use dms_desc::Description;
use dms_feed::Feed;
use dms_plain::PlainStore;
use dms_runner::{RunFault, run_lines};
use dms_site::{Site, Source};
use dms_status::{LimitKind, Status};
use dms_storeverbs::Engine;
use std::alloc::Global;

/// The status that a fault of a run ends with. A run over a list reads and writes no file, so it never answers a fault of
/// the disk, a full audit or a damaged block.
fn status_of(fault: RunFault) -> Status
    ensures statuses { IsOfTry result }
    ensures ok { result ≢ Status.Ok }
    ensures words { result ≢ Status.BadWords }
    ensures schema { (f : Refusal) → result ≢ Status.SchemaRefused f }
    ensures input { (result ≡ Status.InputFault → fault ≡ RunFault.Input) × (fault ≡ RunFault.Input → result ≡ Status.InputFault) }
    ensures disk { result ≢ Status.DiskFault }
    ensures say { (result ≡ Status.SayFault → fault ≡ RunFault.Block BlockFault.Say) × (fault ≡ RunFault.Block BlockFault.Say → result ≡ Status.SayFault) }
    ensures lines { result ≡ Status.Limit LimitKind.Lines → fault ≡ RunFault.Lines }
    ensures bytes { result ≡ Status.Limit LimitKind.Bytes → fault ≡ RunFault.Bytes }
    ensures waiting { result ≡ Status.Limit LimitKind.Held → fault ≡ RunFault.Held }
    ensures spoken { ComesUnsaid result → ⊥ }
{
    match fault {
        RunFault::Block(BlockFault::Say) => Status::SayFault,
        RunFault::Block(_) => Status::Memory,
        RunFault::Input => Status::InputFault,
        RunFault::Lines => Status::Limit(LimitKind::Lines),
        RunFault::Bytes => Status::Limit(LimitKind::Bytes),
        RunFault::Held => Status::Limit(LimitKind::Held),
        RunFault::Memory => Status::Memory,
    }
}

/// The status that a run ends with.
fn status_after(ran: Result<(), RunFault>) -> Status
    ensures statuses { IsOfTry result }
    ensures ok { result ≡ Status.Ok → IsOk ran }
    ensures words { result ≢ Status.BadWords }
    ensures schema { (f : Refusal) → result ≢ Status.SchemaRefused f }
    ensures input { result ≡ Status.InputFault → IsErrOf ran RunFault.Input }
    ensures took { IsErrOf ran RunFault.Input → result ≡ Status.InputFault }
    ensures disk { result ≢ Status.DiskFault }
    ensures say { result ≡ Status.SayFault → IsErrOf ran (RunFault.Block BlockFault.Say) }
    ensures said { IsErrOf ran (RunFault.Block BlockFault.Say) → result ≡ Status.SayFault }
    ensures memory { result ≡ Status.Memory → CutRun ran → ⊥ }
    ensures cut { CutRun ran → result ≡ Status.SayFault }
    ensures lines { result ≡ Status.Limit LimitKind.Lines → IsErrOf ran RunFault.Lines }
    ensures bytes { result ≡ Status.Limit LimitKind.Bytes → IsErrOf ran RunFault.Bytes }
    ensures waiting { result ≡ Status.Limit LimitKind.Held → IsErrOf ran RunFault.Held }
    ensures spoken { ComesUnsaid result → ⊥ }
{
    match ran {
        Ok(()) => Status::Ok,
        Err(fault) => status_of(fault),
    }
}

/// Runs the lines that a feed and its source have left over a database in memory that begins empty, under a description that a
/// schema can have.
pub fn try_lines<S: Site, I: Source>(
    alloc: Global,
    desc: &Description,
    site: &mut S,
    feed: &mut Feed,
    source: &mut I,
) -> Status
    requires { IsWellFormed (as_described desc.now) }
    ensures statuses { IsOfTry result }
    ensures words { result ≢ Status.BadWords }
    ensures schema { (f : Refusal) → result ≢ Status.SchemaRefused f }
    ensures end { result ≡ Status.Ok → OfRest feed.old (I.left source.old) (λ all. Remains feed.new (I.left source.new) []) }
    ensures answers { result ≡ Status.Ok → IsTrue S.tells_said → OfRest feed.old (I.left source.old) (λ all. Printed (S.said site.old) (S.said site.new) (lines_text (as_described desc.now) all)) }
    ensures part { IsTrue S.tells_said → OfRest feed.old (I.left source.old) (λ all. PrintedPart result (S.said site.old) (S.said site.new) (lines_events (as_described desc.now) all)) }
    ensures front { IsTrue S.tells_said → OfRest feed.old (I.left source.old) (λ all. PrintedFront result (as_described desc.now) (raw_lines all) (S.said site.old) (S.said site.new)) }
    ensures within { result ≡ Status.Ok → OfRest feed.old (I.left source.old) (λ all. WithinLimits (as_described desc.now) (raw_lines all)) }
    ensures limit { (k : Kind) → result ≡ Status.Limit k → OfRest feed.old (I.left source.old) (λ all. PassesLimit (SaidIf S.tells_said (S.said site.old) (S.said site.new)) k (as_described desc.now) (raw_lines all)) }
    ensures input_cut { result ≡ Status.InputFault → OfRest feed.old (I.left source.old) (λ all. CutLines (SaidIf S.tells_said (S.said site.old) (S.said site.new)) (as_described desc.now) all (I.left source.new)) }
    ensures input { CountedAt (result ≡ Status.InputFault) (I.faults source.old) (I.faults source.new) }
    ensures disk { CountedAt (result ≡ Status.DiskFault) (S.disk_faults site.old) (S.disk_faults site.new) }
    ensures say { CountedAt (result ≡ Status.SayFault) (S.say_faults site.old) (S.say_faults site.new) }
    ensures no_disk { result ≢ Status.DiskFault }
    ensures files { IsTrue S.tells → S.files site.new ≡ S.files site.old }
    ensures only_speaks { OnlySpeaks (S.clock site.old) (S.clock site.new) }
    ensures same_site { S.same_site site.old site.new }
    ensures same_source { I.same_source source.old source.new }
    ensures spoken { ComesUnsaid result → ⊥ }
{
    match PlainStore::new(alloc, desc, site) {
        Err((_fault, _site)) => Status::Memory,
        Ok(store) => match Engine::new(alloc, desc, store) {
            Err((_fault, store)) => {
                let _site = store.into_site();
                Status::Memory
            }
            Ok(mut engine) => {
                let ran = run_lines(alloc, &mut engine, feed, source);
                let _site = engine.into_store().into_site();
                status_after(ran)
            }
        },
    }
}
