//! The next block of its source is sealed in a copy.

ghost use Rattle.std.specs.Prelude.{◌≡◌, ◌&&◌, ◌<◌, ℕ, List, length, not, IfOk, IfErr, IsTrue};
ghost use Rattle.dms_moments.specs.Moments.{Steps};
ghost use Rattle.dms_site.specs.Files.{Only};
ghost use Rattle.dms_audfile.specs.Counting.{CountedAt};
ghost use Rattle.dms_remote.specs.Copy.{MaySeal, EndsCopy};
ghost use Rattle.dms_remote.specs.Gate.{gated, TurnsCopy};
ghost use Rattle.dms_remote.specs.Next.{TakesNext, AreKinds};
ghost use Rattle.dms_remote.specs.Settling.{SameHistory};

use crate::gating::{open_gate, opens_gate};
use crate::kinds::Kinds;
use crate::sealing::seal_copy;
use crate::turning::settle_before;
use dms_audfile::AudFault;
use dms_restore::{Log, TrailHistory};
use dms_site::Site;
use std::alloc::Global;

/// Seals a block that may be sealed, and then opens the gate of the database where it is to be opened.
fn seal_gated<S: Site>(log: Log<S>, block: &[u8], opens: bool) -> Result<Log<S>, (AudFault, Log<S>)>
    requires size { length block.now ≡ 4096 }
    requires empty { log.end.used ≡ 0 }
    requires none { log.end.full ≡ 0 }
    requires allowed { log.end.file < 20000 }
    ensures sealed { IfOk result (λ l. (head : List ℕ) (blocks : List (List ℕ)) → IsTrue S.tells → MaySeal log.end head blocks block.now (S.files log.site) → EndsCopy l.end (gated opens head) blocks block.now (S.files l.site)) }
    ensures moments { IfOk result (λ l. (head : List ℕ) (blocks : List (List ℕ)) → IsTrue S.tells → MaySeal log.end head blocks block.now (S.files log.site) → Only (S.files log.site) (S.clock log.site)
        → Steps (TurnsCopy log.end.total log.end.tag opens head blocks block.now) (S.clock log.site) (S.clock l.site)) }
    ensures stopped { IfErr result (λ e. (head : List ℕ) (blocks : List (List ℕ)) → IsTrue S.tells → MaySeal log.end head blocks block.now (S.files log.site) → Only (S.files log.site) (S.clock log.site)
        → Steps (TurnsCopy log.end.total log.end.tag opens head blocks block.now) (S.clock log.site) (S.clock e.1.site)) }
    ensures durable { IfOk result (λ l. IsTrue S.tells → Only (S.files l.site) (S.clock l.site)) }
    ensures empty { IfOk result (λ l. (l.end.used ≡ 0) × (l.end.full ≡ 0)) }
    ensures kind { IfOk result (λ l. (l.end.total ≡ log.end.total) × (l.end.tag ≡ log.end.tag) × (l.end.limit ≡ log.end.limit) × (l.first ≡ log.first)) }
    ensures said { IfOk result (λ l. S.said l.site ≡ S.said log.site) }
    ensures said_then { IfErr result (λ e. S.said e.1.site ≡ S.said log.site) }
    ensures same { IfOk result (λ l. S.same_site log.site l.site) }
    ensures same_then { IfErr result (λ e. S.same_site log.site e.1.site) }
    ensures clean { IfOk result (λ l. S.disk_faults l.site ≡ S.disk_faults log.site) }
    ensures disk { IfErr result (λ e. CountedAt (e.0 ≡ AudFault.Disk) (S.disk_faults log.site) (S.disk_faults e.1.site)) }
    ensures say_faults { IfOk result (λ l. S.say_faults l.site ≡ S.say_faults log.site) }
    ensures say_faults_then { IfErr result (λ e. S.say_faults e.1.site ≡ S.say_faults log.site) }
{
    let mut log = log;
    match seal_copy(&mut log.end, &mut log.site, block) {
        Ok(()) => {}
        Err(_) => return Err((AudFault::Disk, log)),
    }
    match open_gate(&mut log.site, opens) {
        Ok(()) => Ok(log),
        Err(_) => Err((AudFault::Disk, log)),
    }
}

/// Seals the next block of its source in a copy: what has to stand before it is settled, and the gate of the database is opened behind its first
/// Control, which wasn't sealed before where `opened` is false. Nothing waits, and nothing is pending.
///
/// A stop at any moment leaves the copy of before, or the one with this block, whose gate may then be opened. Answers Disk where a call of the site
/// failed, and Memory.
pub fn seal_next<S: Site>(
    alloc: Global,
    log: Log<S>,
    history: &mut TrailHistory,
    block: &[u8],
    kinds: Kinds,
    opened: bool,
) -> Result<Log<S>, (AudFault, Log<S>)>
    requires size { length block.now ≡ 4096 }
    requires empty { log.end.used ≡ 0 }
    requires none { log.end.full ≡ 0 }
    requires allowed { log.end.file < 20000 }
    ensures sealed { IfOk result (λ l. (head : List ℕ) (blocks : List (List ℕ)) → IsTrue S.tells → TakesNext log.end history.old opened head blocks block.now (S.files log.site) → AreKinds kinds block.now
        → EndsCopy l.end (gated (kinds.first && not opened) head) blocks block.now (S.files l.site)) }
    ensures moments { IfOk result (λ l. (head : List ℕ) (blocks : List (List ℕ)) → IsTrue S.tells → TakesNext log.end history.old opened head blocks block.now (S.files log.site) → AreKinds kinds block.now
        → Only (S.files log.site) (S.clock log.site) → Steps (TurnsCopy log.end.total log.end.tag (kinds.first && not opened) head blocks block.now) (S.clock log.site) (S.clock l.site)) }
    ensures stopped { IfErr result (λ e. (head : List ℕ) (blocks : List (List ℕ)) → IsTrue S.tells → TakesNext log.end history.old opened head blocks block.now (S.files log.site) → AreKinds kinds block.now
        → Only (S.files log.site) (S.clock log.site) → Steps (TurnsCopy log.end.total log.end.tag (kinds.first && not opened) head blocks block.now) (S.clock log.site) (S.clock e.1.site)) }
    ensures durable { IfOk result (λ l. IsTrue S.tells → Only (S.files l.site) (S.clock l.site)) }
    ensures empty { IfOk result (λ l. (l.end.used ≡ 0) × (l.end.full ≡ 0)) }
    ensures kept { SameHistory history.old history.new }
    ensures kind { IfOk result (λ l. (l.end.total ≡ log.end.total) × (l.end.tag ≡ log.end.tag) × (l.end.limit ≡ log.end.limit) × (l.first ≡ log.first)) }
    ensures said { IfOk result (λ l. S.said l.site ≡ S.said log.site) }
    ensures said_then { IfErr result (λ e. S.said e.1.site ≡ S.said log.site) }
    ensures same { IfOk result (λ l. S.same_site log.site l.site) }
    ensures same_then { IfErr result (λ e. S.same_site log.site e.1.site) }
    ensures clean { IfOk result (λ l. S.disk_faults l.site ≡ S.disk_faults log.site) }
    ensures disk { IfErr result (λ e. CountedAt (e.0 ≡ AudFault.Disk) (S.disk_faults log.site) (S.disk_faults e.1.site)) }
    ensures say_faults { IfOk result (λ l. S.say_faults l.site ≡ S.say_faults log.site) }
    ensures say_faults_then { IfErr result (λ e. S.say_faults e.1.site ≡ S.say_faults log.site) }
{
    match settle_before(alloc, log, history, kinds, opened) {
        Ok(log) => match seal_gated(log, block, opens_gate(kinds, opened)) {
            Ok(log) => Ok(log),
            Err(refused) => Err(refused),
        },
        Err(refused) => Err(refused),
    }
}
