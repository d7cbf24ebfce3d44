//! What has to stand before a block is sealed in a copy.

ghost use Rattle.std.specs.Prelude.{◌≡◌, ◌&&◌, ◌||◌, ℕ, List, is_some, IfOk, IfErr, IsTrue};
ghost use Rattle.dms_moments.specs.Moments.{Steps};
ghost use Rattle.dms_site.specs.Files.{Only};
ghost use Rattle.dms_audfile.specs.Counting.{CountedAt};
ghost use Rattle.dms_remote.specs.Copy.{MaySeal};
ghost use Rattle.dms_remote.specs.Next.{TakesNext, AreKinds};
ghost use Rattle.dms_remote.specs.Settling.{StaysCopy, SameHistory};

use crate::kinds::Kinds;
use crate::settling::settle;
use dms_audfile::AudFault;
use dms_restore::{Log, TrailHistory};
use dms_site::Site;
use std::alloc::Global;

/// Whether blocks must be settled before a block with these entries is sealed.
fn must_settle(history: &TrailHistory, kinds: Kinds, opened: bool) -> bool
    ensures { result ≡ (opened && (kinds.control || (kinds.begin && is_some history.now.pending))) }
{
    opened && (kinds.control || (kinds.begin && history.pending.is_some()))
}

/// Settles what has to stand before a block with these entries is sealed: before a Control, and before a Begin while a restore is pending. `opened`
/// says whether the first Control is sealed.
///
/// A stop at any moment leaves the same copy. Answers Disk where a call of the site failed, and Memory.
pub fn settle_before<S: Site>(
    alloc: Global,
    log: Log<S>,
    history: &mut TrailHistory,
    kinds: Kinds,
    opened: bool,
) -> Result<Log<S>, (AudFault, Log<S>)>
    ensures ready { IfOk result (λ l. (head : List ℕ) (blocks : List (List ℕ)) (block : List ℕ) → IsTrue S.tells → TakesNext log.end history.old opened head blocks block (S.files log.site) → AreKinds kinds block
        → MaySeal l.end head blocks block (S.files l.site)) }
    ensures moments { IfOk result (λ l. (head : List ℕ) (blocks : List (List ℕ)) (block : List ℕ) → IsTrue S.tells → TakesNext log.end history.old opened head blocks block (S.files log.site) → Only (S.files log.site) (S.clock log.site)
        → Steps (StaysCopy log.end.total log.end.tag head blocks) (S.clock log.site) (S.clock l.site)) }
    ensures stopped { IfErr result (λ e. (head : List ℕ) (blocks : List (List ℕ)) (block : List ℕ) → IsTrue S.tells → TakesNext log.end history.old opened head blocks block (S.files log.site) → Only (S.files log.site) (S.clock log.site)
        → Steps (StaysCopy log.end.total log.end.tag head blocks) (S.clock log.site) (S.clock e.1.site)) }
    ensures durable { IfOk result (λ l. IsTrue S.tells → Only (S.files log.site) (S.clock log.site) → Only (S.files l.site) (S.clock l.site)) }
    ensures kept { SameHistory history.old history.new }
    ensures kind { IfOk result (λ l. (l.end ≡ log.end) × (l.first ≡ log.first)) }
    ensures said { IfOk result (λ l. S.said l.site ≡ S.said log.site) }
    ensures said_then { IfErr result (λ e. S.said e.1.site ≡ S.said log.site) }
    ensures same { IfOk result (λ l. S.same_site log.site l.site) }
    ensures same_then { IfErr result (λ e. S.same_site log.site e.1.site) }
    ensures clean { IfOk result (λ l. S.disk_faults l.site ≡ S.disk_faults log.site) }
    ensures disk { IfErr result (λ e. CountedAt (e.0 ≡ AudFault.Disk) (S.disk_faults log.site) (S.disk_faults e.1.site)) }
    ensures say_faults { IfOk result (λ l. S.say_faults l.site ≡ S.say_faults log.site) }
    ensures say_faults_then { IfErr result (λ e. S.say_faults e.1.site ≡ S.say_faults log.site) }
{
    if must_settle(history, kinds, opened) {
        match settle(alloc, log, history) {
            Ok(log) => Ok(log),
            Err(refused) => Err(refused),
        }
    } else {
        Ok(log)
    }
}
