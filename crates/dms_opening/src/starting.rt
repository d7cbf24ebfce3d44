//! The start of what is asked: its restore is begun, or the pending one goes on.

ghost use Rattle.std.specs.Prelude.{◌≡◌, ◌⊎◌, ◌+◌, ◌<◌, ◌≤◌, ℕ, [], ◌∷◌, true, false, if◌then◌else◌, length, IfOk, IfErr, IsTrue};
ghost use Rattle.dms_history.specs.History.{Pending};
ghost use Rattle.dms_audfile.specs.Counting.{CountedAt};
ghost use Rattle.dms_history.specs.Entries.{begin_restore, by_halt_load};
ghost use Rattle.dms_history.specs.Events.{Stored};
ghost use Rattle.dms_audrec.specs.Seen.{how_seen};
ghost use Rattle.dms_audrec.specs.Spelling.{spelling, IsRestoreKind, rows_of};
ghost use Rattle.dms_audfile.specs.Ends.{is_past};
ghost use Rattle.dms_restore.specs.Logging.{Ends, EndsSealed, LogGrows};
ghost use Rattle.dms_restore.specs.Parts.{SealsPart};
ghost use Rattle.dms_restore.specs.Views.{view_of, StaysSilent, LogStarts, IsSameTrail, SealsBehind};
ghost use Rattle.dms_restore.specs.Begins.{BeginsAny, AnyBegunAt, AnyLeaves, BegunAt, LeavesEach};
ghost use Rattle.dms_opening.specs.Plans.{SameDumps};
ghost use Rattle.dms_opening.specs.Starts.{MayOpen, BegunFrom};

use dms_audfile::AudFault;
use dms_audrec::BeginHow;
use dms_restore::{Begun, Log};
use dms_site::Site;

/// Begins a restore of this kind to a point of a trail that was scanned, or goes on with the restore that is pending.
///
/// Going on makes no call of the site. Answers Disk where a call of the site failed, and else Full where the audit has no room for
/// the Begin.
pub(crate) fn start<S: Site>(
    log: Log<S>,
    begins: bool,
    point: u64,
    how: BeginHow<'_>,
) -> Result<Begun<S>, (AudFault, Log<S>)>
    requires kind { IsRestoreKind (how_seen how) }
    requires few { length (rows_of (how_seen how)) ≤ 100 }
    ensures begun { IfOk result (λ b. (p : Pending) → IsTrue S.tells → how_seen how.entry ≡ by_halt_load → MayOpen (view_of S.Site log) begins point p
        → BegunAt p (view_of S.Site b.log)) }
    ensures keeps { IfOk result (λ b. (p : Pending) → IsTrue S.tells → how_seen how.entry ≡ by_halt_load → MayOpen (view_of S.Site log) begins point p
        → BegunFrom p (view_of S.Site log) (view_of S.Site b.log)) }
    ensures sealed { IfOk result (λ b. IsTrue S.tells → LogStarts (view_of S.Site log)
        → SealsBehind (view_of S.Site log) (view_of S.Site b.log) (if begins then begin_restore point (how_seen how.entry) ∷ [] else [])) }
    ensures stays { IfOk result (λ b. begins ≡ false → b.log ≡ log) }
    ensures starts { IfOk result (λ b. IsTrue S.tells → LogStarts (view_of S.Site log) → EndsSealed (view_of S.Site b.log)) }
    ensures grown { IfOk result (λ b. IsTrue S.tells → LogStarts (view_of S.Site log) → LogGrows 1 (view_of S.Site log) (view_of S.Site b.log)) }
    ensures grown_then { IfErr result (λ e. IsTrue S.tells → LogStarts (view_of S.Site log) → LogGrows 1 (view_of S.Site log) (view_of S.Site e.1)) }
    ensures moments { IfOk result (λ b. (p : Pending) → IsTrue S.tells → how_seen how.entry ≡ by_halt_load → MayOpen (view_of S.Site log) begins point p
        → LeavesEach (view_of S.Site log) (view_of S.Site b.log)) }
    ensures stopped { IfErr result (λ e. (p : Pending) → IsTrue S.tells → how_seen how.entry ≡ by_halt_load → MayOpen (view_of S.Site log) begins point p
        → LeavesEach (view_of S.Site log) (view_of S.Site e.1)) }
    ensures begins_any { IfOk result (λ b. (right : Stored) → IsTrue S.tells → begins ≡ true → let a = view_of S.Site log in BeginsAny a right point (how_seen how.entry)
        → AnyBegunAt a (view_of S.Site b.log) right point (how_seen how.entry)) }
    ensures leaves { IfOk result (λ b. (right : Stored) → IsTrue S.tells → begins ≡ true → let a = view_of S.Site log in BeginsAny a right point (how_seen how.entry)
        → AnyLeaves a right point (view_of S.Site b.log)) }
    ensures leaves_then { IfErr result (λ e. (right : Stored) → IsTrue S.tells → let a = view_of S.Site log in BeginsAny a right point (how_seen how.entry)
        → AnyLeaves a right point (view_of S.Site e.1)) }
    ensures dumps { IfOk result (λ b. IsTrue S.tells → SameDumps (S.files log.site) (S.files b.log.site)) }
    ensures above { IfOk result (λ b. IsTrue S.tells → (f : ℕ) → 20000 < f → S.files b.log.site f ≡ S.files log.site f) }
    ensures silent { IfOk result (λ b. IsTrue S.tells → LogStarts (view_of S.Site log) → StaysSilent S.Site log.site b.log.site) }
    ensures silent_then { IfErr result (λ e. IsTrue S.tells → LogStarts (view_of S.Site log) → StaysSilent S.Site log.site e.1.site) }
    ensures same { IfOk result (λ b. S.same_site log.site b.log.site) }
    ensures same_then { IfErr result (λ e. S.same_site log.site e.1.site) }
    ensures said { IfOk result (λ b. S.said b.log.site ≡ S.said log.site) }
    ensures said_then { IfErr result (λ e. S.said e.1.site ≡ S.said log.site) }
    ensures clean { IfOk result (λ b. S.disk_faults b.log.site ≡ S.disk_faults log.site) }
    ensures only { IfErr result (λ e. (e.0 ≡ AudFault.Disk) ⊎ (e.0 ≡ AudFault.Full log.end.limit)) }
    ensures begins { IfErr result (λ e. begins ≡ true) }
    ensures past { IfErr result (λ e. e.0 ≡ AudFault.Full log.end.limit → is_past log.end (length (spelling (begin_restore point (how_seen how.entry)))) true ≡ true) }
    ensures full { IfErr result (λ e. e.0 ≡ AudFault.Full log.end.limit → (e.1.end.used ≡ 0) × (10000 + log.end.limit < e.1.end.file)) }
    ensures ends { IfErr result (λ e. e.0 ≡ AudFault.Full log.end.limit → IsTrue S.tells → LogStarts (view_of S.Site log) → Ends (view_of S.Site e.1)) }
    ensures part { IfErr result (λ e. IsTrue S.tells → LogStarts (view_of S.Site log) → SealsPart (view_of S.Site log) (view_of S.Site e.1) (begin_restore point (how_seen how.entry) ∷ [])) }
    ensures disk { IfErr result (λ e. CountedAt (e.0 ≡ AudFault.Disk) (S.disk_faults log.site) (S.disk_faults e.1.site)) }
    ensures say_faults { IfOk result (λ b. S.say_faults b.log.site ≡ S.say_faults log.site) }
    ensures say_faults_then { IfErr result (λ e. S.say_faults e.1.site ≡ S.say_faults log.site) }
    ensures kind { IfOk result (λ b. IsSameTrail log b.log) }
    ensures kind_then { IfErr result (λ e. IsSameTrail log e.1) }
{
    if begins {
        log.begin(point, how)
    } else {
        Ok(Begun { log })
    }
}
