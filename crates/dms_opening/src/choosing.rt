//! What is done for what is asked of a database, and why it is refused.

ghost use Rattle.std.specs.Prelude.{◌≡◌, ◌≤◌, ℕ, List, None, Some, IfOk, IfErr};
ghost use Rattle.dms_site.specs.Files.{Files};
ghost use Rattle.dms_history.specs.Entries as meaning;
ghost use Rattle.dms_history.specs.EntryEvents.{history_of, next_of};
ghost use Rattle.dms_history.specs.declared.event.Row as row;
ghost use Rattle.dms_restore.specs.Tracing.{IsTraced};
ghost use Rattle.dms_opening.specs.Asked.{judge, refused_by};
ghost use Rattle.dms_opening.specs.declared.asked.DumpLook as seen;
ghost use Rattle.dms_opening.specs.Doing.{goes_first, point_asked};
ghost use Rattle.dms_opening.specs.Choices.{fault_of, RefusesAsked};
ghost use Rattle.dms_opening.specs.Claims.{ChoosesUnrefused, ChoosesFor};

use crate::asked::{Asked, DumpLook, Refusal, judge};
use crate::judging::PointFault;
use crate::numbers::last_point;
use dms_audfile::AudFault;
use dms_restore::{PendingAt, TrailHistory};
use std::alloc::Global;

/// Why what is asked of a database can't be done.
#[derive(Clone, Copy, Debug, PartialEq, Eq)]
pub enum OpenFault {
    /// The trail is refused or damaged, a call on the files failed, memory was refused, or the audit has no room. Where the point of a restore or
    /// of its dump is below each live one, or the audit file of its dump stands before the trail, the audit file before the trail's first is missing.
    Audit(AudFault),
    /// The point of a restore or of its dump isn't below the next number.
    NoSuchPoint(u64),
    /// The point of a restore or of its dump isn't live, and a live point is below it.
    Voided(u64),
    /// The file of that dump isn't present.
    DumpMissing(u16),
    /// The gate of that dump isn't open.
    DumpUnsealed(u16),
    /// What stands behind the gate of that dump isn't in its grammar.
    DumpDamaged(u16),
    /// That dump has another tag than the trail.
    DumpForeign(u16),
    /// That dump is at this point, which is above the point of the restore.
    DumpLater(u16, u64),
}

/// What is done.
#[derive(Clone, Copy)]
pub struct Choice {
    /// Whether the restore that is asked for begins; else the one that is pending goes on.
    pub begins: bool,
    /// The point of the restore.
    pub point: u64,
}

/// The fault of a refusal of a trail that begins with file `first`.
fn fault_of(first: u32, refusal: Refusal) -> OpenFault
    requires { 10001 ≤ first }
    ensures { result ≡ fault_of first (refused_by refusal) }
{
    match refusal {
        Refusal::Point(point, PointFault::NoSuchPoint) => OpenFault::NoSuchPoint(point),
        Refusal::Point(_, PointFault::AuditMissing) => {
            OpenFault::Audit(AudFault::Missing(first - 10_001))
        }
        Refusal::Point(point, PointFault::Voided) => OpenFault::Voided(point),
        Refusal::DumpMissing(dump) => OpenFault::DumpMissing(dump),
        Refusal::DumpUnsealed(dump) => OpenFault::DumpUnsealed(dump),
        Refusal::DumpDamaged(dump) => OpenFault::DumpDamaged(dump),
        Refusal::DumpForeign(dump) => OpenFault::DumpForeign(dump),
        Refusal::AuditBefore => OpenFault::Audit(AudFault::Missing(first - 10_001)),
        Refusal::DumpLater(dump, point) => OpenFault::DumpLater(dump, point),
    }
}

/// A number, 0 where there is none.
fn number_or_zero(number: Option<u64>) -> u64
    ensures { (n : ℕ) → number ≡ Some n → result ≡ n }
{
    match number {
        None => 0,
        Some(number) => number,
    }
}

/// The point that is asked for, by the last one; 0 where there is none.
pub(crate) fn point_of(asked: Asked, last: Option<u64>) -> u64
    ensures { (n : ℕ) → point_asked asked last ≡ Some n → result ≡ n }
{
    match asked {
        Asked::HaltLoad => number_or_zero(last),
        Asked::Rollback(point) => point,
        Asked::Rebuild(_, point) => point,
        Asked::Reconstruct(_) => number_or_zero(last),
    }
}

/// The restore that is pending, where it goes on first.
fn goes_first(asked: Asked, pending: Option<PendingAt>) -> Option<PendingAt>
    ensures { result ≡ goes_first asked pending }
{
    match asked {
        Asked::HaltLoad => pending,
        Asked::Rollback(_) => pending,
        Asked::Rebuild(_, _) => None,
        Asked::Reconstruct(_) => pending,
    }
}

/// What is done for what is asked, where nothing is refused.
fn choice_of(history: &TrailHistory, asked: Asked) -> Choice
    ensures { ChoosesUnrefused history.now asked result }
{
    match goes_first(asked, history.pending) {
        Some(at) => Choice {
            begins: false,
            point: at.point,
        },
        None => Choice {
            begins: true,
            point: point_of(asked, last_point(history)),
        },
    }
}

/// What is done for what is asked of a trail that begins with file `first`, or its first refusal. `begun` is what the dump of the restore that is
/// pending is found to be, `look` that of the dump that is asked for.
pub(crate) fn choose(
    history: &TrailHistory,
    alloc: Global,
    first: u32,
    asked: Asked,
    begun: DumpLook,
    look: DumpLook,
) -> Result<Choice, OpenFault>
    requires { 10001 ≤ first }
    ensures chosen { IfOk result (λ c. ChoosesFor history.now first asked begun look c) }
    ensures refused { IfErr result (λ e. (files : Files) (entries : List meaning.Entry) → IsTraced files entries history.now
        → RefusesAsked first (judge first (history_of entries) (next_of entries) asked begun look) e) }
    ensures no_call { IfErr result (λ e. e ≡ OpenFault.Audit AudFault.Disk → ⊥) }
{
    match judge(history, alloc, first, asked, begun, look) {
        Err(_) => Err(OpenFault::Audit(AudFault::Memory)),
        Ok(Some(refusal)) => Err(fault_of(first, refusal)),
        Ok(None) => Ok(choice_of(history, asked)),
    }
}
