//! Why a point can't be had.

ghost use Rattle.std.specs.Prelude.{◌≡◌};
ghost use Rattle.dms_site.specs.Files.{Files};
ghost use Rattle.dms_history.specs.Lists.{has};
ghost use Rattle.dms_history.specs.Judge.{judge_point};
ghost use Rattle.dms_restore.specs.LiveEntries.{logged_at, logged_live, changes_at};
ghost use Rattle.dms_opening.specs.Judged.{refusal_seen, is_described_logged, is_live_logged, is_low_logged};

use dms_restore::{LiveEntry, place};

/// Why a point can't be had.
#[derive(Clone, Copy, Debug, PartialEq, Eq)]
pub enum PointFault {
    /// Its number isn't below the next one.
    NoSuchPoint,
    /// It is below each live point.
    AuditMissing,
    /// It isn't live, and a live point is below it.
    Voided,
}

/// Whether an entry is a Control directly after a whole Schema.
fn is_described(entry: &LiveEntry) -> bool
    ensures { (files : Files) → result ≡ is_described_logged (logged_at files entry.now) }
{
    match entry {
        LiveEntry::Changed(_) => false,
        LiveEntry::Ranged(_) => false,
        LiveEntry::Quiet(_) => false,
        LiveEntry::Controlled(control) => control.described,
    }
}

/// Whether one of the entries is a Control directly after a whole Schema.
fn has_described(live: &[LiveEntry]) -> bool
    ensures { (files : Files) → result ≡ has is_described_logged (logged_live files live.now) }
{
    for entry in live {
        if is_described(entry) {
            return true;
        }
    }
    false
}

/// Whether a point is live: it has a place, and a Control directly after a whole Schema stands at or before that place.
fn is_live(live: &[LiveEntry], point: u64) -> bool
    ensures { (files : Files) → result ≡ is_live_logged (logged_live files live.now) point }
{
    match place(live, point) {
        Some(end) => has_described(&live[..end]),
        None => false,
    }
}

/// Whether an entry is a Quiet or a Control of a live point that isn't above this one.
fn is_low(live: &[LiveEntry], point: u64, entry: &LiveEntry) -> bool
    ensures { (files : Files) → result ≡ is_low_logged (logged_live files live.now) point (logged_at files entry.now) }
{
    match entry {
        LiveEntry::Changed(_) => false,
        LiveEntry::Ranged(_) => false,
        LiveEntry::Quiet(number) => *number <= point && is_live(live, *number),
        LiveEntry::Controlled(control) => control.point <= point && is_live(live, control.point),
    }
}

/// Whether a live point isn't above this one.
fn has_low(live: &[LiveEntry], point: u64) -> bool
    ensures { (files : Files) → result ≡ has (is_low_logged (logged_live files live.now) point) (logged_live files live.now) }
{
    for entry in live {
        if is_low(live, point, entry) {
            return true;
        }
    }
    false
}

/// The refusal of a point over live entries and the next number, or none: it isn't below that number; it is below each live point; it is
/// otherwise not live. Each answer comes exactly where `dms_history` says it.
pub(crate) fn judge_point(live: &[LiveEntry], next: u64, point: u64) -> Option<PointFault>
    ensures { (files : Files) → refusal_seen result ≡ judge_point (changes_at files live.now) next point }
{
    if next <= point {
        return Some(PointFault::NoSuchPoint);
    }
    if is_live(live, point) {
        return None;
    }
    if has_low(live, point) {
        Some(PointFault::Voided)
    } else {
        Some(PointFault::AuditMissing)
    }
}
