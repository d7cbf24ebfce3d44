//! The last point of a trail.

ghost use Rattle.std.specs.Prelude.{◌≡◌, [], ◌∷◌, List, Option};
ghost use Rattle.dms_site.specs.Files.{Files};
ghost use Rattle.dms_history.specs.History.{Pending, last_number, last_point, pending_point};
ghost use Rattle.dms_history.specs.Entries as meaning;
ghost use Rattle.dms_history.specs.EntryEvents.{history_of};
ghost use Rattle.dms_restore.specs.declared.live.LiveEntry as entry;
ghost use Rattle.dms_restore.specs.LiveEntries.{events_at};
ghost use Rattle.dms_restore.specs.Tracing.{MatchesPending, IsTraced};

use dms_restore::{LiveEntry, PendingAt, TrailHistory};

/// The point of a restore that is pending.
fn pending_number(pending: Option<PendingAt>) -> Option<u64>
    ensures { (files : Files) (live removed : List entry.LiveEntry) (p : Option Pending) → MatchesPending files live removed pending p → result ≡ pending_point p }
{
    match pending {
        None => None,
        Some(at) => Some(at.point),
    }
}

/// The last number after one more entry.
fn number_after(last: Option<u64>, entry: &LiveEntry) -> Option<u64>
    ensures { (files : Files) → result ≡ last_number last (events_at files (entry.now ∷ [])) }
{
    match entry {
        LiveEntry::Changed(_) => last,
        LiveEntry::Ranged(_) => last,
        LiveEntry::Quiet(number) => Some(*number),
        LiveEntry::Controlled(control) => Some(control.point),
    }
}

/// The number of the last Quiet or Control of some entries, and the first where there is none.
fn last_number(first: Option<u64>, live: &[LiveEntry]) -> Option<u64>
    ensures { (files : Files) → result ≡ last_number first (events_at files live.now) }
{
    let mut last = first;
    for entry in live {
        last = number_after(last, entry);
    }
    last
}

/// The last point: that of the last live Quiet or Control, or that of the pending restore where there is none.
pub fn last_point(history: &TrailHistory) -> Option<u64>
    ensures { (files : Files) (entries : List meaning.Entry) → IsTraced files entries history.now → result ≡ last_point (history_of entries) }
{
    last_number(pending_number(history.pending), &history.live)
}
