//! What a statement wants, as it is asked of a database.

ghost use Rattle.std.specs.Prelude.{◌≡◌, List};
ghost use Rattle.dms_site.specs.Files.{Files};
ghost use Rattle.dms_history.specs.Entries as meaning;
ghost use Rattle.dms_history.specs.EntryEvents.{history_of};
ghost use Rattle.dms_history.specs.History.{last_point};
ghost use Rattle.dms_restore.specs.Tracing.{IsTraced};
ghost use Rattle.dms_recovery.specs.Wanting.{asked_with, chosen};

use dms_opening::{Asked, last_point};
use dms_restore::TrailHistory;

/// What a statement wants of a database.
#[derive(Clone, Copy)]
pub enum Wanted {
    Rollback(u64),
    /// From this dump, to this point, or to the last one.
    Rebuild(u16, Option<u64>),
    Reconstruct(u16),
}

/// The point that is named, else the last one; 0 where there is none.
fn chosen(point: Option<u64>, last: Option<u64>) -> u64
    ensures { result ≡ chosen point last }
{
    match point {
        Some(number) => number,
        None => match last {
            Some(number) => number,
            None => 0,
        },
    }
}

/// What is asked of a trail that was scanned.
pub(crate) fn asked_of(history: &TrailHistory, wanted: Wanted) -> Asked
    ensures { (files : Files) (entries : List meaning.Entry) → IsTraced files entries history.now → result ≡ asked_with (last_point (history_of entries)) wanted }
{
    match wanted {
        Wanted::Rollback(point) => Asked::Rollback(point),
        Wanted::Rebuild(dump, point) => Asked::Rebuild(dump, chosen(point, last_point(history))),
        Wanted::Reconstruct(dump) => Asked::Reconstruct(dump),
    }
}
