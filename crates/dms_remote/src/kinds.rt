//! What the entries of a block are.

ghost use Rattle.std.specs.Prelude.{◌≡◌};
ghost use Rattle.dms_history.specs.Entries.{is_begin};
ghost use Rattle.dms_audrec.specs.Seen.{entry_seen};
ghost use Rattle.dms_audfile.specs.AuditTrail.{entry_from};
ghost use Rattle.dms_follow.specs.Following.{is_control_entry};
ghost use Rattle.dms_remote.specs.Kinds.{is_first, is_of, any_of};

use dms_audfile::{EntryPlace, entry_in};
use dms_audrec::Entry;

/// What a block has that decides what is done before it is sealed.
#[derive(Clone, Copy)]
pub struct Kinds {
    /// A Control.
    pub control: bool,
    /// A Control of point 0.
    pub first: bool,
    /// A Begin.
    pub begin: bool,
}

/// What one entry is.
fn kinds_of(entry: &Entry<'_>) -> Kinds
    ensures control { result.control ≡ is_control_entry (entry_seen entry.now) }
    ensures first { result.first ≡ is_first (entry_seen entry.now) }
    ensures begin { result.begin ≡ is_begin (entry_seen entry.now) }
{
    let (control, first, begin) = match entry {
        Entry::Schema(_, _, _) => (false, false, false),
        Entry::Image(_, _, None, _) => (false, false, false),
        Entry::Image(_, _, Some(_), _) => (false, false, false),
        Entry::Range(_, _, _, _) => (false, false, false),
        Entry::Quiet(_) => (false, false, false),
        Entry::Control(point, _, _) => (true, *point == 0, false),
        Entry::Begin(_, _) => (false, false, true),
    };
    Kinds {
        control,
        first,
        begin,
    }
}

/// What the entry is that begins at a place of a block.
fn kinds_at(block: &[u8], place: &EntryPlace) -> Kinds
    ensures control { result.control ≡ is_of is_control_entry (entry_from place.now.offset block.now) }
    ensures first { result.first ≡ is_of is_first (entry_from place.now.offset block.now) }
    ensures begin { result.begin ≡ is_of is_begin (entry_from place.now.offset block.now) }
{
    match entry_in(block, place.offset) {
        None => Kinds {
            control: false,
            first: false,
            begin: false,
        },
        Some(entry) => kinds_of(&entry),
    }
}

/// What the entries of a block are that begin at these places.
pub fn kinds_in(block: &[u8], places: &[EntryPlace]) -> Kinds
    ensures control { result.control ≡ any_of is_control_entry block.now places.now }
    ensures first { result.first ≡ any_of is_first block.now places.now }
    ensures begin { result.begin ≡ any_of is_begin block.now places.now }
{
    let mut control = false;
    let mut first = false;
    let mut begin = false;
    for place in places {
        let kinds = kinds_at(block, place);
        control = control || kinds.control;
        first = first || kinds.first;
        begin = begin || kinds.begin;
    }
    Kinds {
        control,
        first,
        begin,
    }
}
