//! The first refusal of what is asked of a database, before anything is written.

ghost use Rattle.std.specs.Prelude.{◌≡◌, ◌≤◌, ◌++◌, ℕ, List, Option, Some, length, take, IfOk};
ghost use Rattle.dms_site.specs.Files.{Files};
ghost use Rattle.dms_history.specs.Entries as meaning;
ghost use Rattle.dms_history.specs.Events.{How};
ghost use Rattle.dms_history.specs.declared.event.Row as row;
ghost use Rattle.dms_history.specs.Judge.{judge_point};
ghost use Rattle.dms_history.specs.History.{Pending, last_point};
ghost use Rattle.dms_history.specs.EntryEvents.{history_of, live_of, next_of};
ghost use Rattle.dms_restore.specs.LiveEntries.{changes_at};
ghost use Rattle.dms_restore.specs.Tracing.{MatchesHow, IsTraced};
ghost use Rattle.dms_opening.specs.Asked.{judge_file, judge_dump_point, judge_dump, judge_last_point, judge_own, judge_by_dump, judge_restore, judge_begun, judge, is_later, number_or, or_next, refused_at, refused_seen};

use crate::judging::{PointFault, judge_point};
use crate::numbers::last_point;
use dms_restore::{HowAt, LiveEntry, PendingAt, TrailHistory};
use std::alloc::{AllocError, Global};

/// What the file of a dump is found to be.
#[derive(Clone, Copy)]
pub enum DumpLook {
    Missing,
    Unsealed,
    Damaged,
    /// It has another tag than the trail.
    Foreign,
    /// The point of a dump, its end, and the number of its audit file.
    Sealed(u64, u64, u32),
}

/// What is asked of a database.
#[derive(Clone, Copy)]
pub enum Asked {
    HaltLoad,
    Rollback(u64),
    /// From this dump, to this point.
    Rebuild(u16, u64),
    Reconstruct(u16),
}

/// Why it can't be done.
#[derive(Clone, Copy)]
pub enum Refusal {
    Point(u64, PointFault),
    DumpMissing(u16),
    DumpUnsealed(u16),
    DumpDamaged(u16),
    /// The tag of this dump isn't the trail's.
    DumpForeign(u16),
    /// The audit file of the dump stands before the trail.
    AuditBefore,
    /// The end of this dump, or its point where that is above its end, is above the chosen one.
    DumpLater(u16, u64),
}

/// The first refusal, else the other.
fn or_next(first: Option<Refusal>, other: Option<Refusal>) -> Option<Refusal>
    ensures { refused_seen result ≡ or_next (refused_seen first) (refused_seen other) }
{
    match first {
        Some(refusal) => Some(refusal),
        None => other,
    }
}

/// The refusal of a point over live entries.
fn refuse_point(live: &[LiveEntry], next: u64, point: u64) -> Option<Refusal>
    ensures { (files : Files) → refused_seen result ≡ refused_at point (judge_point (changes_at files live.now) next point) }
{
    match judge_point(live, next, point) {
        None => None,
        Some(fault) => Some(Refusal::Point(point, fault)),
    }
}

/// The refusal of the file of a dump.
fn judge_file(first: u32, dump: u16, look: DumpLook) -> Option<Refusal>
    ensures { refused_seen result ≡ judge_file first dump look }
{
    match look {
        DumpLook::Missing => Some(Refusal::DumpMissing(dump)),
        DumpLook::Unsealed => Some(Refusal::DumpUnsealed(dump)),
        DumpLook::Damaged => Some(Refusal::DumpDamaged(dump)),
        DumpLook::Foreign => Some(Refusal::DumpForeign(dump)),
        DumpLook::Sealed(_, _, audit) => {
            if 10_000 + u64::from(audit) < u64::from(first) {
                Some(Refusal::AuditBefore)
            } else {
                None
            }
        }
    }
}

/// That of a dump whose end is above the chosen point.
fn refuse_later(dump: u16, point: u64, chosen: u64) -> Option<Refusal>
    ensures { refused_seen result ≡ is_later dump point chosen }
{
    if chosen < point {
        Some(Refusal::DumpLater(dump, point))
    } else {
        None
    }
}

/// The refusal of the point and of the end of a dump.
fn judge_dump_point(
    live: &[LiveEntry],
    next: u64,
    dump: u16,
    look: DumpLook,
    chosen: u64,
) -> Option<Refusal>
    ensures { (files : Files) → refused_seen result ≡ judge_dump_point (changes_at files live.now) next dump look chosen }
{
    match look {
        DumpLook::Missing => None,
        DumpLook::Unsealed => None,
        DumpLook::Damaged => None,
        DumpLook::Foreign => None,
        DumpLook::Sealed(point, end, _) => or_next(
            refuse_point(live, next, point),
            or_next(
                refuse_point(live, next, end),
                refuse_later(dump, point.max(end), chosen),
            ),
        ),
    }
}

/// The refusal of a dump.
fn judge_dump(
    first: u32,
    live: &[LiveEntry],
    next: u64,
    dump: u16,
    look: DumpLook,
    chosen: u64,
) -> Option<Refusal>
    ensures { (files : Files) → refused_seen result ≡ judge_dump first (changes_at files live.now) next dump look chosen }
{
    or_next(
        judge_file(first, dump, look),
        judge_dump_point(live, next, dump, look, chosen),
    )
}

/// The refusal of the last point.
fn judge_last_point(live: &[LiveEntry], next: u64, last: Option<u64>) -> Option<Refusal>
    ensures { (files : Files) → refused_seen result ≡ judge_last_point next (changes_at files live.now) last }
{
    match last {
        None => Some(Refusal::Point(0, PointFault::AuditMissing)),
        Some(point) => refuse_point(live, next, point),
    }
}

fn number_or(last: Option<u64>) -> u64
    ensures { result ≡ number_or last }
{
    match last {
        None => 0,
        Some(number) => number,
    }
}

/// The refusal of what is asked, where no restore is pending or the one that is was ended.
fn judge_own(
    first: u32,
    live: &[LiveEntry],
    next: u64,
    last: Option<u64>,
    asked: Asked,
    look: DumpLook,
) -> Option<Refusal>
    ensures { (files : Files) → refused_seen result ≡ judge_own first (changes_at files live.now) next last asked look }
{
    match asked {
        Asked::HaltLoad => judge_last_point(live, next, last),
        Asked::Rollback(point) => refuse_point(live, next, point),
        Asked::Rebuild(dump, point) => or_next(
            refuse_point(live, next, point),
            judge_dump(first, live, next, dump, look, point),
        ),
        Asked::Reconstruct(dump) => or_next(
            judge_last_point(live, next, last),
            judge_dump(first, live, next, dump, look, number_or(last)),
        ),
    }
}

/// The refusal of a restore by a dump that is pending, over the live entries before its Begin.
fn judge_by_dump(
    first: u32,
    next: u64,
    dump: u16,
    look: DumpLook,
    before: &[LiveEntry],
    point: u64,
) -> Option<Refusal>
    ensures { (files : Files) → refused_seen result ≡ judge_by_dump first next dump look (changes_at files before.now) point }
{
    or_next(
        judge_file(first, dump, look),
        or_next(
            refuse_point(before, next, point),
            judge_dump_point(before, next, dump, look, point),
        ),
    )
}

/// The refusal of a restore that is pending, over the live entries before its Begin.
fn judge_restore(
    first: u32,
    next: u64,
    how: HowAt,
    look: DumpLook,
    before: &[LiveEntry],
    point: u64,
) -> Option<Refusal>
    ensures { (files : Files) (rows : List row.Row) (h : How) → MatchesHow how rows h
        → refused_seen result ≡ judge_restore first next h look (changes_at files before.now) point }
{
    match how {
        HowAt::HaltLoad => refuse_point(before, next, point),
        HowAt::BackOut => refuse_point(before, next, point),
        HowAt::Rollback => refuse_point(before, next, point),
        HowAt::Rebuild(dump) => judge_by_dump(first, next, dump, look, before, point),
        HowAt::Reconstruct(dump) => judge_by_dump(first, next, dump, look, before, point),
    }
}

/// The live entries before the Begin of a restore: those that it kept, and those that it removed.
fn entries_before(
    alloc: Global,
    live: &[LiveEntry],
    removed: &[LiveEntry],
    kept: usize,
) -> Result<Vec<LiveEntry>, AllocError>
    requires { kept ≤ length live.now }
    ensures { IfOk result (λ v. v.items ≡ take kept live.now ++ removed.now) }
{
    let mut before = live[..kept].to_vec(alloc)?;
    before.extend_from_slice(removed)?;
    Ok(before)
}

/// The refusal of the restore that is pending, of which this is what its dump is found to be.
fn judge_begun(
    history: &TrailHistory,
    alloc: Global,
    first: u32,
    look: DumpLook,
) -> Result<Option<Refusal>, AllocError>
    ensures { IfOk result (λ r. (files : Files) (entries : List meaning.Entry) → IsTraced files entries history.now
        → refused_seen r ≡ judge_begun first (next_of entries) (history_of entries).pending look) }
{
    let at = match history.pending {
        None => return Ok(None),
        Some(at) => at,
    };
    let kept = at.kept.min(history.live.len());
    let before = entries_before(alloc, &history.live, &history.removed, kept)?;
    Ok(judge_restore(first, history.next, at.how, look, &before, at.point))
}

/// The refusal of what is asked, of a trail that was scanned.
fn judge_asked(history: &TrailHistory, first: u32, asked: Asked, look: DumpLook) -> Option<Refusal>
    ensures { (files : Files) (entries : List meaning.Entry) → IsTraced files entries history.now
        → refused_seen result ≡ judge_own first (live_of entries) (next_of entries) (last_point (history_of entries)) asked look }
{
    judge_own(
        first,
        &history.live,
        history.next,
        last_point(history),
        asked,
        look,
    )
}

/// The first refusal of what is asked of a database whose trail begins with file `first` and was scanned, or none. `begun` is what the dump of the restore
/// that is pending is found to be, `look` that of the dump that is asked for. Answers Memory alone else.
pub fn judge(
    history: &TrailHistory,
    alloc: Global,
    first: u32,
    asked: Asked,
    begun: DumpLook,
    look: DumpLook,
) -> Result<Option<Refusal>, AllocError>
    ensures { IfOk result (λ r. (files : Files) (entries : List meaning.Entry) → IsTraced files entries history.now
        → refused_seen r ≡ judge first (history_of entries) (next_of entries) asked begun look) }
{
    let own = judge_asked(history, first, asked, look);
    match asked {
        Asked::Rebuild(_, _) => return Ok(own),
        Asked::HaltLoad => {}
        Asked::Rollback(_) => {}
        Asked::Reconstruct(_) => {}
    }
    let pending = judge_begun(history, alloc, first, begun)?;
    Ok(or_next(pending, own))
}
