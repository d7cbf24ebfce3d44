//! What of a block of the stream is kept.

ghost use Rattle.std.specs.Prelude.{◌≡◌, ◌≤◌, length};
ghost use Rattle.dms_history.specs.Entries.{begin_restore, by_roll_back};
ghost use Rattle.dms_audrec.specs.Seen.{entry_seen, how_seen};
ghost use Rattle.dms_audrec.specs.Spelling.{spelling};
ghost use Rattle.dms_audfile.specs.AuditTrail.{entry_from};
ghost use Rattle.dms_audfile.specs.Unsealed.{clear_from, block_with};
ghost use Rattle.dms_fields.specs.Fields.{lay_bytes};
ghost use Rattle.dms_remote.specs.Keeping.{point_by, dump_point, point_of, kept_block};

use dms_audfile::entry_in;
use dms_audrec::{BeginHow, Entry, encode};
use dms_fields::put_u16;

/// The point of a restore by a dump.
fn point_by(point: u64, how: &BeginHow<'_>) -> Option<u64>
    ensures { result ≡ point_by point (how_seen how.now) }
{
    match how {
        BeginHow::HaltLoad => None,
        BeginHow::BackOut => None,
        BeginHow::Rollback => None,
        BeginHow::Rebuild(_) => Some(point),
        BeginHow::Reconstruct(_, _) => Some(point),
    }
}

/// The point of the restore by a dump that an entry begins.
fn dump_point(entry: &Entry<'_>) -> Option<u64>
    ensures { result ≡ dump_point (entry_seen entry.now) }
{
    match entry {
        Entry::Begin(point, how) => point_by(*point, how),
        Entry::Schema(_, _, _) => None,
        Entry::Image(_, _, None, _) => None,
        Entry::Image(_, _, Some(_), _) => None,
        Entry::Range(_, _, _, _) => None,
        Entry::Quiet(_) => None,
        Entry::Control(_, _, _) => None,
    }
}

/// The point of the restore by a dump that a block begins.
fn point_of(block: &[u8]) -> Option<u64>
    ensures { result ≡ point_of (entry_from 2 block.now) }
{
    match entry_in(block, 2) {
        None => None,
        Some(entry) => dump_point(&entry),
    }
}

/// Lays the entry of a rollback behind the first two bytes of a block, and answers how many bytes it has.
fn lay_rollback(block: &mut [u8], point: u64) -> usize
    requires { length block.old ≡ 4096 }
    ensures laid { block.new ≡ lay_bytes 2 (spelling (begin_restore point by_roll_back)) block.old }
    ensures size { result ≡ 14 }
{
    let (_front, rest) = block.split_at_mut(2);
    encode(&Entry::Begin(point, BeginHow::Rollback), rest)
}

/// Zeros from a place on.
#[tactic(auto, using(std::proofs::lemmas::List::places), unfolding(dms_audfile::specs::Unsealed::clear_from))]
fn clear(to: &mut [u8], at: usize)
    requires { at ≤ length to.old }
    ensures { to.new ≡ clear_from at to.old }
{
    to[at..].fill(0);
}

/// Makes a block of one entry, which begins a rollback.
fn write_rollback(block: &mut [u8], point: u64)
    requires { length block.old ≡ 4096 }
    ensures { block.new ≡ block_with (spelling (begin_restore point by_roll_back)) }
{
    let size = lay_rollback(block, point);
    clear(block, 2 + size);
    put_u16(block, 0, size as u16);
}

/// Keeps a block of the stream: one that begins a restore by a dump becomes one that begins a rollback to the same point.
pub(crate) fn keep(block: &mut [u8])
    requires { length block.old ≡ 4096 }
    ensures kept { block.new ≡ kept_block block.old }
{
    if let Some(point) = point_of(block) {
        write_rollback(block, point);
    }
}
