//! Images among the entries that wait to be sealed.

ghost use Rattle.std.specs.Prelude.{◌≡◌, ◌*◌, ◌≤◌, ◌++◌, ◌||◌, false, length};
ghost use Rattle.dms_history.specs.Lists.{has};
ghost use Rattle.dms_history.specs.Ranges.{is_image};
ghost use Rattle.dms_history.specs.EntryEvents.{events_in};
ghost use Rattle.dms_audrec.specs.Seen.{entry_seen};
ghost use Rattle.dms_audfile.specs.Blocks.{block_entries, entries_from};
ghost use Rattle.dms_audfile.specs.Ends.{full_blocks, unsealed_bytes};
ghost use Rattle.dms_audfile.specs.Gates.{blocks_from};
ghost use Rattle.dms_audfile.specs.HeldImages.{names_image, holds_on};
ghost use Rattle.dms_audfile.specs.TrailEntries.{entries_in, entries_of};
ghost use Rattle.dms_audfile.specs.Unsealed.{block_with};

use crate::AuditEnd;
use crate::blocks::{stands_there, used_in};
use crate::header::all_zero;
use dms_audrec::{Entry, decode};

/// Whether this is an Image of that block.
fn is_image_of(entry: &Entry<'_>, file: u32, block: u32) -> bool
    ensures { result ≡ names_image file block (entry_seen entry.now) }
{
    match entry {
        Entry::Image(of, number, None, _) => *of == file && *number == block,
        Entry::Image(of, number, Some(_), _) => *of == file && *number == block,
        _ => false,
    }
}

/// Whether one was found, or this is an Image of that block.
fn found_with(found: bool, entry: &Entry<'_>, file: u32, block: u32) -> bool
    ensures { result ≡ (found || names_image file block (entry_seen entry.now)) }
{
    found || is_image_of(entry, file, block)
}

/// Whether an Image of that block is among a block's used bytes; false where they aren't whole entries.
fn holds_in(bytes: &[u8], file: u32, block: u32) -> bool
    requires { length bytes.now ≤ 4094 }
    ensures { result ≡ holds_on file block false (entries_from (length bytes.now) 2 bytes.now) }
{
    let mut rest = bytes;
    let mut at: u32 = 2;
    let mut found = false;
    for _entry in 0..bytes.len() {
        if rest.is_empty() {
            return found;
        }
        let (entry, n) = match decode(rest) {
            Some(read) => read,
            None => return false,
        };
        let (_bytes, after) = rest.split_at(n);
        if !stands_there(&entry, at, after) {
            return false;
        }
        found = found_with(found, &entry, file, block);
        at += n as u32;
        rest = after;
    }
    if !rest.is_empty() {
        return false;
    }
    found
}

/// Whether an Image of that block is among the entries of a whole block; false where that isn't in the grammar.
fn block_holds(whole: &[u8], file: u32, block: u32) -> bool
    requires { length whole.now ≡ 4096 }
    ensures { result ≡ holds_on file block false (block_entries whole.now) }
{
    let used = usize::from(used_in(whole));
    if used > 4094 {
        return false;
    }
    let (head, rest) = whole.split_at(2 + used);
    if !all_zero(rest) {
        return false;
    }
    let (_used, bytes) = head.split_at(2);
    holds_in(bytes, file, block)
}

/// Whether an Image of that block is among the entries of so many whole blocks.
fn group_holds(group: &[u8], full: u32, file: u32, block: u32) -> bool
    requires { 4096 * full ≤ length group.now }
    ensures { result ≡ has (names_image file block) (entries_in (blocks_from full 0 group.now)) }
{
    for i in 0..full {
        let from = 4096 * i as usize;
        if block_holds(&group[from..from + 4096], file, block) {
            return true;
        }
    }
    false
}

impl AuditEnd {
    /// Whether an Image of that block is among the entries that wait.
    pub fn holds_image(&self, file: u32, block: u32) -> bool
        ensures { result ≡ has (is_image file block) (events_in (entries_in (full_blocks self.now) ++ entries_of (block_entries (block_with (unsealed_bytes self.now))))) }
    {
        if group_holds(&self.group, self.full, file, block) {
            return true;
        }
        let end = 2 + usize::from(self.used);
        holds_in(&self.block[2..end], file, block)
    }
}
