ghost use Rattle.std.specs.Prelude.{◌≡◌, ◌≤◌, IfOk, length, slice_get};
ghost use Rattle.dms_chain.specs.Leads.{at_is, lead};
ghost use Rattle.dms_chain.specs.Lists.{is_under};
ghost use Rattle.dms_chain.specs.ListBlocks.{is_rising};
ghost use Rattle.std.specs.Ordering.{is_lt};
ghost use Rattle.dms_chain.specs.Lists.{bytes_cmp};

use dms_base::{Bytes, Memory};
use std::alloc::Global;
use std::cmp::Ordering;

/// Whether an entry is less than these bytes.
fn is_under(bytes: &[u8], entry: &Bytes) -> bool
    ensures { result ≡ is_under bytes.now entry.now }
{
    matches!(bytes.cmp(entry.as_slice()), Ordering::Greater)
}

/// Whether an entry is less than another one.
fn is_before(entry: &Bytes, other: &Bytes) -> bool
    ensures { result ≡ is_lt (bytes_cmp entry.now other.now) }
{
    matches!(entry.as_slice().cmp(other.as_slice()), Ordering::Less)
}

/// How many entries from the front are less than these bytes.
pub fn lead(entries: &[Bytes], bytes: &[u8]) -> usize
    ensures lead { result ≡ lead bytes.now entries.now }
    ensures most { result ≤ length entries.now }
{
    for (i, entry) in entries.iter().enumerate() {
        if !is_under(bytes, entry) {
            return i;
        }
    }
    entries.len()
}

/// Whether the entry at a place is these bytes.
pub fn stands_at(entries: &[Bytes], place: usize, bytes: &[u8]) -> bool
    ensures { result ≡ at_is bytes.now (slice_get entries.now place) }
{
    match entries.get(place) {
        Some(entry) => matches!(bytes.cmp(entry.as_slice()), Ordering::Equal),
        None => false,
    }
}

/// Whether each entry is less than the next one.
pub fn is_rising(entries: &[Bytes]) -> bool
    ensures { result ≡ is_rising entries.now }
{
    let mut rest = entries;
    while let [entry, others @ ..] = rest {
        if let [next, ..] = others {
            if !is_before(entry, next) {
                return false;
            }
        }
        rest = others;
    }
    true
}

/// A copy of the entry at a place.
pub fn entry_at(entries: &[Bytes], alloc: Global, place: usize) -> Result<Option<Bytes>, Memory>
    ensures { IfOk result (λ o. o ≡ slice_get entries.now place) }
{
    match entries.get(place) {
        Some(entry) => Ok(Some(entry.copy(alloc)?)),
        None => Ok(None),
    }
}
