ghost use Rattle.std.specs.Prelude.{◌≡◌, ◌+◌, IfOk, Some, length};
ghost use Rattle.dms_block.specs.Held.{HasCausesOr};
ghost use Rattle.dms_block.specs.View.{ReadsOverlay, seen_counts, under};
ghost use Rattle.dms_chain.specs.Leads.{last_of};
ghost use Rattle.dms_chain.specs.Lists.{first_from, last_to};
ghost use Rattle.dms_ordlist.specs.Looks.{place_first, place_last};
ghost use Rattle.dms_chain.specs.Seen.{IfList, IsListWidth, NoList};
ghost use Rattle.std.specs.Prelude.{◌≤◌, take};

use crate::looking::look;
use crate::place::ListPlace;
use dms_base::{Bytes, Memory};
use dms_block::{BlockFault, Blocks, Overlay};
use dms_chain::{entry_at, lead};
use std::alloc::Global;

/// A copy of the last one of the first so many entries.
fn last_of(entries: &[Bytes], alloc: Global, count: usize) -> Result<Option<Bytes>, Memory>
    requires { count ≤ length entries.now }
    ensures { IfOk result (λ o. o ≡ last_of (take count entries.now)) }
{
    if count == 0 {
        return Ok(None);
    }
    entry_at(entries, alloc, count - 1)
}

/// The first entry from a place on that isn't below these bytes.
fn first_in(place: &ListPlace, alloc: Global, from: &[u8]) -> Result<Option<Bytes>, Memory>
    ensures { IfOk result (λ o. o ≡ place_first from.now place.now) }
{
    let entries = place.here.leaf.entries.as_slice();
    entry_at(entries, alloc, lead(entries, from))
}

/// The last entry before a place, or in it, that is below these bytes.
fn last_in(place: &ListPlace, alloc: Global, upto: &[u8]) -> Result<Option<Bytes>, Memory>
    ensures { IfOk result (λ o. o ≡ place_last upto.now place.now) }
{
    let entries = place.here.leaf.entries.as_slice();
    if let Some(found) = last_of(entries, alloc, lead(entries, upto))? {
        return Ok(Some(found));
    }
    match &place.before {
        Some(before) => {
            let entries = before.leaf.entries.as_slice();
            last_of(entries, alloc, entries.len())
        }
        None => Ok(None),
    }
}

/// The first entry of a file's list that isn't below these bytes, which have the width of its entries.
pub fn first_from<B: Blocks>(
    over: &mut Overlay<B>,
    alloc: Global,
    file: u32,
    from: &[u8],
) -> Result<Option<Bytes>, BlockFault>
    requires sound { (under over.old).sound }
    requires width { IsListWidth (length from.now) }
    ensures first { IfOk result (λ o. IfList over.old file (length from.now) (λ xs. o ≡ first_from (Some from.now) xs)) }
    ensures reads { ReadsOverlay (1 + seen_counts over.old file) result over.old over.new }
    ensures causes { HasCausesOr (NoList over.old file (length from.now)) result (under over.old) (under over.new) }
{
    let found = look(over, alloc, file, from)?;
    match &found.place {
        Some(place) => Ok(first_in(place, alloc, from)?),
        None => Ok(None),
    }
}

/// The last entry of a file's list that is below these bytes, which have the width of its entries.
pub fn last_to<B: Blocks>(
    over: &mut Overlay<B>,
    alloc: Global,
    file: u32,
    upto: &[u8],
) -> Result<Option<Bytes>, BlockFault>
    requires sound { (under over.old).sound }
    requires width { IsListWidth (length upto.now) }
    ensures last { IfOk result (λ o. IfList over.old file (length upto.now) (λ xs. o ≡ last_to (Some upto.now) xs)) }
    ensures reads { ReadsOverlay (1 + seen_counts over.old file) result over.old over.new }
    ensures causes { HasCausesOr (NoList over.old file (length upto.now)) result (under over.old) (under over.new) }
{
    let found = look(over, alloc, file, upto)?;
    match &found.place {
        Some(place) => Ok(last_in(place, alloc, upto)?),
        None => Ok(None),
    }
}
