ghost use Rattle.std.specs.Prelude.{◌≡◌, ◌≤◌, ◌<◌, ◌^◌, true, Some, IfOk, IfSome, length};
ghost use Rattle.dms_block.specs.Held.{HasCausesOr};
ghost use Rattle.dms_block.specs.View.{ReadsOverlay, under};
ghost use Rattle.dms_desc.specs.Lookups.{structure_of};
ghost use Rattle.dms_desc.specs.Shape.{as_described, shape_of};
ghost use Rattle.dms_model.specs.Fitting.{SpotFits};
ghost use Rattle.dms_model.specs.Members.{spot_of};
ghost use Rattle.dms_model.specs.Stores.{Tells};
ghost use Rattle.dms_sets.specs.Changes.{entry_in};
ghost use Rattle.dms_sets.specs.Finds.{spot_by};
ghost use Rattle.dms_sets.specs.Sets.{kinds_over, number_in};
ghost use Rattle.dms_store.specs.Lifted.{IsUsable, db_under};
ghost use Rattle.dms_store.specs.Listed.{BadEntry, is_entry};
ghost use Rattle.dms_desc.specs.Kinds.{is_set_or_automatic};

use crate::getting::get;
use dms_base::{Bytes, ItemKind, Memory};
use dms_block::{BlockFault, Blocks, Overlay};
use dms_desc::{Description, Record, Structure, file_of};
use dms_model::{Spot, key_of};
use dms_sets::record_entry;
use std::alloc::Global;

// The record's number in an entry, which are its last four bytes; 0 where it has fewer.
fn number_in(entry: &[u8]) -> u64
    ensures { 4 ≤ length entry.now → result ≡ number_in entry.now }
{
    let at = entry.len().saturating_sub(4);
    match &entry[at..] {
        [a, b, c, d] => u64::from(u32::from_be_bytes([*a, *b, *c, *d])),
        _ => 0,
    }
}

// Whether an entry of a set is that of this record.
fn is_entry(
    alloc: Global,
    s: &Structure,
    kinds: &[ItemKind],
    number: u64,
    rec: &Record,
    found: &[u8],
) -> Result<bool, Memory>
    ensures { IfOk result (λ b. b ≡ is_entry (entry_in kinds.now (shape_of s.now) number rec.now) found.now) }
{
    match record_entry(alloc, s, kinds, number, rec)? {
        None => Ok(false),
        Some(own) => Ok(own.as_slice() == found),
    }
}

// A record as a member of a set.
fn spot(alloc: Global, s: &Structure, number: u64, rec: Record) -> Result<Spot, Memory>
    ensures { IfOk result (λ x. x ≡ spot_of s.now.parts ((0, number), rec)) }
{
    let key = key_of(alloc, s.parts.as_slice(), rec.values.as_slice())?;
    Ok(Spot { number, key, rec })
}

/// The member of an entry that was found in a set's list, where it is this owner's. Where the entry isn't that of a
/// record the set's file is damaged.
pub fn member_at<B: Blocks>(
    over: &mut Overlay<B>,
    alloc: Global,
    desc: &Description,
    s: &Structure,
    kinds: &[ItemKind],
    owner: u64,
    found: &[u8],
) -> Result<Option<Spot>, BlockFault>
    requires usable { IsUsable (as_described desc.now) over.old }
    requires kept { is_set_or_automatic (shape_of s.now) ≡ true }
    requires there { structure_of (as_described desc.now) s.now.number ≡ Some (shape_of s.now) }
    requires kinds { kinds.now ≡ kinds_over (as_described desc.now) (shape_of s.now) }
    requires owner { owner < 2 ^ 32 }
    ensures found { Tells (db_under (as_described desc.now) over.old) result (λ d. spot_by (shape_of s.now) d owner (Some found.now)) }
    ensures fits { IfOk result (λ o. IfSome o (SpotFits (as_described desc.now) s.now.number)) }
    ensures reads { ReadsOverlay 1 result over.old over.new }
    ensures causes { HasCausesOr (BadEntry (as_described desc.now) (shape_of s.now) found.now over.old) result (under over.old) (under over.new) }
{
    let number = number_in(found);
    match get(over, alloc, desc, s.set, number)? {
        None => Err(BlockFault::Damaged(file_of(s.number), 0)),
        Some(rec) => {
            if !is_entry(alloc, s, kinds, number, &rec, found)? {
                return Err(BlockFault::Damaged(file_of(s.number), 0));
            }
            if owner != rec.owner {
                return Ok(None);
            }
            Ok(Some(spot(alloc, s, number, rec)?))
        }
    }
}
