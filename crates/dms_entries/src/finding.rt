ghost use Rattle.std.specs.Prelude.{◌≡◌, ◌≤◌, ◌<◌, ◌^◌, ⊤, Some, IfOk, length};
ghost use Rattle.dms_block.specs.View.{seen_counts};
ghost use Rattle.dms_desc.specs.Files.{file_of};
ghost use Rattle.dms_desc.specs.Lookups.{structure_of};
ghost use Rattle.dms_desc.specs.Shape.{as_described, shape_of};
ghost use Rattle.dms_entries.specs.Found.{FindsFirst, FindsLast, FindsSpot, HasListed};
ghost use Rattle.dms_model.specs.Changing.{IsManual};
ghost use Rattle.dms_model.specs.Members.{spot_of};
ghost use Rattle.dms_sets.specs.Finds.{spot_by};
ghost use Rattle.dms_sets.specs.Owners.{is_of};
ghost use Rattle.dms_sets.specs.Sets.{number_in};
ghost use Rattle.dms_spelling.specs.Ready.{IsReady};

use crate::listed::{first_entry, last_entry};
use crate::record::record_at;
use dms_base::Memory;
use dms_block::{BlockFault, Blocks, Overlay};
use dms_desc::{Bound, Description, Record, Structure, file_of};
use dms_model::{Spot, key_of};
use dms_sets::kinds_of;
use std::alloc::Global;

// Whether an entry is this owner's.
fn is_of(owner: u64, entry: &[u8]) -> bool
    ensures { result ≡ is_of owner entry.now }
{
    entry.starts_with(&owner.to_be_bytes()[4..])
}

// The record's number in an entry, which are its last four bytes; 0 where it has fewer.
fn number_in(entry: &[u8]) -> u64
    ensures { 4 ≤ length entry.now → result ≡ number_in entry.now }
{
    let at = entry.len().saturating_sub(4);
    match &entry[at..] {
        [a, b, c, d] => u64::from(u32::from_be_bytes([*a, *b, *c, *d])),
        _ => 0,
    }
}

// A record as a member.
fn spot(alloc: Global, s: &Structure, number: u64, rec: Record) -> Result<Spot, Memory>
    ensures { IfOk result (λ x. x ≡ spot_of s.now.parts ((0, number), rec)) }
{
    let key = key_of(alloc, s.parts.as_slice(), rec.values.as_slice())?;
    Ok(Spot { number, key, rec })
}

// The member of an entry that was found in the list of a manual subset, where it is this owner's.
fn member_at<B: Blocks>(
    over: &mut Overlay<B>,
    alloc: Global,
    desc: &Description,
    s: &Structure,
    owner: u64,
    found: &[u8],
) -> Result<Option<Spot>, BlockFault>
    requires ready { IsReady (as_described desc.now) over.old }
    requires there { structure_of (as_described desc.now) s.now.number ≡ Some (shape_of s.now) }
    requires kind { (shape_of s.now).kind ≡ 5 }
    requires some { 1 ≤ seen_counts over.old (file_of s.now.number) }
    requires listed { HasListed (as_described desc.now) (shape_of s.now) found.now over.old }
    ensures { FindsSpot (as_described desc.now) s.now.number ⊤ (λ db. spot_by (shape_of s.now) db owner (Some found.now)) 1 result over.old over.new }
{
    if !is_of(owner, found) {
        return Ok(None);
    }
    let number = number_in(found);
    match record_at(over, alloc, desc, s.set, number) {
        Err(e) => Err(e),
        Ok(None) => Err(BlockFault::Damaged(file_of(s.number), 0)),
        Ok(Some(rec)) => match spot(alloc, s, number, rec) {
            Err(_memory) => Err(BlockFault::Memory),
            Ok(spot) => Ok(Some(spot)),
        },
    }
}

// The first member of a manual subset behind a bound.
fn first_in<B: Blocks>(
    over: &mut Overlay<B>,
    alloc: Global,
    desc: &Description,
    s: &Structure,
    owner: u64,
    from: &Bound,
) -> Result<Option<Spot>, BlockFault>
    requires ready { IsReady (as_described desc.now) over.old }
    requires there { structure_of (as_described desc.now) s.now.number ≡ Some (shape_of s.now) }
    requires kind { (shape_of s.now).kind ≡ 5 }
    ensures { FindsFirst (as_described desc.now) s.now.number owner from.now result over.old over.new }
{
    match kinds_of(alloc, desc.items_of(s.set)) {
        Err(_memory) => Err(BlockFault::Memory),
        Ok(kinds) => match first_entry(over, alloc, s, kinds.as_slice(), owner, from) {
            Err(e) => Err(e),
            Ok(None) => Ok(None),
            Ok(Some(entry)) => member_at(over, alloc, desc, s, owner, entry.as_slice()),
        },
    }
}

// The last member of a manual subset before a bound.
fn last_in<B: Blocks>(
    over: &mut Overlay<B>,
    alloc: Global,
    desc: &Description,
    s: &Structure,
    owner: u64,
    to: &Bound,
) -> Result<Option<Spot>, BlockFault>
    requires ready { IsReady (as_described desc.now) over.old }
    requires there { structure_of (as_described desc.now) s.now.number ≡ Some (shape_of s.now) }
    requires kind { (shape_of s.now).kind ≡ 5 }
    requires owner { owner < 2 ^ 32 }
    ensures { FindsLast (as_described desc.now) s.now.number owner to.now result over.old over.new }
{
    match kinds_of(alloc, desc.items_of(s.set)) {
        Err(_memory) => Err(BlockFault::Memory),
        Ok(kinds) => match last_entry(over, alloc, s, kinds.as_slice(), owner, to) {
            Err(e) => Err(e),
            Ok(None) => Ok(None),
            Ok(Some(entry)) => member_at(over, alloc, desc, s, owner, entry.as_slice()),
        },
    }
}

/// The first member of a manual subset, for an owner (0 where it is disjoint), behind a bound. It is the database's where
/// the owner is below 2^32 - 1 and the bound's key fits the subset's, with a member's number below 2^32 - 1. One look at
/// the list, and one read of the record.
pub fn first_member<B: Blocks>(
    over: &mut Overlay<B>,
    alloc: Global,
    desc: &Description,
    subset: u16,
    owner: u64,
    from: &Bound,
) -> Result<Option<Spot>, BlockFault>
    requires ready { IsReady (as_described desc.now) over.old }
    requires subset { IsManual (as_described desc.now) subset }
    ensures { FindsFirst (as_described desc.now) subset owner from.now result over.old over.new }
{
    match desc.structure(subset) {
        None => Ok(None),
        Some(s) => first_in(over, alloc, desc, s, owner, from),
    }
}

/// The last member of a manual subset, for an owner (0 where it is disjoint), before a bound. It is the database's where
/// the owner is below 2^32 - 1 and the bound's key fits the subset's, with a member's number below 2^32 - 1. One look at
/// the list, and one read of the record.
pub fn last_member<B: Blocks>(
    over: &mut Overlay<B>,
    alloc: Global,
    desc: &Description,
    subset: u16,
    owner: u64,
    to: &Bound,
) -> Result<Option<Spot>, BlockFault>
    requires ready { IsReady (as_described desc.now) over.old }
    requires subset { IsManual (as_described desc.now) subset }
    requires owner { owner < 2 ^ 32 }
    ensures { FindsLast (as_described desc.now) subset owner to.now result over.old over.new }
{
    match desc.structure(subset) {
        None => Ok(None),
        Some(s) => last_in(over, alloc, desc, s, owner, to),
    }
}
