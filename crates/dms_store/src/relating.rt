//! What refers to a record, and calls that change links, entries, and records that go. What such a call writes over the
//! blocks reaches them in one call where it is done, and is forgotten else.

ghost use Rattle.std.specs.Prelude.{◌≡◌, ◌<◌, ◌^◌, [], IfOk, IfSome};
ghost use Rattle.dms_block.specs.View.{overlay_changes, under};
ghost use Rattle.dms_desc.specs.Shape.{as_described};
ghost use Rattle.dms_model.specs.Changing.{IsLinkOf, IsManual};
ghost use Rattle.dms_model.specs.Fitting.{HasRecord, IsDataSet};
ghost use Rattle.dms_model.specs.Uses.{linkers};
ghost use Rattle.dms_store.specs.Lifted.{IsUsable};
ghost use Rattle.dms_store.specs.Relating.{EntersOver, LeavesOver, LinksOver, LooksOver, RemovesOver, is_stored};
ghost use Rattle.dms_store.specs.Settled.{Settles};

use dms_base::Memory;
use dms_block::{BlockFault, Blocks, Overlay};
use dms_desc::Description;
use dms_model::{Places, Put};
use std::alloc::Global;

// What was written reaches the blocks where the call was done, and is forgotten else. This is answered.
fn settle<B: Blocks, T: Copy>(
    over: &mut Overlay<B>,
    alloc: Global,
    answer: T,
    done: bool,
) -> Result<T, BlockFault>
    requires sound { (under over.old).sound }
    ensures none { overlay_changes over.new ≡ [] }
    ensures settled { Settles answer done result over.old over.new }
{
    if !done {
        over.forget();
        return Ok(answer);
    }
    match over.finish(alloc) {
        Err(e) => Err(e),
        Ok(()) => Ok(answer),
    }
}

// The places of a list.
fn places_of(alloc: Global, found: &[(u16, u64)]) -> Result<Places, Memory>
    ensures { IfOk result (λ p. p ≡ found.now) }
{
    let mut places = Places::new(alloc);
    for place in found {
        places.push(*place)?;
    }
    Ok(places)
}

/// The records whose self-correcting link refers to a record, by data set and number. It reads the slots of the data
/// sets that have an item for such links into the record's own, and no others.
pub fn linkers<B: Blocks>(
    over: &mut Overlay<B>,
    alloc: Global,
    desc: &Description,
    set: u16,
    number: u64,
) -> Result<Places, BlockFault>
    requires usable { IsUsable (as_described desc.now) over.old }
    ensures { LooksOver (as_described desc.now) (λ db. HasRecord db set number) (λ db. linkers (as_described desc.now) db set number) result over.old over.new }
{
    match dms_links::linkers(over, alloc, desc, set, number) {
        Err(e) => Err(e),
        Ok(found) => match places_of(alloc, found.as_slice()) {
            Err(_memory) => Err(BlockFault::Memory),
            Ok(places) => Ok(places),
        },
    }
}

/// Removes a record that isn't in use: the self-correcting links to it are null then. Answers whether it did.
pub fn remove<B: Blocks>(
    over: &mut Overlay<B>,
    alloc: Global,
    desc: &Description,
    set: u16,
    number: u64,
) -> Result<bool, BlockFault>
    requires usable { IsUsable (as_described desc.now) over.old }
    requires set { IsDataSet (as_described desc.now) set }
    ensures none { overlay_changes over.new ≡ [] }
    ensures removes { RemovesOver (as_described desc.now) set number result over.old over.new }
{
    match dms_removal::remove(over, alloc, desc, set, number) {
        Err(e) => {
            over.forget();
            Err(e)
        }
        Ok(done) => settle(over, alloc, done, done),
    }
}

/// Sets a link of a record, by its item's number from 1: null, or to the record with a number below 2^32.
pub fn link<B: Blocks>(
    over: &mut Overlay<B>,
    alloc: Global,
    desc: &Description,
    set: u16,
    number: u64,
    item: u8,
    to: Option<u64>,
) -> Result<(), BlockFault>
    requires usable { IsUsable (as_described desc.now) over.old }
    requires set { IsDataSet (as_described desc.now) set }
    requires item { IsLinkOf (as_described desc.now) set item }
    requires to { IfSome to (λ n. n < 2 ^ 32) }
    ensures none { overlay_changes over.new ≡ [] }
    ensures links { LinksOver (as_described desc.now) set number item to result over.old over.new }
{
    match dms_removal::link(over, alloc, desc, set, number, item, to) {
        Err(e) => {
            over.forget();
            Err(e)
        }
        Ok(done) => settle(over, alloc, (), done),
    }
}

// Whether it was stored.
fn is_stored(put: &Put) -> bool
    ensures { result ≡ is_stored put.now }
{
    match put {
        Put::Stored(_) => true,
        Put::Duplicate(_) => false,
        Put::Full => false,
    }
}

/// Enters a record in a manual subset for an owner (0 where it is disjoint).
pub fn enter<B: Blocks>(
    over: &mut Overlay<B>,
    alloc: Global,
    desc: &Description,
    subset: u16,
    owner: u64,
    number: u64,
) -> Result<Put, BlockFault>
    requires usable { IsUsable (as_described desc.now) over.old }
    requires subset { IsManual (as_described desc.now) subset }
    requires owner { owner < 2 ^ 32 }
    ensures none { overlay_changes over.new ≡ [] }
    ensures enters { EntersOver (as_described desc.now) subset owner number result over.old over.new }
{
    match dms_entries::enter(over, alloc, desc, subset, owner, number) {
        Err(e) => {
            over.forget();
            Err(e)
        }
        Ok(put) => {
            let done = is_stored(&put);
            settle(over, alloc, put, done)
        }
    }
}

/// Takes an entry out of a manual subset. Answers whether it stood.
pub fn leave<B: Blocks>(
    over: &mut Overlay<B>,
    alloc: Global,
    desc: &Description,
    subset: u16,
    owner: u64,
    number: u64,
) -> Result<bool, BlockFault>
    requires usable { IsUsable (as_described desc.now) over.old }
    requires subset { IsManual (as_described desc.now) subset }
    requires owner { owner < 2 ^ 32 }
    ensures none { overlay_changes over.new ≡ [] }
    ensures leaves { LeavesOver (as_described desc.now) subset owner number result over.old over.new }
{
    match dms_entries::leave(over, alloc, desc, subset, owner, number) {
        Err(e) => {
            over.forget();
            Err(e)
        }
        Ok(was) => settle(over, alloc, was, was),
    }
}
