ghost use Rattle.std.specs.Prelude.{◌≡◌, ◌==◌, ℕ, IfOk, IfErr, OnOk};
ghost use Rattle.dms_desc.specs.Shape.{shape_of};
ghost use Rattle.dms_sets.specs.Changes.{HasEntry, IfListed, OtherListsStay, list_of_set};
ghost use Rattle.dms_manual.specs.Entering.{Enters, IfRoomy, Makes, Puts, Takes};

use crate::widths::entry_width;
use dms_base::ItemKind;
use dms_block::BlockFault;
use dms_desc::{Record, Structure};
use dms_lists::ListForm;
use dms_model::Put;
use dms_sets::{Lists, record_entry, refuses};
use std::alloc::Global;

// Puts the entry of a member into the list of a manual subset: false where it stands there.
fn put_entry<L: Lists>(
    lists: &mut L,
    alloc: Global,
    s: &Structure,
    kinds: &[ItemKind],
    number: u64,
    rec: &Record,
) -> Result<bool, BlockFault>
    requires kind { (shape_of s.now).kind ≡ 5 }
    requires usable { L.usable lists.old s.now.number }
    requires fits { HasEntry kinds.now (shape_of s.now) rec.now.values }
    ensures put { IfOk result (λ new. Puts kinds.now (shape_of s.now) number rec.now (L.listed lists.old) (L.listed lists.new) new) }
    ensures others { OnOk result (OtherListsStay (shape_of s.now) (L.listed lists.old) (L.listed lists.new)) }
    ensures usable { OnOk result ((n : ℕ) → L.usable lists.old n → L.usable lists.new n) }
    ensures calm { OnOk result (L.calm (λ m. m == s.now.number) 1 lists.old lists.new) }
    ensures fails { IfErr result (λ e. L.fails e 1 lists.old lists.new) }
    ensures below { IfErr result (λ e. IfListed (list_of_set (L.listed lists.old) kinds.now (shape_of s.now)) (λ xs. L.below e lists.old lists.new)) }
{
    match record_entry(alloc, s, kinds, number, rec)? {
        None => Ok(false),
        Some(entry) => lists.insert(alloc, s.number, ListForm::List, entry.as_slice()),
    }
}

/// Makes the entry of a member in the list of a manual subset. True where it may not be made: it stands there, or the
/// subset has NO DUPLICATES and an entry with its owner and key. The list is to be forgotten then.
///
/// The record has the owner of the entry as its own.
pub fn enter<L: Lists>(
    lists: &mut L,
    alloc: Global,
    s: &Structure,
    kinds: &[ItemKind],
    number: u64,
    rec: &Record,
) -> Result<bool, BlockFault>
    requires kind { (shape_of s.now).kind ≡ 5 }
    requires usable { L.usable lists.old s.now.number }
    requires fits { HasEntry kinds.now (shape_of s.now) rec.now.values }
    ensures made { IfOk result (λ refused. Makes kinds.now (shape_of s.now) number rec.now (L.listed lists.old) (L.listed lists.new) refused) }
    ensures others { OnOk result (OtherListsStay (shape_of s.now) (L.listed lists.old) (L.listed lists.new)) }
    ensures usable { OnOk result ((n : ℕ) → L.usable lists.old n → L.usable lists.new n) }
    ensures calm { OnOk result (L.calm (λ m. m == s.now.number) 2 lists.old lists.new) }
    ensures fails { IfErr result (λ e. L.fails e 2 lists.old lists.new) }
    ensures below { IfErr result (λ e. IfListed (list_of_set (L.listed lists.old) kinds.now (shape_of s.now)) (λ xs. L.below e lists.old lists.new)) }
{
    if refuses(lists, alloc, s, kinds, rec)? {
        return Ok(true);
    }
    let new = put_entry(lists, alloc, s, kinds, number, rec)?;
    Ok(!new)
}

/// Takes the entry of a member out of the list of a manual subset: false where it doesn't stand there.
pub fn leave<L: Lists>(
    lists: &mut L,
    alloc: Global,
    s: &Structure,
    kinds: &[ItemKind],
    number: u64,
    rec: &Record,
) -> Result<bool, BlockFault>
    requires kind { (shape_of s.now).kind ≡ 5 }
    requires usable { L.usable lists.old s.now.number }
    requires fits { HasEntry kinds.now (shape_of s.now) rec.now.values }
    ensures taken { IfOk result (λ was. Takes kinds.now (shape_of s.now) number rec.now (L.listed lists.old) (L.listed lists.new) was) }
    ensures others { OnOk result (OtherListsStay (shape_of s.now) (L.listed lists.old) (L.listed lists.new)) }
    ensures usable { OnOk result ((n : ℕ) → L.usable lists.old n → L.usable lists.new n) }
    ensures calm { OnOk result (L.calm (λ m. m == s.now.number) 1 lists.old lists.new) }
    ensures fails { IfErr result (λ e. L.fails e 1 lists.old lists.new) }
    ensures below { IfErr result (λ e. IfListed (list_of_set (L.listed lists.old) kinds.now (shape_of s.now)) (λ xs. L.below e lists.old lists.new)) }
{
    match record_entry(alloc, s, kinds, number, rec)? {
        None => Ok(false),
        Some(entry) => lists.remove(alloc, s.number, ListForm::List, entry.as_slice()),
    }
}

/// Enters a member in a manual subset: `Duplicate` where `enter` may not make the entry, else `Full` where the subset
/// had as many entries as its POPULATION, and else `Stored`. The list is to be forgotten after `Duplicate` and `Full`.
///
/// The record has the owner of the entry as its own. The whole list is read.
pub fn enter_in<L: Lists>(
    lists: &mut L,
    alloc: Global,
    s: &Structure,
    kinds: &[ItemKind],
    number: u64,
    rec: &Record,
) -> Result<Put, BlockFault>
    requires kind { (shape_of s.now).kind ≡ 5 }
    requires usable { L.usable lists.old s.now.number }
    requires fits { HasEntry kinds.now (shape_of s.now) rec.now.values }
    ensures entered { IfOk result (λ p. Enters kinds.now (shape_of s.now) number rec.now (L.listed lists.old) (L.listed lists.new) p) }
    ensures others { OnOk result (OtherListsStay (shape_of s.now) (L.listed lists.old) (L.listed lists.new)) }
    ensures usable { OnOk result ((n : ℕ) → L.usable lists.old n → L.usable lists.new n) }
    ensures calm { OnOk result (L.calm (λ m. m == s.now.number) 3 lists.old lists.new) }
    ensures fails { IfErr result (λ e. L.fails e 3 lists.old lists.new) }
    ensures below { IfErr result (λ e. IfRoomy (list_of_set (L.listed lists.old) kinds.now (shape_of s.now)) (λ xs. L.below e lists.old lists.new)) }
{
    let refused = enter(lists, alloc, s, kinds, number, rec)?;
    if refused {
        return Ok(Put::Duplicate(s.number));
    }
    let width = entry_width(kinds, s.parts.as_slice());
    let count = lists.entry_count(alloc, s.number, width)?;
    if count > u64::from(s.population) {
        return Ok(Put::Full);
    }
    Ok(Put::Stored(number))
}
