ghost use Rattle.std.specs.Prelude.{◌≡◌, ◌==◌, ◌++◌, ◌∷◌, [], ℕ, Some, IfOk, IfErr, OnOk};
ghost use Rattle.std.specs.Option.{option_copied};
ghost use Rattle.dms_desc.specs.Shape.{shape_of};
ghost use Rattle.dms_chain.specs.Lists.{with_in, without_in};
ghost use Rattle.dms_sets.specs.Changes.{ChangesSet, Enters, IfListed, ListChanged, ListGrown, OtherListsStay, HasEntry, OptHasEntry, entry_in, entry_opt, is_seen, list_of_set, refuses};
ghost use Rattle.dms_sets.specs.Prefixes.{starts};

use crate::Lists;
use crate::entry::{entry, front};
use dms_base::{Bytes, ItemKind, Memory};
use dms_block::BlockFault;
use dms_desc::{Record, Structure};
use dms_lists::form_of;
use std::alloc::Global;

// Whether bytes begin with a prefix.
fn starts(front: &[u8], bytes: &[u8]) -> bool
    ensures { result ≡ starts front.now bytes.now }
{
    bytes.starts_with(front)
}

// A prefix, and zeros for the record's number.
fn bound(alloc: Global, front: &Bytes) -> Result<Bytes, Memory>
    ensures { IfOk result (λ b. b ≡ front.now ++ 0 ∷ 0 ∷ 0 ∷ 0 ∷ []) }
{
    let mut out = front.copy(alloc)?;
    out.extend(&[0, 0, 0, 0])?;
    Ok(out)
}

// Takes a record's entry out of a set's list.
fn take_out<L: Lists>(
    lists: &mut L,
    alloc: Global,
    s: &Structure,
    kinds: &[ItemKind],
    number: u64,
    rec: &Record,
) -> Result<(), BlockFault>
    requires usable { L.usable lists.old s.now.number }
    requires fits { HasEntry kinds.now (shape_of s.now) rec.now.values }
    ensures list { OnOk result (ListChanged (without_in (entry_in kinds.now (shape_of s.now) number rec.now)) kinds.now (shape_of s.now) (L.listed lists.old) (L.listed lists.new)) }
    ensures usable { OnOk result ((n : ℕ) → L.usable lists.old n → L.usable lists.new n) }
    ensures calm { OnOk result (L.calm (λ m. m == s.now.number) 1 lists.old lists.new) }
    ensures fails { IfErr result (λ e. L.fails e 1 lists.old lists.new) }
    ensures below { IfErr result (λ e. IfListed (list_of_set (L.listed lists.old) kinds.now (shape_of s.now)) (λ xs. L.below e lists.old lists.new)) }
{
    if let Some(entry) = entry(alloc, s, kinds, number, rec)? {
        lists.remove(alloc, s.number, form_of(s), entry.as_slice())?;
    }
    Ok(())
}

// Puts a record's entry into a set's list.
fn put_in<L: Lists>(
    lists: &mut L,
    alloc: Global,
    s: &Structure,
    kinds: &[ItemKind],
    number: u64,
    rec: &Record,
) -> Result<(), BlockFault>
    requires usable { L.usable lists.old s.now.number }
    requires fits { HasEntry kinds.now (shape_of s.now) rec.now.values }
    ensures list { OnOk result (ListGrown (with_in (entry_in kinds.now (shape_of s.now) number rec.now)) kinds.now (shape_of s.now) (L.listed lists.old) (L.listed lists.new)) }
    ensures usable { OnOk result ((n : ℕ) → L.usable lists.old n → L.usable lists.new n) }
    ensures calm { OnOk result (L.calm (λ m. m == s.now.number) 1 lists.old lists.new) }
    ensures fails { IfErr result (λ e. L.fails e 1 lists.old lists.new) }
    ensures below { IfErr result (λ e. IfListed (list_of_set (L.listed lists.old) kinds.now (shape_of s.now)) (λ xs. L.below e lists.old lists.new)) }
{
    if let Some(entry) = entry(alloc, s, kinds, number, rec)? {
        lists.insert(alloc, s.number, form_of(s), entry.as_slice())?;
    }
    Ok(())
}

// Whether an entry of a set has a record's owner and key.
fn is_taken<L: Lists>(
    lists: &mut L,
    alloc: Global,
    s: &Structure,
    kinds: &[ItemKind],
    rec: &Record,
) -> Result<bool, BlockFault>
    requires usable { L.usable lists.old s.now.number }
    requires fits { HasEntry kinds.now (shape_of s.now) rec.now.values }
    ensures seen { IfOk result (λ b. IfListed (list_of_set (L.listed lists.old) kinds.now (shape_of s.now)) (λ xs. b ≡ is_seen kinds.now (shape_of s.now) rec.now xs)) }
    ensures list { OnOk result (L.listed lists.new ≡ L.listed lists.old) }
    ensures usable { OnOk result ((n : ℕ) → L.usable lists.old n → L.usable lists.new n) }
    ensures calm { OnOk result (L.calm (λ m. m == s.now.number) 0 lists.old lists.new) }
    ensures fails { IfErr result (λ e. L.fails e 0 lists.old lists.new) }
    ensures below { IfErr result (λ e. IfListed (list_of_set (L.listed lists.old) kinds.now (shape_of s.now)) (λ xs. L.below e lists.old lists.new)) }
{
    let front = front(alloc, s, kinds, rec)?;
    let bound = bound(alloc, &front)?;
    match lists.first_from(alloc, s.number, form_of(s), bound.as_slice())? {
        None => Ok(false),
        Some(found) => Ok(starts(front.as_slice(), found.as_slice())),
    }
}

/// Whether a set or subset refuses a record: an entry has its owner and key, and it has no DUPLICATES.
pub fn refuses<L: Lists>(
    lists: &mut L,
    alloc: Global,
    s: &Structure,
    kinds: &[ItemKind],
    rec: &Record,
) -> Result<bool, BlockFault>
    requires usable { L.usable lists.old s.now.number }
    requires fits { HasEntry kinds.now (shape_of s.now) rec.now.values }
    ensures answer { IfOk result (λ b. IfListed (list_of_set (L.listed lists.old) kinds.now (shape_of s.now)) (λ xs. b ≡ refuses kinds.now (shape_of s.now) (Some rec.now) xs)) }
    ensures list { OnOk result (L.listed lists.new ≡ L.listed lists.old) }
    ensures usable { OnOk result ((n : ℕ) → L.usable lists.old n → L.usable lists.new n) }
    ensures calm { OnOk result (L.calm (λ m. m == s.now.number) 0 lists.old lists.new) }
    ensures fails { IfErr result (λ e. L.fails e 0 lists.old lists.new) }
    ensures below { IfErr result (λ e. IfListed (list_of_set (L.listed lists.old) kinds.now (shape_of s.now)) (λ xs. L.below e lists.old lists.new)) }
{
    if s.duplicates || !s.takes(rec.values.as_slice()) {
        return Ok(false);
    }
    is_taken(lists, alloc, s, kinds, rec)
}

// Takes the old record's entry out.
fn leave<L: Lists>(
    lists: &mut L,
    alloc: Global,
    s: &Structure,
    kinds: &[ItemKind],
    number: u64,
    old: Option<&Record>,
) -> Result<(), BlockFault>
    requires usable { L.usable lists.old s.now.number }
    requires fits { OptHasEntry kinds.now (shape_of s.now) (option_copied old) }
    ensures list { OnOk result (ListChanged (without_in (entry_opt kinds.now (shape_of s.now) number (option_copied old.entry))) kinds.now (shape_of s.now) (L.listed lists.old) (L.listed lists.new)) }
    ensures usable { OnOk result ((n : ℕ) → L.usable lists.old n → L.usable lists.new n) }
    ensures calm { OnOk result (L.calm (λ m. m == s.now.number) 1 lists.old lists.new) }
    ensures fails { IfErr result (λ e. L.fails e 1 lists.old lists.new) }
    ensures below { IfErr result (λ e. IfListed (list_of_set (L.listed lists.old) kinds.now (shape_of s.now)) (λ xs. L.below e lists.old lists.new)) }
{
    match old {
        None => Ok(()),
        Some(rec) => take_out(lists, alloc, s, kinds, number, rec),
    }
}

// Puts a record's entry in, unless the set refuses it.
fn put_new<L: Lists>(
    lists: &mut L,
    alloc: Global,
    s: &Structure,
    kinds: &[ItemKind],
    number: u64,
    rec: &Record,
) -> Result<bool, BlockFault>
    requires usable { L.usable lists.old s.now.number }
    requires fits { HasEntry kinds.now (shape_of s.now) rec.now.values }
    ensures entered { IfOk result (λ refused. Enters kinds.now (shape_of s.now) number (Some rec.now) (L.listed lists.old) (L.listed lists.new) refused) }
    ensures others { OnOk result (OtherListsStay (shape_of s.now) (L.listed lists.old) (L.listed lists.new)) }
    ensures usable { OnOk result ((n : ℕ) → L.usable lists.old n → L.usable lists.new n) }
    ensures calm { OnOk result (L.calm (λ m. m == s.now.number) 1 lists.old lists.new) }
    ensures fails { IfErr result (λ e. L.fails e 1 lists.old lists.new) }
    ensures below { IfErr result (λ e. IfListed (list_of_set (L.listed lists.old) kinds.now (shape_of s.now)) (λ xs. L.below e lists.old lists.new)) }
{
    if refuses(lists, alloc, s, kinds, rec)? {
        return Ok(true);
    }
    put_in(lists, alloc, s, kinds, number, rec)?;
    Ok(false)
}

// Puts the new record's entry in, unless the set refuses it.
fn enter<L: Lists>(
    lists: &mut L,
    alloc: Global,
    s: &Structure,
    kinds: &[ItemKind],
    number: u64,
    new: Option<&Record>,
) -> Result<bool, BlockFault>
    requires usable { L.usable lists.old s.now.number }
    requires fits { OptHasEntry kinds.now (shape_of s.now) (option_copied new) }
    ensures entered { IfOk result (λ refused. Enters kinds.now (shape_of s.now) number (option_copied new.entry) (L.listed lists.old) (L.listed lists.new) refused) }
    ensures others { OnOk result (OtherListsStay (shape_of s.now) (L.listed lists.old) (L.listed lists.new)) }
    ensures usable { OnOk result ((n : ℕ) → L.usable lists.old n → L.usable lists.new n) }
    ensures calm { OnOk result (L.calm (λ m. m == s.now.number) 1 lists.old lists.new) }
    ensures fails { IfErr result (λ e. L.fails e 1 lists.old lists.new) }
    ensures below { IfErr result (λ e. IfListed (list_of_set (L.listed lists.old) kinds.now (shape_of s.now)) (λ xs. L.below e lists.old lists.new)) }
{
    match new {
        None => Ok(false),
        Some(rec) => put_new(lists, alloc, s, kinds, number, rec),
    }
}

/// One change of a record in one set: whether the set refuses the new record.
pub fn change_one<L: Lists>(
    lists: &mut L,
    alloc: Global,
    s: &Structure,
    kinds: &[ItemKind],
    number: u64,
    old: Option<&Record>,
    new: Option<&Record>,
) -> Result<bool, BlockFault>
    requires usable { L.usable lists.old s.now.number }
    requires old { OptHasEntry kinds.now (shape_of s.now) (option_copied old) }
    requires new { OptHasEntry kinds.now (shape_of s.now) (option_copied new) }
    ensures changed { IfOk result (λ refused. ChangesSet kinds.now (shape_of s.now) number (option_copied old.entry) (option_copied new.entry)
        (L.listed lists.old) (L.listed lists.new) refused) }
    ensures others { OnOk result (OtherListsStay (shape_of s.now) (L.listed lists.old) (L.listed lists.new)) }
    ensures usable { OnOk result ((n : ℕ) → L.usable lists.old n → L.usable lists.new n) }
    ensures calm { OnOk result (L.calm (λ m. m == s.now.number) 2 lists.old lists.new) }
    ensures fails { IfErr result (λ e. L.fails e 2 lists.old lists.new) }
    ensures below { IfErr result (λ e. IfListed (list_of_set (L.listed lists.old) kinds.now (shape_of s.now)) (λ xs. L.below e lists.old lists.new)) }
{
    leave(lists, alloc, s, kinds, number, old)?;
    enter(lists, alloc, s, kinds, number, new)
}
