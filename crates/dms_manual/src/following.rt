ghost use Rattle.std.specs.Prelude.{◌≡◌, ◌==◌, ◌^◌, ◌<◌, ◌≤◌, ◌*◌, ℕ, true, length, IfOk, IfErr, OnOk};
ghost use Rattle.dms_desc.specs.Keys.{key_of};
ghost use Rattle.dms_desc.specs.Shape.{as_described, shape_of};
ghost use Rattle.dms_key.specs.KeyBytes.{key_bytes};
ghost use Rattle.dms_sets.specs.Changes.{HasEntry, IfListed, OtherListsStay, list_of_set};
ghost use Rattle.dms_sets.specs.Sets.{owner_in};
ghost use Rattle.dms_sets.specs.Told.{OfStructures};
ghost use Rattle.dms_manual.specs.Followed.{IfMoving, MovesEach};
ghost use Rattle.dms_manual.specs.Following.{ChangesFor, FewFor, FewMoves, IfAllMoves, IfMoves, MadeChanges, MayBeEntered, Moves, MovesListed, NoOtherMoves, for_owner, has_same_key, is_moved, stays};
ghost use Rattle.dms_manual.specs.Naming.{is_manual_over};

use crate::naming::{entries_naming, is_manual_over};
use dms_base::{Bytes, ItemKind, Memory};
use dms_block::BlockFault;
use dms_desc::{Description, Record, Structure};
use dms_key::key_bytes;
use dms_model::key_of;
use dms_sets::{Lists, change_one, kinds_of};
use std::alloc::Global;

// The owner's number in an entry, which are its first four bytes; 0 where it has fewer.
fn owner_in(entry: &[u8]) -> u64
    ensures { 4 ≤ length entry.now → result ≡ owner_in entry.now }
{
    match entry {
        [a, b, c, d, ..] => u64::from(u32::from_be_bytes([*a, *b, *c, *d])),
        _ => 0,
    }
}

// A record as a member for an owner.
fn member_for(alloc: Global, owner: u64, rec: &Record) -> Result<Record, Memory>
    ensures { IfOk result (λ r. r ≡ for_owner owner rec.now) }
{
    let values = rec.values.copy(alloc)?;
    Ok(Record { owner, values })
}

// The bytes of a record's key in a subset.
fn key_in(alloc: Global, s: &Structure, kinds: &[ItemKind], rec: &Record) -> Result<Bytes, Memory>
    ensures { IfOk result (λ b. b ≡ key_bytes kinds.now s.now.parts (key_of s.now.parts rec.now.values)) }
{
    let parts = s.parts.as_slice();
    let key = key_of(alloc, parts, rec.values.as_slice())?;
    key_bytes(alloc, parts, kinds, key.as_slice())
}

// Whether two records have one key in a subset.
fn has_same_key(
    alloc: Global,
    s: &Structure,
    kinds: &[ItemKind],
    old: &Record,
    new: &Record,
) -> Result<bool, Memory>
    ensures { IfOk result (λ b. b ≡ has_same_key kinds.now (shape_of s.now) old.now new.now) }
{
    let before = key_in(alloc, s, kinds, old)?;
    let after = key_in(alloc, s, kinds, new)?;
    Ok(before.as_slice() == after.as_slice())
}

// Whether no entry of a record moves: the subset has DUPLICATES, and the key stays.
fn stays(
    alloc: Global,
    s: &Structure,
    kinds: &[ItemKind],
    old: &Record,
    new: &Record,
) -> Result<bool, Memory>
    ensures { IfOk result (λ b. b ≡ stays kinds.now (shape_of s.now) old.now new.now) }
{
    if !s.duplicates {
        return Ok(false);
    }
    has_same_key(alloc, s, kinds, old, new)
}

// Moves one entry of a record, which tells its owner.
fn move_one<L: Lists>(
    lists: &mut L,
    alloc: Global,
    s: &Structure,
    kinds: &[ItemKind],
    number: u64,
    entry: &[u8],
    old: &Record,
    new: &Record,
) -> Result<bool, BlockFault>
    requires usable { L.usable lists.old s.now.number }
    requires old { HasEntry kinds.now (shape_of s.now) old.now.values }
    requires new { HasEntry kinds.now (shape_of s.now) new.now.values }
    ensures changed { 4 ≤ length entry.now → IfOk result (ChangesFor kinds.now (shape_of s.now) number (owner_in entry.now) old.now new.now (L.listed lists.old) (L.listed lists.new)) }
    ensures others { OnOk result (OtherListsStay (shape_of s.now) (L.listed lists.old) (L.listed lists.new)) }
    ensures usable { OnOk result ((n : ℕ) → L.usable lists.old n → L.usable lists.new n) }
    ensures calm { OnOk result (L.calm (λ m. m == s.now.number) 2 lists.old lists.new) }
    ensures fails { IfErr result (λ e. L.fails e 2 lists.old lists.new) }
    ensures below { IfErr result (λ e. IfListed (list_of_set (L.listed lists.old) kinds.now (shape_of s.now)) (λ xs. L.below e lists.old lists.new)) }
{
    let owner = owner_in(entry);
    let before = member_for(alloc, owner, old)?;
    let after = member_for(alloc, owner, new)?;
    change_one(lists, alloc, s, kinds, number, Some(&before), Some(&after))
}

// Moves these entries of a record, one after another.
fn move_each<L: Lists>(
    lists: &mut L,
    alloc: Global,
    s: &Structure,
    kinds: &[ItemKind],
    number: u64,
    found: &[Bytes],
    old: &Record,
    new: &Record,
) -> Result<bool, BlockFault>
    requires kind { (shape_of s.now).kind ≡ 5 }
    requires usable { L.usable lists.old s.now.number }
    requires small { number < 2 ^ 32 }
    requires old { HasEntry kinds.now (shape_of s.now) old.now.values }
    requires new { HasEntry kinds.now (shape_of s.now) new.now.values }
    ensures moved { IfOk result (MovesEach kinds.now (shape_of s.now) number old.now new.now found.now (L.listed lists.old) (L.listed lists.new)) }
    ensures others { OnOk result (OtherListsStay (shape_of s.now) (L.listed lists.old) (L.listed lists.new)) }
    ensures usable { OnOk result ((n : ℕ) → L.usable lists.old n → L.usable lists.new n) }
    ensures calm { OnOk result (L.calm (λ m. m == s.now.number) (2 * length found.now) lists.old lists.new) }
    ensures fails { IfErr result (λ e. L.fails e (2 * length found.now) lists.old lists.new) }
    ensures below { IfErr result (λ e. IfMoving kinds.now (shape_of s.now) number old.now new.now found.now (L.listed lists.old) (λ db. L.below e lists.old lists.new)) }
{
    for entry in found {
        if move_one(lists, alloc, s, kinds, number, entry.as_slice(), old, new)? {
            return Ok(true);
        }
    }
    Ok(false)
}

// Moves all entries of a record in the list of a manual subset. The whole list is read.
fn move_all<L: Lists>(
    lists: &mut L,
    alloc: Global,
    s: &Structure,
    kinds: &[ItemKind],
    number: u64,
    old: &Record,
    new: &Record,
) -> Result<bool, BlockFault>
    requires kind { (shape_of s.now).kind ≡ 5 }
    requires usable { L.usable lists.old s.now.number }
    requires small { number < 2 ^ 32 }
    requires old { HasEntry kinds.now (shape_of s.now) old.now.values }
    requires new { HasEntry kinds.now (shape_of s.now) new.now.values }
    ensures moved { IfOk result (λ refused. Moves kinds.now (shape_of s.now) number old.now new.now (L.listed lists.old) (L.listed lists.new) refused) }
    ensures others { OnOk result (OtherListsStay (shape_of s.now) (L.listed lists.old) (L.listed lists.new)) }
    ensures usable { OnOk result ((n : ℕ) → L.usable lists.old n → L.usable lists.new n) }
    ensures calm { OnOk result (MadeChanges (λ n. L.calm (λ m. m == s.now.number) n lists.old lists.new) (FewFor kinds.now (shape_of s.now) number (L.listed lists.old))) }
    ensures fails { IfErr result (λ e. MadeChanges (λ n. L.fails e n lists.old lists.new) (FewFor kinds.now (shape_of s.now) number (L.listed lists.old))) }
    ensures below { IfErr result (λ e. IfMoves kinds.now (shape_of s.now) number old.now new.now (L.listed lists.old) (λ db. L.below e lists.old lists.new)) }
{
    let found = entries_naming(lists, alloc, s, kinds, number)?;
    move_each(lists, alloc, s, kinds, number, found.as_slice(), old, new)
}

// The same, where the subset has NO DUPLICATES or the key is another one. Else no entry moves, and none is looked for.
fn move_in<L: Lists>(
    lists: &mut L,
    alloc: Global,
    s: &Structure,
    kinds: &[ItemKind],
    number: u64,
    old: &Record,
    new: &Record,
) -> Result<bool, BlockFault>
    requires kind { (shape_of s.now).kind ≡ 5 }
    requires usable { L.usable lists.old s.now.number }
    requires small { number < 2 ^ 32 }
    requires old { HasEntry kinds.now (shape_of s.now) old.now.values }
    requires new { HasEntry kinds.now (shape_of s.now) new.now.values }
    ensures moved { IfOk result (λ refused. Moves kinds.now (shape_of s.now) number old.now new.now (L.listed lists.old) (L.listed lists.new) refused) }
    ensures others { OnOk result (OtherListsStay (shape_of s.now) (L.listed lists.old) (L.listed lists.new)) }
    ensures usable { OnOk result ((n : ℕ) → L.usable lists.old n → L.usable lists.new n) }
    ensures calm { OnOk result (MadeChanges (λ n. L.calm (λ m. m == s.now.number) n lists.old lists.new) (FewFor kinds.now (shape_of s.now) number (L.listed lists.old))) }
    ensures fails { IfErr result (λ e. MadeChanges (λ n. L.fails e n lists.old lists.new) (FewFor kinds.now (shape_of s.now) number (L.listed lists.old))) }
    ensures below { IfErr result (λ e. IfMoves kinds.now (shape_of s.now) number old.now new.now (L.listed lists.old) (λ db. L.below e lists.old lists.new)) }
{
    if stays(alloc, s, kinds, old, new)? {
        return Ok(false);
    }
    move_all(lists, alloc, s, kinds, number, old, new)
}

/// Moves the entries of a record from its old key to its new one, in all manual subsets over its data set, in number
/// order: for each owner for whom an entry names the record. Where another member of such an owner has the new key, and
/// the subset has NO DUPLICATES, the call stops there and answers the subset's number; the lists are to be forgotten.
///
/// `old` is the record that stands under the number, and `new` the one that is to stand there; their owners make no
/// difference. A subset with DUPLICATES in which the key stays is not looked at; the list of each other one is read
/// whole, since nothing leads from a record to its entries.
pub fn follow<L: Lists>(
    lists: &mut L,
    alloc: Global,
    desc: &Description,
    set: u16,
    number: u64,
    old: &Record,
    new: &Record,
) -> Result<Option<u16>, BlockFault>
    requires usable { OfStructures (as_described desc.now) (λ s. is_manual_over s set ≡ true → L.usable lists.old s.number) }
    requires small { number < 2 ^ 32 }
    requires old { MayBeEntered (as_described desc.now) set old.now }
    requires new { MayBeEntered (as_described desc.now) set new.now }
    ensures moved { IfOk result (MovesListed (as_described desc.now) set number old.now new.now (L.listed lists.old) (L.listed lists.new)) }
    ensures others { OnOk result (NoOtherMoves (as_described desc.now) set (L.listed lists.old) (L.listed lists.new)) }
    ensures usable { OnOk result ((n : ℕ) → L.usable lists.old n → L.usable lists.new n) }
    ensures calm { let d = as_described desc.now in OnOk result (MadeChanges (λ n. L.calm (is_moved d set) n lists.old lists.new) (FewMoves d set number old.now new.now (L.listed lists.old))) }
    ensures fails { IfErr result (λ e. MadeChanges (λ n. L.fails e n lists.old lists.new) (FewMoves (as_described desc.now) set number old.now new.now (L.listed lists.old))) }
    ensures below { IfErr result (λ e. IfAllMoves (as_described desc.now) set number old.now new.now (L.listed lists.old) (λ db. L.below e lists.old lists.new)) }
{
    let kinds = kinds_of(alloc, desc.items_of(set))?;
    for s in desc.structures.as_slice() {
        if is_manual_over(s, set) {
            if move_in(lists, alloc, s, kinds.as_slice(), number, old, new)? {
                return Ok(Some(s.number));
            }
        }
    }
    Ok(None)
}
