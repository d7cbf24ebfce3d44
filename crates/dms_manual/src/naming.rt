ghost use Rattle.std.specs.Prelude.{◌≡◌, ◌==◌, ◌^◌, ◌<◌, ◌≤◌, ℕ, true, length, IfOk, IfErr, OnOk, filter};
ghost use Rattle.std.specs.List.{list_any};
ghost use Rattle.dms_desc.specs.Shape.{as_described, shape_of};
ghost use Rattle.dms_model.specs.Uses.{is_entered};
ghost use Rattle.dms_sets.specs.Changes.{IfListed};
ghost use Rattle.dms_sets.specs.Padded.{entry_width};
ghost use Rattle.dms_sets.specs.Told.{OfStructures};
ghost use Rattle.dms_manual.specs.Named.{tells};
ghost use Rattle.dms_manual.specs.Naming.{HasWidth, IfManual, has_manual, is_manual_over, manual_list};

use crate::widths::entry_width;
use dms_base::{Bytes, ItemKind};
use dms_block::BlockFault;
use dms_desc::{Description, Structure};
use dms_sets::{Lists, kinds_of};
use std::alloc::Global;

/// The entries of the record with this number in the list of a manual subset, in their order. It may read the whole
/// list.
pub(crate) fn entries_naming<L: Lists>(
    lists: &mut L,
    alloc: Global,
    s: &Structure,
    kinds: &[ItemKind],
    number: u64,
) -> Result<Vec<Bytes>, BlockFault>
    requires usable { L.usable lists.old s.now.number }
    requires small { number < 2 ^ 32 }
    requires width { entry_width kinds.now (shape_of s.now).parts ≤ 104 }
    ensures found { IfOk result (λ v. IfListed (manual_list (L.listed lists.old) kinds.now (shape_of s.now)) (λ xs. v.items ≡ filter (tells number) xs)) }
    ensures list { OnOk result (L.listed lists.new ≡ L.listed lists.old) }
    ensures usable { OnOk result ((n : ℕ) → L.usable lists.old n → L.usable lists.new n) }
    ensures calm { OnOk result (L.calm (λ m. m == s.now.number) 0 lists.old lists.new) }
    ensures fails { IfErr result (λ e. L.fails e 0 lists.old lists.new) }
    ensures below { IfErr result (λ e. IfListed (manual_list (L.listed lists.old) kinds.now (shape_of s.now)) (λ xs. L.below e lists.old lists.new)) }
{
    let width = entry_width(kinds, s.parts.as_slice());
    let tail = (number as u32).to_be_bytes();
    lists.ending(alloc, s.number, width, &tail)
}

/// Whether the list of a manual subset has an entry of the record with this number. It may read the whole list.
pub fn names_record<L: Lists>(
    lists: &mut L,
    alloc: Global,
    s: &Structure,
    kinds: &[ItemKind],
    number: u64,
) -> Result<bool, BlockFault>
    requires usable { L.usable lists.old s.now.number }
    requires small { number < 2 ^ 32 }
    requires width { entry_width kinds.now (shape_of s.now).parts ≤ 104 }
    ensures answer { IfOk result (λ b. IfListed (manual_list (L.listed lists.old) kinds.now (shape_of s.now)) (λ xs. b ≡ list_any (tells number) xs)) }
    ensures list { OnOk result (L.listed lists.new ≡ L.listed lists.old) }
    ensures usable { OnOk result ((n : ℕ) → L.usable lists.old n → L.usable lists.new n) }
    ensures calm { OnOk result (L.calm (λ m. m == s.now.number) 1 lists.old lists.new) }
    ensures fails { IfErr result (λ e. L.fails e 1 lists.old lists.new) }
    ensures below { IfErr result (λ e. IfListed (manual_list (L.listed lists.old) kinds.now (shape_of s.now)) (λ xs. L.below e lists.old lists.new)) }
{
    let found = entries_naming(lists, alloc, s, kinds, number)?;
    Ok(!found.is_empty())
}

/// Whether a structure is a manual subset of a data set.
pub(crate) fn is_manual_over(s: &Structure, set: u16) -> bool
    ensures { result ≡ is_manual_over (shape_of s.now) set }
{
    s.is_manual() && s.set == set
}

/// Whether an entry of any manual subset names a record of a data set. It may read the whole list of each manual subset
/// of the data set.
pub fn is_entered<L: Lists>(
    lists: &mut L,
    alloc: Global,
    desc: &Description,
    set: u16,
    number: u64,
) -> Result<bool, BlockFault>
    requires usable { OfStructures (as_described desc.now) (λ s. is_manual_over s set ≡ true → L.usable lists.old s.number) }
    requires small { number < 2 ^ 32 }
    requires width { OfStructures (as_described desc.now) (λ s. is_manual_over s set ≡ true → HasWidth (as_described desc.now) set s) }
    ensures answer { IfOk result (λ b. IfManual (as_described desc.now) set number (L.listed lists.old) (λ db. b ≡ list_any (is_entered (as_described desc.now) set number) db.entries)) }
    ensures list { OnOk result (L.listed lists.new ≡ L.listed lists.old) }
    ensures usable { OnOk result ((n : ℕ) → L.usable lists.old n → L.usable lists.new n) }
    ensures calm { OnOk result (L.calm (has_manual (as_described desc.now).structures set) (length desc.now.structures) lists.old lists.new) }
    ensures fails { IfErr result (λ e. L.fails e (length desc.now.structures) lists.old lists.new) }
    ensures below { IfErr result (λ e. IfManual (as_described desc.now) set number (L.listed lists.old) (λ db. L.below e lists.old lists.new)) }
{
    let kinds = kinds_of(alloc, desc.items_of(set))?;
    for s in desc.structures.as_slice() {
        if is_manual_over(s, set) {
            if names_record(lists, alloc, s, kinds.as_slice(), number)? {
                return Ok(true);
            }
        }
    }
    Ok(false)
}
