ghost use Rattle.std.specs.Prelude.{◌≡◌, ◌*◌, ℕ, true, IfOk, IfErr, OnOk, length};
ghost use Rattle.std.specs.Option.{option_copied};
ghost use Rattle.dms_desc.specs.Shape.{shape_of, as_described};
ghost use Rattle.dms_desc.specs.Lookups.{items_of};
ghost use Rattle.dms_sets.specs.Changes.{has_number, is_over};
ghost use Rattle.dms_sets.specs.Told.{IfJudged, KeepsListed, MayEnter, OfStructures};

use crate::entry::kinds_of;
use crate::one::change_one;
use crate::{Lists, SetAnswer};
use dms_block::BlockFault;
use dms_desc::{Description, Record, Structure};
use std::alloc::Global;

// Whether a structure is a set or automatic subset of a data set.
fn is_over(s: &Structure, set: u16) -> bool
    ensures { result ≡ is_over (shape_of s.now) set }
{
    s.is_set_or_automatic() && s.set == set
}

/// One change of a record of a data set in all its sets and automatic subsets, in number order: the old record's entry
/// is taken out of each, and the new one's put in. Where a set without DUPLICATES has an entry of another record with
/// the new one's owner and key, the call stops there, and the lists are to be forgotten.
///
/// Nothing but the lists of these sets is changed.
///
/// `old` is the record that stands under the number, and `new` the one that is to stand there. Each fits its items,
/// and no set has entries of more than 104 bytes.
pub fn change<L: Lists>(
    lists: &mut L,
    alloc: Global,
    desc: &Description,
    set: u16,
    number: u64,
    old: Option<&Record>,
    new: Option<&Record>,
) -> Result<SetAnswer, BlockFault>
    requires usable { OfStructures (as_described desc.now) (λ s. is_over s set ≡ true → L.usable lists.old s.number) }
    requires old { MayEnter (as_described desc.now) set (option_copied old) }
    requires new { MayEnter (as_described desc.now) set (option_copied new) }
    ensures kept { IfOk result (KeepsListed (as_described desc.now) set number (option_copied old.entry) (option_copied new.entry) (L.listed lists.old) (L.listed lists.new)) }
    ensures usable { OnOk result ((n : ℕ) → L.usable lists.old n → L.usable lists.new n) }
    ensures calm { OnOk result (L.calm (has_number (as_described desc.now).structures set) (2 * length desc.now.structures) lists.old lists.new) }
    ensures fails { IfErr result (λ e. L.fails e (2 * length desc.now.structures) lists.old lists.new) }
    ensures below { IfErr result (λ e. IfJudged (as_described desc.now) set number (option_copied old.entry) (option_copied new.entry) (L.listed lists.old) (λ db. L.below e lists.old lists.new)) }
{
    let kinds = kinds_of(alloc, desc.items_of(set))?;
    for s in desc.structures.as_slice() {
        if is_over(s, set) {
            if change_one(lists, alloc, s, kinds.as_slice(), number, old, new)? {
                return Ok(SetAnswer::Duplicate(s.number));
            }
        }
    }
    Ok(SetAnswer::Done)
}
