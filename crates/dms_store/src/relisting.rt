//! What storing a record makes of the lists: those of the sets over its data set, and of the manual subsets where an
//! entry names it.

ghost use Rattle.std.specs.Prelude.{◌≡◌, ◌≤◌, ◌<◌, ◌^◌, ◌*◌, true, Some, IfErr, IfOk, IfSome, OnOk, length};
ghost use Rattle.std.specs.Option.{option_copied};
ghost use Rattle.dms_desc.specs.Lookups.{structure_of};
ghost use Rattle.dms_manual.specs.Following.{MadeChanges, MayBeEntered, is_moved};
ghost use Rattle.dms_manual.specs.Naming.{is_manual_over};
ghost use Rattle.dms_model.specs.Strict.{lesser};
ghost use Rattle.dms_model.specs.Valid.{is_data_set};
ghost use Rattle.dms_sets.specs.Keeping.{Calm, EndsInFault, FromBelow, Usable};
ghost use Rattle.dms_sets.specs.Told.{OfStructures};
ghost use Rattle.dms_store.specs.Addressed.{FaultsBelow, FewLists, FitsAt, IfStands, LeavesLists, ListsStay, desc_at, shape_at};
ghost use Rattle.dms_store.specs.Lifted.{IsUsable};
ghost use Rattle.dms_store.specs.PuttingCalls.{WritesFew};
ghost use Rattle.dms_store.specs.PuttingLists.{FewMovesOf, IfMovesOf, MovesOf, set_refusal};

use crate::address::Address;
use dms_block::{BlockFault, Blocks, Overlay};
use dms_desc::Record;
use dms_manual::follow;
use dms_sets::{SetAnswer, change};
use std::alloc::Global;

// The lesser of two numbers, where there are any.
fn lesser(a: Option<u16>, b: Option<u16>) -> Option<u16>
    ensures { result ≡ lesser a b }
{
    match a {
        None => b,
        Some(first) => match b {
            None => Some(first),
            Some(second) => {
                if first <= second {
                    Some(first)
                } else {
                    Some(second)
                }
            }
        },
    }
}

// The set that refuses, and none where all are done.
fn set_refusal(answer: SetAnswer) -> Option<u16>
    ensures { result ≡ set_refusal answer }
{
    match answer {
        SetAnswer::Done => None,
        SetAnswer::Duplicate(set) => Some(set),
    }
}

// Moves the entries of a record that is replaced; the first manual subset that refuses. A new record has none.
fn move_entries<B: Blocks>(
    over: &mut Overlay<B>,
    alloc: Global,
    at: &Address<'_>,
    old: Option<&Record>,
    new: &Record,
) -> Result<Option<u16>, BlockFault>
    requires usable { OfStructures (desc_at at.now) (λ s. is_manual_over s at.now.set.now.number ≡ true → Usable over.old s.number) }
    requires small { at.now.number < 2 ^ 32 }
    requires old { IfSome (option_copied old) (MayBeEntered (desc_at at.now) at.now.set.now.number) }
    requires new { MayBeEntered (desc_at at.now) at.now.set.now.number new.now }
    ensures moved { IfOk result (MovesOf (desc_at at.now) at.now.set.now.number at.now.number (option_copied old.entry) new.now over.old over.new) }
    ensures calm { OnOk result (MadeChanges (λ n. Calm (is_moved (desc_at at.now) at.now.set.now.number) n over.old over.new) (FewMovesOf (desc_at at.now) at.now.set.now.number at.now.number (option_copied old.entry) new.now over.old)) }
    ensures fails { IfErr result (λ e. MadeChanges (λ n. EndsInFault e n over.old over.new) (FewMovesOf (desc_at at.now) at.now.set.now.number at.now.number (option_copied old.entry) new.now over.old)) }
    ensures below { IfErr result (λ e. IfMovesOf (desc_at at.now) at.now.set.now.number at.now.number (option_copied old.entry) new.now over.old (λ db. FromBelow e over.old over.new)) }
{
    match old {
        None => Ok(None),
        Some(old) => follow(over, alloc, at.desc, at.set.number, at.number, old, new),
    }
}

/// Changes the lists of the sets over a data set, and moves the entries of a record that is replaced, all over the
/// blocks. The first structure in number order that refuses the new record; then the lists are to be forgotten.
pub fn change_lists<B: Blocks>(
    over: &mut Overlay<B>,
    alloc: Global,
    at: &Address<'_>,
    old: Option<&Record>,
    new: &Record,
) -> Result<Option<u16>, BlockFault>
    requires usable { IsUsable (desc_at at.now) over.old }
    requires there { structure_of (desc_at at.now) at.now.set.now.number ≡ Some (shape_at at.now) }
    requires set { is_data_set (Some (shape_at at.now)) ≡ true }
    requires small { at.now.number < 2 ^ 32 }
    requires old { IfSome (option_copied old) (FitsAt at.now) }
    requires new { FitsAt at.now new.now }
    ensures writes { WritesFew (FewLists at.now (option_copied old.entry) over.old) result over.old over.new }
    ensures below { IfStands at.now (option_copied old.entry) over.old (λ db. FaultsBelow result over.old over.new) }
    ensures stays { OnOk result (ListsStay (desc_at at.now) over.old over.new) }
    ensures lists { IfOk result (λ o. IfStands at.now (option_copied old.entry) over.old (LeavesLists at.now new.now over.old over.new o)) }
{
    match change(
        over,
        alloc,
        at.desc,
        at.set.number,
        at.number,
        old,
        Some(new),
    ) {
        Err(e) => Err(e),
        Ok(answer) => match move_entries(over, alloc, at, old, new) {
            Err(e) => Err(e),
            Ok(second) => Ok(lesser(set_refusal(answer), second)),
        },
    }
}
