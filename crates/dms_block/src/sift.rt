ghost use Rattle.std.specs.Prelude.{◌≡◌, ◌≤◌, ◌<◌, IfOk, OnOk, IsErrOf, IsTrue, length, true, false};
ghost use Rattle.dms_block.specs.Content.{FitsIn, TakesUp, differing, differs, counts_after};
ghost use Rattle.dms_block.specs.Held.{HasCauses, Looks};

use crate::{BlockFault, Blocks, Change, Changes};
use std::alloc::Global;

/// Whether a change is of a new block, or isn't what stands below.
fn is_change<B: Blocks>(below: &mut B, alloc: Global, change: &Change) -> Result<bool, BlockFault>
    requires sound { (B.held below.old).sound }
    ensures differs { IfOk result (λ is. IsTrue (B.held below.old).told → is ≡ differs (B.held below.old).content change.now) }
    ensures old { IfOk result (λ is. is ≡ false → change.now.id.block < (B.held below.old).counts change.now.id.file) }
    ensures looks { Looks 1 result (B.held below.old) (B.held below.new) }
    ensures causes { HasCauses result (B.held below.old) (B.held below.new) }
    ensures silent { IsErrOf result BlockFault.Say → ⊥ }
    ensures same { B.same_blocks below.old below.new }
{
    if change.id.block >= below.count(change.id.file) {
        return Ok(true);
    }
    match below.read(alloc, change.id) {
        Ok(block) => Ok(block != change.block),
        Err(fault) => Err(fault),
    }
}

/// Takes up a change that differs from what stands below.
fn take_up<B: Blocks>(
    below: &mut B,
    alloc: Global,
    change: &Change,
    kept: &mut Changes,
) -> Result<(), BlockFault>
    requires sound { (B.held below.old).sound }
    ensures taken { OnOk result (TakesUp (B.held below.old).told (B.held below.old).content (B.held below.old).counts change.now kept.old.items.items kept.new.items.items) }
    ensures looks { Looks 1 result (B.held below.old) (B.held below.new) }
    ensures causes { HasCauses result (B.held below.old) (B.held below.new) }
    ensures silent { IsErrOf result BlockFault.Say → ⊥ }
    ensures same { B.same_blocks below.old below.new }
{
    match is_change(below, alloc, change) {
        Ok(true) => kept.set(change.id, &change.block),
        Ok(false) => Ok(()),
        Err(fault) => Err(fault),
    }
}

/// The changes that differ from what stands below.
pub fn sift<B: Blocks>(
    below: &mut B,
    alloc: Global,
    changes: &Changes,
) -> Result<Changes, BlockFault>
    requires sound { (B.held below.old).sound }
    requires fits { FitsIn changes.now.items.items (B.held below.old).owns (B.held below.old).counts }
    ensures kept { IfOk result (λ kept. IsTrue (B.held below.old).told → kept.items.items ≡ differing (B.held below.old).content changes.now.items.items) }
    ensures counts { IfOk result (λ kept. counts_after kept.items.items (B.held below.old).counts ≡ counts_after changes.now.items.items (B.held below.old).counts) }
    ensures fits { IfOk result (λ kept. FitsIn kept.items.items (B.held below.old).owns (B.held below.old).counts) }
    ensures fewer { IfOk result (λ kept. length kept.items.items ≤ length changes.now.items.items) }
    ensures looks { Looks (length changes.now.items.items) result (B.held below.old) (B.held below.new) }
    ensures causes { HasCauses result (B.held below.old) (B.held below.new) }
    ensures silent { IsErrOf result BlockFault.Say → ⊥ }
    ensures same { B.same_blocks below.old below.new }
{
    let mut kept = Changes::new(alloc);
    for change in &changes.items {
        if let Err(fault) = take_up(below, alloc, change, &mut kept) {
            return Err(fault);
        }
    }
    Ok(kept)
}
