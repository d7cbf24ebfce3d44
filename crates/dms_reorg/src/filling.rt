//! New sets over data sets that are there.

ghost use Rattle.std.specs.Prelude.{◌≡◌, ◌≤◌, ◌==◌, ℕ, [], false, OnOk, length};
ghost use Rattle.dms_block.specs.Faults.{IfFull};
ghost use Rattle.dms_block.specs.Held.{HasCausesOr};
ghost use Rattle.dms_block.specs.View.{overlay_changes, under};
ghost use Rattle.dms_desc.specs.Shape.{shape_of};
ghost use Rattle.dms_layout.specs.Slots.{slot_width};
ghost use Rattle.dms_sets.specs.Changes.{HasEntry, entry_in};
ghost use Rattle.dms_sets.specs.Keeping.{Usable};
ghost use Rattle.dms_reorg.specs.Damage.{HasCausesSince};
ghost use Rattle.dms_reorg.specs.Filled.{EachHasEntry};
ghost use Rattle.dms_reorg.specs.Filling.{FillDamage, FillsList, FillsSet, HandsDown, PassesDown, PutsIn, RefusedIn, SlotDamage, entry_at};

use dms_base::ItemKind;
use dms_block::{BlockFault, Blocks, Overlay};
use dms_desc::{Record, Structure, file_of};
use dms_sets::change_one;
use dms_slots::{per_block, read_slot};
use std::alloc::Global;

/// Hands down what was written, once that are 32 blocks.
fn hand_down<B: Blocks>(over: &mut Overlay<B>, alloc: Global) -> Result<(), BlockFault>
    requires sound { (under over.old).sound }
    ensures hands { HandsDown result over.old over.new }
    ensures causes { HasCausesOr (λ f b. ⊥) result (under over.old) (under over.new) }
    ensures below { OnOk result (PassesDown over.old over.new) }
    ensures full { IfFull result (λ f. f ≡ (B.pace over.old.below).last) }
{
    if over.changes.as_slice().len() < 32 {
        return Ok(());
    }
    over.finish(alloc)
}

/// Puts a record's entry into the list of a new set, and hands down what was written once that are 32 blocks. `Damaged` of the first block of the set's file where
/// the set refuses the record.
fn enter_record<B: Blocks>(
    over: &mut Overlay<B>,
    alloc: Global,
    s: &Structure,
    kinds: &[ItemKind],
    number: u64,
    rec: &Record,
) -> Result<(), BlockFault>
    requires usable { Usable over.old s.now.number }
    requires fits { HasEntry kinds.now (shape_of s.now) rec.now.values }
    ensures entered { OnOk result (PutsIn kinds.now (shape_of s.now) (entry_in kinds.now (shape_of s.now) number rec.now) over.old over.new) }
    ensures fills { FillsList s.now.number result over.old over.new }
    ensures causes { HasCausesOr (RefusedIn kinds.now (shape_of s.now) rec.now over.old) result (under over.old) (under over.new) }
    ensures below { OnOk result (PassesDown over.old over.new) }
    ensures full { IfFull result (λ f. f ≡ (B.pace over.old.below).last) }
{
    match change_one(over, alloc, s, kinds, number, None, Some(rec)) {
        Err(fault) => Err(fault),
        Ok(true) => Err(BlockFault::Damaged(file_of(s.number), 0)),
        Ok(false) => hand_down(over, alloc),
    }
}

/// Puts the entry of the record in a slot, where one is, into the list of a new set.
fn enter_slot<B: Blocks>(
    over: &mut Overlay<B>,
    alloc: Global,
    t: &Structure,
    s: &Structure,
    kinds: &[ItemKind],
    number: u64,
) -> Result<(), BlockFault>
    requires usable { Usable over.old s.now.number }
    requires few { length t.now.items ≤ 60 }
    requires fits { slot_width t.now.items ≤ 1024 }
    requires number { 1 ≤ number }
    requires entries { EachHasEntry kinds.now (shape_of t.now) (shape_of s.now) }
    ensures entered { OnOk result (PutsIn kinds.now (shape_of s.now) (entry_at kinds.now (shape_of t.now) (shape_of s.now) number over.old) over.old over.new) }
    ensures fills { FillsList s.now.number result over.old over.new }
    ensures causes { HasCausesOr (SlotDamage kinds.now (shape_of t.now) (shape_of s.now) number over.old) result (under over.old) (under over.new) }
    ensures below { OnOk result (PassesDown over.old over.new) }
    ensures full { IfFull result (λ f. f ≡ (B.pace over.old.below).last) }
{
    match read_slot(over, alloc, t, number) {
        Err(fault) => Err(fault),
        Ok(None) => Ok(()),
        Ok(Some(slot)) => enter_record(over, alloc, s, kinds, number, &slot.rec),
    }
}

/// Fills a new set or automatic subset from the slots of the file of its data set. `Damaged` where a block of the data set isn't one, or where the set refuses a record.
pub fn fill_set<B: Blocks>(
    over: &mut Overlay<B>,
    alloc: Global,
    t: &Structure,
    s: &Structure,
    kinds: &[ItemKind],
) -> Result<(), BlockFault>
    requires usable { Usable over.old s.now.number }
    requires few { length t.now.items ≤ 60 }
    requires fits { slot_width t.now.items ≤ 1024 }
    requires entries { EachHasEntry kinds.now (shape_of t.now) (shape_of s.now) }
    requires clean { overlay_changes over.old ≡ [] }
    requires apart { (t.now.number == s.now.number) ≡ false }
    requires population { t.now.population ≤ 1000000 }
    ensures filled { OnOk result (FillsSet kinds.now (shape_of t.now) (shape_of s.now) over.old over.new) }
    ensures clean { OnOk result (overlay_changes over.new ≡ []) }
    ensures fills { FillsList s.now.number result over.old over.new }
    ensures causes { HasCausesSince (FillDamage kinds.now (shape_of t.now) (shape_of s.now) over.old) result (under over.old) (under over.new) }
    ensures full { IfFull result (λ f. f ≡ (B.pace over.old.below).last) }
{
    let last = u64::from(over.count(file_of(t.number))) * per_block(t) as u64;
    for index in 0..last {
        match enter_slot(over, alloc, t, s, kinds, index + 1) {
            Ok(()) => {}
            Err(fault) => return Err(fault),
        }
    }
    over.finish(alloc)
}
