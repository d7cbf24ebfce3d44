ghost use Rattle.std.specs.Prelude.{◌≡◌, ◌≤◌, ◌+◌, [], true, None, Some, IfOk, IfSome, IsTrue};
ghost use Rattle.std.specs.Option.{option_copied};
ghost use Rattle.dms_block.specs.Content.{Content};
ghost use Rattle.dms_block.specs.Faults.{IfFull};
ghost use Rattle.dms_block.specs.View.{under, overlay_changes};
ghost use Rattle.dms_desc.specs.Lookups.{structure_of};
ghost use Rattle.dms_desc.specs.Shape.{Described, as_described, shape_of};
ghost use Rattle.dms_layout.specs.Slots.{SlotFits};
ghost use Rattle.dms_model.specs.Db.{Db};
ghost use Rattle.dms_model.specs.Fitting.{IsDataSet, IsNumber, PutFits, RecordFits};
ghost use Rattle.dms_model.specs.Valid.{is_data_set};
ghost use Rattle.dms_store.specs.Addressed.{AnswersTold, FaultsBelow, FewFound, FewPlaced, FewStored, FitsAt, IfFound, IfPlaced, IfSpelt, JudgesAt, LeavesEntered, LeavesSlots, LeavesStored, LeavesUncounted, MayWrite, NextTold, StandsSound, StoresAt, desc_at, shape_at};
ghost use Rattle.dms_store.specs.Lifted.{IsUsable};
ghost use Rattle.dms_store.specs.Putting.{Answers, FullStored};
ghost use Rattle.dms_store.specs.PuttingCalls.{HandsFew, WritesFew};
ghost use Rattle.dms_store.specs.PuttingLaws.{MayPut, PutsRecord, Replaces, db_put};
ghost use Rattle.dms_spelling.specs.Spelled.{database_in};
ghost use Rattle.dms_store.specs.PuttingEnters.{IfStored};
ghost use Rattle.dms_spelling.specs.Staying.{TakenStay};
ghost use Rattle.dms_spelling.specs.Stands.{StandsFiles};
ghost use Rattle.dms_links.specs.Stands.{tally_of};
ghost use Rattle.dms_store.specs.PuttingOwners.{tally_put};
ghost use Rattle.dms_store.specs.Taken.{AreTakenIn, IfStoredAs, TakesNext};
ghost use Rattle.dms_slots.specs.Seen.{blocks_of};
ghost use Rattle.dms_slots.specs.SlotBlocks.{AreTaken};

use crate::address::Address;
use crate::linking::slot_after;
use crate::owning::count_owner;
use crate::relisting::change_lists;
use dms_block::{BlockFault, Blocks, Overlay};
use dms_desc::{Description, Record, Structure};
use dms_layout::Slot;
use dms_model::Put;
use dms_slots::{next_free, read_slot, write_slot};
use std::alloc::Global;

/// A law: where a content spells a database, and the lists of the sets and manual subsets and the slot of a record are
/// changed, the files are those of the database with what is stored for the record, and each slot counts what it counted;
/// and once the owner of a new record counts it, the content spells that database.
pub fn put_law()
    ensures stands { (desc : Described) (db : Db) (p : Replaces) (c e d : Content) → MayPut desc db p c → PutsRecord desc db p c e d → StandsFiles desc (db_put db p) (tally_of desc db) d }
    ensures spells { (desc : Described) (db : Db) (p : Replaces) (c d : Content) → MayPut desc db p c → StandsFiles desc (db_put db p) (tally_put desc db p) d → database_in desc d ≡ Some (db_put db p) }
{}

// Changes the lists, and writes the slot of what is stored, both over the blocks.
fn write_at<B: Blocks>(
    over: &mut Overlay<B>,
    alloc: Global,
    at: &Address<'_>,
    old: Option<&Record>,
    slot: &Slot,
) -> Result<Put, BlockFault>
    requires place { MayWrite at.now over.old }
    requires sound { StandsSound at.now over.old }
    requires old { IfSome (option_copied old) (FitsAt at.now) }
    requires new { FitsAt at.now slot.now.rec }
    ensures fits { IfOk result (PutFits (desc_at at.now) at.now.set.now.number) }
    ensures enters { WritesFew (FewPlaced at.now (option_copied old.entry) slot.now 1 over.old) result over.old over.new }
    ensures below { IfPlaced at.now (option_copied old.entry) slot.now over.old (λ db o rec. FaultsBelow result over.old over.new) }
    ensures slots { IfOk result (λ p. IfPlaced at.now (option_copied old.entry) slot.now over.old (λ db o rec. LeavesSlots at.now over.new p)) }
    ensures entered { IfOk result (λ p. IfPlaced at.now (option_copied old.entry) slot.now over.old (LeavesUncounted at.now slot.now.rec over.new p)) }
    ensures taken { IfOk result (StoresAt at.now over.old over.new) }
{
    match change_lists(over, alloc, at, old, &slot.rec) {
        Err(e) => Err(e),
        Ok(Some(structure)) => Ok(Put::Duplicate(structure)),
        Ok(None) => match write_slot(over, alloc, at.set, at.number, slot) {
            Err(e) => Err(e),
            Ok(()) => Ok(Put::Stored(at.number)),
        },
    }
}

// The same of a new record, which its owner counts from now on.
fn write_new<B: Blocks>(
    over: &mut Overlay<B>,
    alloc: Global,
    at: &Address<'_>,
    slot: &Slot,
) -> Result<Put, BlockFault>
    requires place { MayWrite at.now over.old }
    requires sound { StandsSound at.now over.old }
    requires new { FitsAt at.now slot.now.rec }
    ensures fits { IfOk result (PutFits (desc_at at.now) at.now.set.now.number) }
    ensures enters { WritesFew (FewPlaced at.now None slot.now 2 over.old) result over.old over.new }
    ensures below { IfPlaced at.now None slot.now over.old (λ db o rec. FaultsBelow result over.old over.new) }
    ensures entered { IfOk result (λ p. IfPlaced at.now None slot.now over.old (LeavesEntered at.now slot.now.rec over.new p)) }
    ensures taken { IfOk result (StoresAt at.now over.old over.new) }
{
    match write_at(over, alloc, at, None, slot) {
        Err(e) => Err(e),
        Ok(Put::Duplicate(set)) => Ok(Put::Duplicate(set)),
        Ok(Put::Full) => Ok(Put::Full),
        Ok(Put::Stored(stored)) => {
            match count_owner(over, alloc, at.desc, at.set.owner, slot.rec.owner) {
                Err(e) => Err(e),
                Ok(false) => Ok(Put::Full),
                Ok(true) => Ok(Put::Stored(stored)),
            }
        }
    }
}

// Stores a record under a number, where this slot stands there.
fn store_at<B: Blocks>(
    over: &mut Overlay<B>,
    alloc: Global,
    at: &Address<'_>,
    old: Option<&Slot>,
    rec: &Record,
) -> Result<Put, BlockFault>
    requires place { MayWrite at.now over.old }
    requires sound { StandsSound at.now over.old }
    requires old { IfSome (option_copied old) (SlotFits (shape_at at.now)) }
    requires new { FitsAt at.now rec.now }
    ensures fits { IfOk result (PutFits (desc_at at.now) at.now.set.now.number) }
    ensures enters { WritesFew (FewFound at.now (option_copied old.entry) over.old) result over.old over.new }
    ensures below { IfFound at.now (option_copied old.entry) over.old (λ db. FaultsBelow result over.old over.new) }
    ensures entered { IfOk result (λ p. IfFound at.now (option_copied old.entry) over.old (LeavesStored at.now (option_copied old.entry) rec.now over.new p)) }
    ensures taken { IfOk result (StoresAt at.now over.old over.new) }
{
    let slot = slot_after(alloc, at.set, old, rec)?;
    match old {
        None => write_new(over, alloc, at, &slot),
        Some(old) => write_at(over, alloc, at, Some(&old.rec), &slot),
    }
}

// What storing a record answers where no number is free: it is judged as if it had the one after POPULATION.
fn judge<B: Blocks>(
    over: &mut Overlay<B>,
    alloc: Global,
    at: &Address<'_>,
    rec: &Record,
) -> Result<Put, BlockFault>
    requires usable { IsUsable (desc_at at.now) over.old }
    requires at { structure_of (desc_at at.now) at.now.set.now.number ≡ Some (shape_at at.now) }
    requires set { is_data_set (Some (shape_at at.now)) ≡ true }
    requires above { at.now.number ≡ at.now.set.now.population + 1 }
    requires new { FitsAt at.now rec.now }
    ensures fits { IfOk result (PutFits (desc_at at.now) at.now.set.now.number) }
    ensures enters { WritesFew (FewStored (desc_at at.now) at.now.set.now.number None over.old) result over.old over.new }
    ensures below { IfSpelt (desc_at at.now) over.old (λ db. FaultsBelow result over.old over.new) }
    ensures judged { IfOk result (λ p. IfSpelt (desc_at at.now) over.old (JudgesAt at.now rec.now p)) }
    ensures unstored { IfOk result (λ p. IfStored p ⊥) }
{
    let slot = slot_after(alloc, at.set, None, rec)?;
    match change_lists(over, alloc, at, None, &slot.rec) {
        Err(e) => Err(e),
        Ok(Some(structure)) => Ok(Put::Duplicate(structure)),
        Ok(None) => Ok(Put::Full),
    }
}

// Stores a new record.
fn put_new<B: Blocks>(
    over: &mut Overlay<B>,
    alloc: Global,
    desc: &Description,
    s: &Structure,
    rec: &Record,
    taken: u64,
) -> Result<Put, BlockFault>
    requires usable { IsUsable (as_described desc.now) over.old }
    requires at { structure_of (as_described desc.now) s.now.number ≡ Some (shape_of s.now) }
    requires set { is_data_set (Some (shape_of s.now)) ≡ true }
    requires new { RecordFits (as_described desc.now) s.now.number rec.now }
    requires known { IsTrue (under over.old).told → AreTaken (shape_of s.now) (blocks_of (shape_of s.now) over.old) taken }
    ensures fits { IfOk result (PutFits (as_described desc.now) s.now.number) }
    ensures enters { WritesFew (FewStored (as_described desc.now) s.now.number None over.old) result over.old over.new }
    ensures below { IfSpelt (as_described desc.now) over.old (λ db. FaultsBelow result over.old over.new) }
    ensures answers { IfOk result (AnswersTold (as_described desc.now) over.old over.new s.now.number None rec.now) }
    ensures taken { IfOk result (NextTold (as_described desc.now) s.now.number None over.old over.new) }
{
    match next_free(over, alloc, s, taken) {
        Err(e) => Err(e),
        Ok(None) => {
            let number = u64::from(s.population) + 1;
            judge(
                over,
                alloc,
                &Address {
                    desc,
                    set: s,
                    number,
                },
                rec,
            )
        }
        Ok(Some(number)) => store_at(
            over,
            alloc,
            &Address {
                desc,
                set: s,
                number,
            },
            None,
            rec,
        ),
    }
}

// Replaces the record with a number.
fn put_old<B: Blocks>(
    over: &mut Overlay<B>,
    alloc: Global,
    at: &Address<'_>,
    rec: &Record,
) -> Result<Put, BlockFault>
    requires usable { IsUsable (desc_at at.now) over.old }
    requires at { structure_of (desc_at at.now) at.now.set.now.number ≡ Some (shape_at at.now) }
    requires set { is_data_set (Some (shape_at at.now)) ≡ true }
    requires low { 1 ≤ at.now.number }
    requires most { at.now.number ≤ at.now.set.now.population }
    requires new { FitsAt at.now rec.now }
    ensures fits { IfOk result (PutFits (desc_at at.now) at.now.set.now.number) }
    ensures enters { WritesFew (FewStored (desc_at at.now) at.now.set.now.number (Some at.now.number) over.old) result over.old over.new }
    ensures below { IfSpelt (desc_at at.now) over.old (λ db. FaultsBelow result over.old over.new) }
    ensures answers { IfOk result (AnswersTold (desc_at at.now) over.old over.new at.now.set.now.number (Some at.now.number) rec.now) }
    ensures taken { IfOk result (StoresAt at.now over.old over.new) }
{
    match read_slot(over, alloc, at.set, at.number) {
        Err(e) => Err(e),
        Ok(None) => Ok(Put::Full),
        Ok(Some(old)) => store_at(over, alloc, at, Some(&old), rec),
    }
}

// Writes what storing a record makes of its data set's blocks, and of the sets, over the blocks.
fn enter<B: Blocks>(
    over: &mut Overlay<B>,
    alloc: Global,
    desc: &Description,
    set: u16,
    number: Option<u64>,
    rec: &Record,
    taken: u64,
) -> Result<Put, BlockFault>
    requires usable { IsUsable (as_described desc.now) over.old }
    requires set { IsDataSet (as_described desc.now) set }
    requires number { IfSome number (IsNumber (as_described desc.now) set) }
    requires fits { RecordFits (as_described desc.now) set rec.now }
    requires known { IsTrue (under over.old).told → AreTakenIn (as_described desc.now) set (under over.old).content taken }
    ensures fits { IfOk result (PutFits (as_described desc.now) set) }
    ensures enters { WritesFew (FewStored (as_described desc.now) set number over.old) result over.old over.new }
    ensures below { IfSpelt (as_described desc.now) over.old (λ db. FaultsBelow result over.old over.new) }
    ensures answers { IfOk result (AnswersTold (as_described desc.now) over.old over.new set number rec.now) }
    ensures taken { IfOk result (NextTold (as_described desc.now) set number over.old over.new) }
{
    match desc.structure(set) {
        None => Ok(Put::Full),
        Some(s) => match number {
            None => put_new(over, alloc, desc, s, rec, taken),
            Some(number) => put_old(
                over,
                alloc,
                &Address {
                    desc,
                    set: s,
                    number,
                },
                rec,
            ),
        },
    }
}

/// Stores a new record of a data set under the least free number, with null links, which its owner counts from then on;
/// or replaces all items but the links of the record with this number, which keeps its owner. What is written reaches the
/// blocks in one call, and only where the record is stored. The first `taken` numbers of the data set are not free: the
/// least free one is searched from there.
pub fn put<B: Blocks>(
    over: &mut Overlay<B>,
    alloc: Global,
    desc: &Description,
    set: u16,
    number: Option<u64>,
    rec: &Record,
    taken: u64,
) -> Result<Put, BlockFault>
    requires usable { IsUsable (as_described desc.now) over.old }
    requires set { IsDataSet (as_described desc.now) set }
    requires number { IfSome number (IsNumber (as_described desc.now) set) }
    requires fits { RecordFits (as_described desc.now) set rec.now }
    requires known { IsTrue (under over.old).told → AreTakenIn (as_described desc.now) set (under over.old).content taken }
    ensures fits { IfOk result (PutFits (as_described desc.now) set) }
    ensures written { overlay_changes over.new ≡ [] }
    ensures hands_down { HandsFew (FewStored (as_described desc.now) set number over.old) result over.old over.new }
    ensures below { IfSpelt (as_described desc.now) over.old (λ db. FaultsBelow result over.old over.new) }
    ensures full { IfFull result (λ f. f ≡ (B.pace over.old.below).last) }
    ensures stored { IsTrue (under over.old).told → FullStored (as_described desc.now) (under over.old).content set number rec.now result }
    ensures answers { IfOk result (λ p. IsTrue (under over.old).told
        → Answers (as_described desc.now) (under over.old).content (under over.new).content set number rec.now p) }
    ensures next { IfOk result (λ p. IsTrue (under over.old).told → IfStoredAs p (TakesNext (as_described desc.now) set number (under over.old).content)) }
    ensures taken { IfOk result (λ p. IsTrue (under over.old).told → TakenStay (as_described desc.now) (under over.old).content (under over.new).content) }
{
    match enter(over, alloc, desc, set, number, rec, taken) {
        Err(e) => {
            over.forget();
            Err(e)
        }
        Ok(Put::Stored(number)) => match over.finish(alloc) {
            Err(e) => Err(e),
            Ok(()) => Ok(Put::Stored(number)),
        },
        Ok(Put::Duplicate(structure)) => {
            over.forget();
            Ok(Put::Duplicate(structure))
        }
        Ok(Put::Full) => {
            over.forget();
            Ok(Put::Full)
        }
    }
}
