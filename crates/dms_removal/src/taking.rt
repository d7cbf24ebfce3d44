ghost use Rattle.std.specs.Prelude.{◌≡◌, ◌+◌, ◌<◌, IsTrue, Some, length, slice_get, true};
ghost use Rattle.std.specs.Option.{option_copied};
ghost use Rattle.dms_block.specs.View.{overlay_content, under};
ghost use Rattle.dms_desc.specs.Conds.{or_null};
ghost use Rattle.dms_desc.specs.Lookups.{structure_of};
ghost use Rattle.dms_desc.specs.Shape.{as_described, shape_of};
ghost use Rattle.dms_links.specs.AlteringIn.{is_slot};
ghost use Rattle.dms_links.specs.Releasing.{uncount_from};
ghost use Rattle.dms_links.specs.Setting.{count_steps, counts_in_kind, target_of};
ghost use Rattle.dms_links.specs.Stepping.{HoldsSets};
ghost use Rattle.dms_links.specs.Taking.{TakesSteps};
ghost use Rattle.dms_links.specs.declared.altering.SlotChange.TheVariants.{Uncounted};
ghost use Rattle.dms_model.specs.Fitting.{RecordFits};
ghost use Rattle.dms_removal.specs.Promises.{TakesOut};
ghost use Rattle.dms_spelling.specs.Ready.{IsReady};
ghost use Rattle.dms_removal.specs.Releasing.{owner_steps, release_steps};
ghost use Rattle.dms_removal.specs.Stripping.{IsUsed, StripsRecord};
ghost use Rattle.dms_removal.specs.Taking.{TakesRecord};
ghost use Rattle.dms_slots.specs.Seen.{count_of};
ghost use Rattle.dms_slots.specs.SlotBlocks.{block_of};

use crate::using::is_slot;
use dms_base::{ItemKind, Value};
use dms_block::{BlockFault, Blocks, Overlay};
use dms_desc::{Description, Item, Record, Structure};
use dms_links::{SlotChange, alter_in};
use dms_sets::{SetAnswer, change};
use dms_slots::{free_slot, read_slot};
use std::alloc::Global;

// The data set whose records count links of this kind, 0 for none.
fn counts_in_kind(kind: ItemKind) -> u16
    ensures { result ≡ counts_in_kind kind }
{
    match kind {
        ItemKind::Link(set, counted) => { if counted { set } else { 0 } }
        _ => 0,
    }
}

// The number to which a value refers.
fn target_of(value: Option<&Value>) -> Option<u64>
    ensures { result ≡ target_of (or_null (option_copied value.entry)) }
{
    match value {
        Some(Value::Link(number)) => Some(*number),
        _ => None,
    }
}

// A value, where there is one.
fn value_at(values: &[Value], k: usize) -> Option<&Value>
    ensures { option_copied result ≡ slice_get values.now k }
{
    values.get(k)
}

// A record counts one link less, where a link refers to it that is counted there. False where its slot isn't changed.
fn uncount_one<B: Blocks>(
    over: &mut Overlay<B>,
    alloc: Global,
    desc: &Description,
    set: u16,
    number: Option<u64>,
) -> Result<bool, BlockFault>
    requires sound { (under over.old).sound }
    requires holds { HoldsSets (as_described desc.now) (under over.old) }
    ensures { TakesSteps (as_described desc.now) (count_steps set number Uncounted) 1 result over.old over.new }
{
    match number {
        None => Ok(true),
        Some(number) => {
            if set == 0 {
                return Ok(true);
            }
            alter_in(over, alloc, desc, set, number, SlotChange::Uncounted)
        }
    }
}

// The records to which the counted links of these values refer count one link less each. False where one of their slots
// isn't changed.
fn uncount<B: Blocks>(
    over: &mut Overlay<B>,
    alloc: Global,
    desc: &Description,
    items: &[Item],
    values: &[Value],
) -> Result<bool, BlockFault>
    requires sound { (under over.old).sound }
    requires holds { HoldsSets (as_described desc.now) (under over.old) }
    ensures { TakesSteps (as_described desc.now) (uncount_from 0 items.now values.now) (length items.now) result over.old over.new }
{
    for (k, item) in items.iter().enumerate() {
        let set = counts_in_kind(item.kind);
        let number = target_of(value_at(values, k));
        match uncount_one(over, alloc, desc, set, number) {
            Err(e) => return Err(e),
            Ok(false) => return Ok(false),
            Ok(true) => {}
        }
    }
    Ok(true)
}

// The owner of a record owns one less. False where its slot isn't changed.
fn disown<B: Blocks>(
    over: &mut Overlay<B>,
    alloc: Global,
    desc: &Description,
    set: u16,
    owner: u64,
) -> Result<bool, BlockFault>
    requires sound { (under over.old).sound }
    requires holds { HoldsSets (as_described desc.now) (under over.old) }
    ensures { TakesSteps (as_described desc.now) (owner_steps set owner) 1 result over.old over.new }
{
    if set == 0 {
        return Ok(true);
    }
    alter_in(over, alloc, desc, set, owner, SlotChange::Disowned)
}

// The records to which a record's counted links refer, and its owner, count it no more.
fn release<B: Blocks>(
    over: &mut Overlay<B>,
    alloc: Global,
    desc: &Description,
    s: &Structure,
    rec: &Record,
) -> Result<bool, BlockFault>
    requires sound { (under over.old).sound }
    requires holds { HoldsSets (as_described desc.now) (under over.old) }
    ensures { TakesSteps (as_described desc.now) (release_steps s.now.items s.now.owner rec.now) (length s.now.items + 1) result over.old over.new }
{
    match uncount(over, alloc, desc, s.items.as_slice(), rec.values.as_slice()) {
        Err(e) => Err(e),
        Ok(false) => Ok(false),
        Ok(true) => disown(over, alloc, desc, s.owner, rec.owner),
    }
}

// Takes a record out of the lists of the sets over its data set, and makes its slot free. False where a set answers that
// it refuses something.
fn strip<B: Blocks>(
    over: &mut Overlay<B>,
    alloc: Global,
    desc: &Description,
    s: &Structure,
    number: u64,
    rec: &Record,
) -> Result<bool, BlockFault>
    requires ready { IsReady (as_described desc.now) over.old }
    requires at { structure_of (as_described desc.now) s.now.number ≡ Some (shape_of s.now) }
    requires one { is_slot (shape_of s.now) number ≡ true }
    requires fits { RecordFits (as_described desc.now) s.now.number rec.now }
    requires there { block_of s.now.items number < count_of (shape_of s.now) over.old }
    requires was { IsTrue (under over.old).told → IsUsed (shape_of s.now) number (overlay_content over.old) }
    ensures { StripsRecord (as_described desc.now) s.now.number number rec.now result over.old over.new }
{
    match change(over, alloc, desc, s.number, number, Some(rec), None) {
        Err(e) => Err(e),
        Ok(SetAnswer::Duplicate(_set)) => Ok(false),
        Ok(SetAnswer::Done) => match free_slot(over, alloc, s, number) {
            Err(e) => Err(e),
            Ok(()) => Ok(true),
        },
    }
}

// Takes this record out, which stands under the number.
fn take_at<B: Blocks>(
    over: &mut Overlay<B>,
    alloc: Global,
    desc: &Description,
    s: &Structure,
    number: u64,
    rec: &Record,
) -> Result<bool, BlockFault>
    requires ready { IsReady (as_described desc.now) over.old }
    requires at { structure_of (as_described desc.now) s.now.number ≡ Some (shape_of s.now) }
    requires one { is_slot (shape_of s.now) number ≡ true }
    requires fits { RecordFits (as_described desc.now) s.now.number rec.now }
    requires there { block_of s.now.items number < count_of (shape_of s.now) over.old }
    requires was { IsTrue (under over.old).told → IsUsed (shape_of s.now) number (overlay_content over.old) }
    ensures { TakesRecord (as_described desc.now) s.now.number number rec.now result over.old over.new }
{
    match strip(over, alloc, desc, s, number, rec) {
        Err(e) => Err(e),
        Ok(false) => Ok(false),
        Ok(true) => release(over, alloc, desc, s, rec),
    }
}

/// Takes a record out that isn't in use, and to which no self-correcting link refers: of the sets, of what the records
/// count to which it refers, and its slot. Where it is false, or an error, what was written is to be forgotten.
pub(crate) fn take_out<B: Blocks>(
    over: &mut Overlay<B>,
    alloc: Global,
    desc: &Description,
    set: u16,
    number: u64,
) -> Result<bool, BlockFault>
    requires ready { IsReady (as_described desc.now) over.old }
    ensures { TakesOut (as_described desc.now) set number result over.old over.new }
{
    match desc.structure(set) {
        None => Ok(false),
        Some(s) => {
            if !is_slot(s, number) {
                return Ok(false);
            }
            match read_slot(over, alloc, s, number) {
                Err(e) => Err(e),
                Ok(None) => Ok(false),
                Ok(Some(slot)) => take_at(over, alloc, desc, s, number, &slot.rec),
            }
        }
    }
}
