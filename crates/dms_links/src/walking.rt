ghost use Rattle.std.specs.Prelude.{◌≡◌, ◌≤◌, ◌+◌, ◌*◌, ◌++◌, ◌&&◌, IfOk, IsTrue, false, length, min, slice_get};
ghost use Rattle.std.specs.Option.{option_copied};
ghost use Rattle.dms_block.specs.Held.{HasCausesOr};
ghost use Rattle.dms_block.specs.View.{ReadsOverlay, overlay_content, seen_counts, under};
ghost use Rattle.dms_desc.specs.Conds.{or_null};
ghost use Rattle.dms_desc.specs.Files.{file_of};
ghost use Rattle.dms_desc.specs.Shape.{as_described, shape_of};
ghost use Rattle.dms_layout.specs.Slots.{slot_width};
ghost use Rattle.dms_links.specs.Linking.{has_link_into, is_walked, linking_at, linking_in, linking_of, linking_slot, linking_slots, walked_most, walked_of};
ghost use Rattle.dms_links.specs.Walked.{BadSet, BadWalk, HaveSlots};
ghost use Rattle.dms_model.specs.Uses.{is_link_into, refers_to, some_link};
ghost use Rattle.dms_slots.specs.Seen.{BadIn};
ghost use Rattle.dms_slots.specs.SlotBlocks.{per_block, slot_opt};

use dms_base::{ItemKind, Memory, Value};
use dms_block::{BlockFault, Blocks, Overlay};
use dms_desc::{Description, Item, Structure, file_of};
use dms_layout::Slot;
use dms_slots::{per_block, read_slot};
use std::alloc::Global;

/// Whether an item of this kind is a self-correcting link into a data set.
pub(crate) fn is_link_into(kind: ItemKind, to: u16) -> bool
    ensures { result ≡ is_link_into false to kind }
{
    match kind {
        ItemKind::Link(set, counted) => set == to && !counted,
        _ => false,
    }
}

// Whether a record of these items may have such a link.
fn has_link_into(items: &[Item], to: u16) -> bool
    ensures { result ≡ has_link_into to items.now }
{
    for item in items {
        if is_link_into(item.kind, to) {
            return true;
        }
    }
    false
}

/// Whether a value refers to the record with this number.
pub(crate) fn refers_to(value: Option<&Value>, number: u64) -> bool
    ensures { result ≡ refers_to number (or_null (option_copied value.entry)) }
{
    match value {
        Some(Value::Link(n)) => *n == number,
        _ => false,
    }
}

// Whether an item and its value are a self-correcting link to a record.
fn links_at(item: &Item, value: Option<&Value>, to: u16, number: u64) -> bool
    ensures { result ≡ (is_link_into false to item.now.kind && refers_to number (or_null (option_copied value.entry))) }
{
    is_link_into(item.kind, to) && refers_to(value, number)
}

/// A value, where there is one.
pub(crate) fn value_at(values: &[Value], k: usize) -> Option<&Value>
    ensures { option_copied result ≡ slice_get values.now k }
{
    values.get(k)
}

// Whether these values have a self-correcting link to a record.
fn links(items: &[Item], values: &[Value], to: u16, number: u64) -> bool
    ensures { result ≡ some_link false to number 0 items.now values.now }
{
    for (k, item) in items.iter().enumerate() {
        if links_at(item, value_at(values, k), to, number) {
            return true;
        }
    }
    false
}

// How many slots of a data set's file may have a record: those that there are, up to POPULATION.
fn slot_count<B: Blocks>(over: &Overlay<B>, s: &Structure) -> u64
    requires few { length s.now.items ≤ 60 }
    ensures { result ≡ min (seen_counts over.now (file_of s.now.number) * per_block s.now.items) s.now.population }
{
    let slots = u64::from(over.count(file_of(s.number))) * per_block(s) as u64;
    slots.min(u64::from(s.population))
}

// Adds the place of a slot to those that were found, where its record has a self-correcting link to a record.
fn note_linking(
    found: Vec<(u16, u64)>,
    s: &Structure,
    to: u16,
    number: u64,
    at: u64,
    slot: Option<Slot>,
) -> Result<Vec<(u16, u64)>, Memory>
    ensures { IfOk result (λ v. v.items ≡ found.items ++ linking_at s.now.number s.now.items to number at (slot_opt slot)) }
{
    let mut found = found;
    if let Some(slot) = slot {
        if links(s.items.as_slice(), slot.rec.values.as_slice(), to, number) {
            found.push((s.number, at))?;
        }
    }
    Ok(found)
}

// Reads a slot, and adds its place where its record links so.
fn note_slot<B: Blocks>(
    over: &mut Overlay<B>,
    alloc: Global,
    s: &Structure,
    to: u16,
    number: u64,
    at: u64,
    found: Vec<(u16, u64)>,
) -> Result<Vec<(u16, u64)>, BlockFault>
    requires sound { (under over.old).sound }
    requires few { length s.now.items ≤ 60 }
    requires fits { slot_width s.now.items ≤ 1024 }
    requires low { 1 ≤ at }
    ensures found { IfOk result (λ v. IsTrue (under over.old).told → v.items ≡ found.items ++ linking_slot to number (overlay_content over.old) (shape_of s.now) at) }
    ensures reads { ReadsOverlay 1 result over.old over.new }
    ensures causes { HasCausesOr (BadIn (shape_of s.now) over.old) result (under over.old) (under over.new) }
{
    match read_slot(over, alloc, s, at) {
        Err(e) => Err(e),
        Ok(slot) => match note_linking(found, s, to, number, at, slot) {
            Err(_memory) => Err(BlockFault::Memory),
            Ok(more) => Ok(more),
        },
    }
}

// Adds the places of the slots of a data set whose record links so.
fn linking_slots<B: Blocks>(
    over: &mut Overlay<B>,
    alloc: Global,
    s: &Structure,
    to: u16,
    number: u64,
    before: Vec<(u16, u64)>,
) -> Result<Vec<(u16, u64)>, BlockFault>
    requires sound { (under over.old).sound }
    requires few { length s.now.items ≤ 60 }
    requires fits { slot_width s.now.items ≤ 1024 }
    ensures found { IfOk result (λ v. IsTrue (under over.old).told → v.items ≡ before.items ++ linking_slots to number (overlay_content over.old) (shape_of s.now)) }
    ensures reads { ReadsOverlay s.now.population result over.old over.new }
    ensures causes { HasCausesOr (BadIn (shape_of s.now) over.old) result (under over.old) (under over.new) }
{
    let mut found = before;
    let count = slot_count(over, s);
    for i in 0..count {
        match note_slot(over, alloc, s, to, number, i + 1, found) {
            Err(e) => return Err(e),
            Ok(more) => {
                found = more;
            }
        }
    }
    Ok(found)
}

// Whether a data set has items for self-correcting links into this one.
#[tactic(auto, using(dms_desc::specs::Numbered::above_none))]
fn is_walked(s: &Structure, to: u16) -> bool
    ensures { result ≡ is_walked to (shape_of s.now) }
{
    s.is_data_set() && has_link_into(s.items.as_slice(), to)
}

// Adds the places of the slots of one structure, where it is a data set with items for such links.
fn linking_set<B: Blocks>(
    over: &mut Overlay<B>,
    alloc: Global,
    s: &Structure,
    to: u16,
    number: u64,
    found: Vec<(u16, u64)>,
) -> Result<Vec<(u16, u64)>, BlockFault>
    requires sound { (under over.old).sound }
    requires few { length s.now.items ≤ 60 }
    requires fits { slot_width s.now.items ≤ 1024 }
    ensures found { IfOk result (λ v. IsTrue (under over.old).told → v.items ≡ found.items ++ linking_of to number (overlay_content over.old) (shape_of s.now)) }
    ensures reads { ReadsOverlay (walked_of to (shape_of s.now)) result over.old over.new }
    ensures causes { HasCausesOr (BadSet to (shape_of s.now) over.old) result (under over.old) (under over.new) }
{
    if !is_walked(s, to) {
        return Ok(found);
    }
    linking_slots(over, alloc, s, to, number, found)
}

/// The records whose self-correcting link refers to a record, by data set and number.
///
/// It reads the slots of those data sets that have an item for self-correcting links into the record's own, and no
/// others: nothing leads from a record to them.
pub fn linkers<B: Blocks>(
    over: &mut Overlay<B>,
    alloc: Global,
    desc: &Description,
    set: u16,
    number: u64,
) -> Result<Vec<(u16, u64)>, BlockFault>
    requires sound { (under over.old).sound }
    requires slots { HaveSlots (as_described desc.now) }
    ensures found { IfOk result (λ v. IsTrue (under over.old).told → v.items ≡ linking_in set number (overlay_content over.old) (as_described desc.now).structures) }
    ensures reads { ReadsOverlay (walked_most set (as_described desc.now).structures) result over.old over.new }
    ensures causes { HasCausesOr (BadWalk (as_described desc.now) set over.old) result (under over.old) (under over.new) }
{
    let mut found = Vec::new(alloc);
    for s in desc.structures.as_slice() {
        match linking_set(over, alloc, s, set, number, found) {
            Err(e) => return Err(e),
            Ok(more) => {
                found = more;
            }
        }
    }
    Ok(found)
}
