//! Equal keys in a structure that is to be made.

ghost use Rattle.std.specs.Prelude.{◌≡◌, ◌≤◌, ◌*◌, ◌+◌, IfOk, IsTrue, drop, length};
ghost use Rattle.dms_block.specs.Held.{HasCausesOr};
ghost use Rattle.dms_block.specs.View.{ReadsOverlay, under};
ghost use Rattle.dms_desc.specs.Shape.{shape_of};
ghost use Rattle.dms_layout.specs.Slots.{slot_width};
ghost use Rattle.dms_sets.specs.Changes.{entry_in};
ghost use Rattle.dms_slots.specs.Seen.{BadAt, BadIn, blocks_of, count_of};
ghost use Rattle.dms_slots.specs.SlotBlocks.{block_of, per_block, slot_at};
ghost use Rattle.dms_reorg.specs.EqualKeys.{AddsKey, TellsEqual, key_at};
ghost use Rattle.dms_reorg.specs.Extended.{first_values};

use crate::widening::with_values;
use dms_base::{ItemKind, Memory};
use dms_block::{BlockFault, Blocks, Overlay};
use dms_desc::{Item, Record, Structure, Values, file_of};
use dms_sets::record_entry;
use dms_slots::{per_block, read_slot};
use std::alloc::Global;
use std::collections::HashSet;

/// The initial values of the items behind the first so many.
pub fn further_values(alloc: Global, items: &[Item], count: usize) -> Result<Values, Memory>
    ensures { IfOk result (λ v. v ≡ first_values (drop count items.now)) }
{
    let mut values = Values::new(alloc);
    if items.len() < count {
        return Ok(values);
    }
    let further = &items[count..];
    for item in further {
        values.push(item.initial.copy(alloc)?)?;
    }
    Ok(values)
}

/// Puts the owner and the key of a record that a set takes to those that were there: whether they were.
fn has_key(
    keys: &mut HashSet<Vec<u8>>,
    alloc: Global,
    s: &Structure,
    kinds: &[ItemKind],
    rec: &Record,
) -> Result<bool, Memory>
    ensures { IfOk result (λ was. AddsKey (λ k. k.items) (entry_in kinds.now (shape_of s.now) 0 rec.now) keys.old keys.new was) }
{
    match record_entry(alloc, s, kinds, 0, rec)? {
        None => Ok(false),
        Some(bytes) => {
            let key = Vec::from_slice(alloc, bytes.as_slice())?;
            match keys.insert(key) {
                Ok(new) => Ok(!new),
                Err(_) => Err(Memory),
            }
        }
    }
}

/// The same of the record in a slot, where one is, with these values behind its own.
fn slot_has_key<B: Blocks>(
    over: &mut Overlay<B>,
    keys: &mut HashSet<Vec<u8>>,
    alloc: Global,
    t: &Structure,
    s: &Structure,
    kinds: &[ItemKind],
    first: &Values,
    number: u64,
) -> Result<bool, BlockFault>
    requires sound { (under over.old).sound }
    requires few { length t.now.items ≤ 60 }
    requires fits { slot_width t.now.items ≤ 1024 }
    requires number { 1 ≤ number }
    ensures had { IfOk result (λ was. IsTrue (under over.old).told
        → AddsKey (λ k. k.items) (key_at kinds.now (shape_of s.now) first.now (slot_at (shape_of t.now) (blocks_of (shape_of t.now) over.old)) number) keys.old keys.new was) }
    ensures reads { ReadsOverlay 1 result over.old over.new }
    ensures causes { HasCausesOr (BadAt (shape_of t.now) (block_of t.now.items number) over.old) result (under over.old) (under over.new) }
{
    match read_slot(over, alloc, t, number)? {
        None => Ok(false),
        Some(slot) => {
            let wide = with_values(alloc, slot, first)?;
            Ok(has_key(keys, alloc, s, kinds, &wide.rec)?)
        }
    }
}

/// Whether two records of one owner have equal keys in a set or automatic subset over a data set, each record with these values behind its own. The keys of
/// all records are held in memory meanwhile. Nothing changes.
pub fn has_equal_keys<B: Blocks>(
    over: &mut Overlay<B>,
    alloc: Global,
    t: &Structure,
    s: &Structure,
    kinds: &[ItemKind],
    first: &Values,
) -> Result<bool, BlockFault>
    requires sound { (under over.old).sound }
    requires few { length t.now.items ≤ 60 }
    requires fits { slot_width t.now.items ≤ 1024 }
    ensures equal { IfOk result (TellsEqual kinds.now (shape_of t.now) (shape_of s.now) first.now (count_of (shape_of t.now) over.old * per_block t.now.items) over.old) }
    ensures reads { ReadsOverlay (count_of (shape_of t.now) over.old * per_block t.now.items) result over.old over.new }
    ensures causes { HasCausesOr (BadIn (shape_of t.now) over.old) result (under over.old) (under over.new) }
{
    let mut keys = HashSet::new(alloc);
    let last = u64::from(over.count(file_of(t.number))) * per_block(t) as u64;
    for index in 0..last {
        match slot_has_key(over, &mut keys, alloc, t, s, kinds, first, index + 1) {
            Err(fault) => return Err(fault),
            Ok(true) => return Ok(true),
            Ok(false) => {}
        }
    }
    Ok(false)
}
