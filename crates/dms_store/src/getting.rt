ghost use Rattle.std.specs.Prelude.{◌≡◌, IfOk, IfSome, Some};
ghost use Rattle.std.specs.FinMap.{get};
ghost use Rattle.dms_block.specs.Held.{HasCausesOr};
ghost use Rattle.dms_block.specs.View.{ReadsOverlay, under};
ghost use Rattle.dms_desc.specs.Shape.{as_described, shape_of};
ghost use Rattle.dms_model.specs.Fitting.{IsDataSet, IsNumber, RecordFits, is_number};
ghost use Rattle.dms_model.specs.Stores.{Tells};
ghost use Rattle.dms_slots.specs.SlotBlocks.{slot_opt};
ghost use Rattle.dms_store.specs.Finding.{BadSlot};
ghost use Rattle.dms_store.specs.Lifted.{IsUsable, db_under};
ghost use Rattle.dms_links.specs.Rows.{rec_opt};

use dms_block::{BlockFault, Blocks, Overlay};
use dms_desc::{Description, Record, Structure};
use dms_layout::Slot;
use dms_slots::read_slot;
use std::alloc::Global;

// The record of a slot.
fn record_of(slot: Option<Slot>) -> Option<Record>
    ensures { result ≡ rec_opt (slot_opt slot) }
{
    match slot {
        None => None,
        Some(slot) => Some(slot.rec),
    }
}

// Whether a record of a data set may have this number.
fn is_number(s: &Structure, number: u64) -> bool
    ensures { result ≡ is_number (Some (shape_of s.now)) number }
{
    1 <= number && number <= u64::from(s.population)
}

/// The record of a data set with this number, or none. A number that no record may have is none without a read.
pub fn get<B: Blocks>(
    over: &mut Overlay<B>,
    alloc: Global,
    desc: &Description,
    set: u16,
    number: u64,
) -> Result<Option<Record>, BlockFault>
    requires usable { IsUsable (as_described desc.now) over.old }
    requires set { IsDataSet (as_described desc.now) set }
    ensures found { Tells (db_under (as_described desc.now) over.old) result (λ d. get d.records (set, number)) }
    ensures fits { IfOk result (λ o. IfSome o (RecordFits (as_described desc.now) set)) }
    ensures number { IfOk result (λ o. IfSome o (λ r. IsNumber (as_described desc.now) set number)) }
    ensures reads { ReadsOverlay 1 result over.old over.new }
    ensures causes { HasCausesOr (BadSlot (as_described desc.now) set over.old) result (under over.old) (under over.new) }
{
    match desc.structure(set) {
        None => Ok(None),
        Some(s) => {
            if !is_number(s, number) {
                return Ok(None);
            }
            match read_slot(over, alloc, s, number) {
                Err(e) => Err(e),
                Ok(slot) => Ok(record_of(slot)),
            }
        }
    }
}
