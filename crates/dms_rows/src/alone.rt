//! What one row keeps by itself.

ghost use Rattle.std.specs.Prelude.{◌≡◌, ◌≤◌, IfOk, length, take, drop};
ghost use Rattle.dms_desc.specs.Shape.{shape_of};
ghost use Rattle.dms_slots.specs.SlotBlocks.{per_block};
ghost use Rattle.dms_rows.specs.Alone.{first_alone, keeps_alone, required_kept};
ghost use Rattle.dms_rows.specs.Rows.{raw_chunks};

use crate::rows::{ahead, behind, bytes_of, width_of};
use dms_base::{Memory, Value};
use dms_block::Block;
use dms_desc::{Item, Structure, is_null, meets, values_fit};
use dms_layout::{SlotRead, raw_slot};
use dms_slots::per_block;
use std::alloc::Global;

/// Whether no value is null that is REQUIRED.
fn required_kept(items: &[Item], values: &[Value]) -> bool
    ensures { result ≡ required_kept items.now values.now }
{
    let mut rest = values;
    for item in items {
        match rest {
            [] => return true,
            [value, more @ ..] => {
                if item.required && is_null(value) {
                    return false;
                }
                rest = more;
            }
        }
    }
    true
}

/// Whether the values of a row fit, are there where REQUIRED, and meet VERIFY.
fn keeps_alone(s: &Structure, read: &SlotRead) -> bool
    ensures { result ≡ keeps_alone (shape_of s.now) read.now }
{
    match read {
        SlotRead::Used(slot) => {
            let items = s.items.as_slice();
            let values = slot.rec.values.as_slice();
            values_fit(items, values) && required_kept(items, values) && meets(&s.cond, values)
        }
        _ => true,
    }
}

/// The place of a block's first row that doesn't keep what it must by itself, from 0.
pub fn first_alone(alloc: Global, s: &Structure, block: &Block) -> Result<Option<usize>, Memory>
    requires few { length s.now.items ≤ 60 }
    ensures { IfOk result (λ o. o ≡ first_alone (shape_of s.now) 0 (raw_chunks (shape_of s.now) (per_block s.now.items) block.now.0)) }
{
    let width = width_of(s);
    let mut rest = bytes_of(block);
    for place in 0..per_block(s) {
        let read = raw_slot(alloc, s, ahead(rest, width))?;
        if !keeps_alone(s, &read) {
            return Ok(Some(place));
        }
        rest = behind(rest, width);
    }
    Ok(None)
}
