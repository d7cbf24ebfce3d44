//! The row at a place of a block.

ghost use Rattle.std.specs.Prelude.{◌≡◌, ◌≤◌, ◌<◌, IfOk, length, slice_get};
ghost use Rattle.dms_desc.specs.Shape.{shape_of};
ghost use Rattle.dms_layout.specs.Slots.{slot_width};
ghost use Rattle.dms_rows.specs.Rows.{raw_chunks};
ghost use Rattle.dms_slots.specs.SlotBlocks.{or_free, per_block};

use crate::rows::{ahead, behind, bytes_of, width_of};
use dms_base::Memory;
use dms_block::Block;
use dms_desc::Structure;
use dms_layout::{SlotRead, raw_slot};
use std::alloc::Global;

/// What the slot at a place of a block says, the first one at place 0.
pub fn row_in(alloc: Global, s: &Structure, block: &Block, place: usize) -> Result<SlotRead, Memory>
    requires few { length s.now.items ≤ 60 }
    requires fits { slot_width s.now.items ≤ 1024 }
    requires place { place < per_block s.now.items }
    ensures { IfOk result (λ r. r ≡ or_free (slice_get (raw_chunks (shape_of s.now) (per_block s.now.items) block.now.0) place)) }
{
    let width = width_of(s);
    let rest = behind(bytes_of(block), place * width);
    raw_slot(alloc, s, ahead(rest, width))
}
