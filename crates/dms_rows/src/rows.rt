ghost use Rattle.std.specs.Prelude.{◌≡◌, ◌≤◌, length, take, drop};
ghost use Rattle.std.specs.List.{list_all};
ghost use Rattle.dms_desc.specs.Shape.{shape_of};
ghost use Rattle.dms_layout.specs.Slots.{is_zero, slot_width};
ghost use Rattle.dms_rows.specs.Rows.{is_row_block};

use dms_block::Block;
use dms_desc::Structure;
use dms_layout::{is_raw_slot, slot_width};
use dms_slots::per_block;

// How many bytes a slot has.
pub(crate) fn width_of(s: &Structure) -> usize
    requires few { length s.now.items ≤ 60 }
    ensures width { result ≡ slot_width s.now.items }
{
    slot_width(s.items.as_slice())
}

// The first bytes; fewer where there are no more.
pub(crate) fn ahead(bytes: &[u8], n: usize) -> &[u8]
    ensures { result.now ≡ take n bytes.now }
{
    &bytes[..n.min(bytes.len())]
}

// The bytes behind the first ones.
pub(crate) fn behind(bytes: &[u8], n: usize) -> &[u8]
    ensures { result.now ≡ drop n bytes.now }
{
    &bytes[n.min(bytes.len())..]
}

fn are_zeros(bytes: &[u8]) -> bool
    ensures { result ≡ list_all is_zero bytes.now }
{
    bytes.iter().all(|byte| *byte == 0)
}

// The bytes of a block: there are 1,024.
pub(crate) fn bytes_of(block: &Block) -> &[u8]
    ensures same { result.now ≡ block.now.0 }
    ensures whole { length result.now ≡ 1024 }
{
    &block.0
}

/// Whether each slot of a block is in the format, whatever the ranges of its values, with zeros behind the last one.
#[tactic(auto, unfolding(crate::specs::Rows::is_row_block))]
pub fn is_row_block(s: &Structure, block: &Block) -> bool
    requires few { length s.now.items ≤ 60 }
    ensures { result ≡ is_row_block (shape_of s.now) block.now.0 }
{
    let width = width_of(s);
    let mut rest = bytes_of(block);
    for _i in 0..per_block(s) {
        if !is_raw_slot(s, ahead(rest, width)) {
            return false;
        }
        rest = behind(rest, width);
    }
    are_zeros(rest)
}
