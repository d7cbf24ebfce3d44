//! Blocks of entries and free blocks, in chains.
#![tactic(auto)]

mod order;
mod reading;
mod spelling;
mod writing;

pub use order::{entry_at, is_rising, lead, stands_at};
pub use reading::{read_free, read_head, read_leaf};
pub use spelling::{
    LeafBlock, ListHead, cut, free_block, free_of, head_block, head_of, leaf_block, leaf_of,
    leaf_with, u16_in, u32_in,
};
pub use writing::write_two;
