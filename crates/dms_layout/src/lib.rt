//! Slots of data set files: the bytes of a record with its owner and counts.
#![tactic(auto)]

mod judging;
mod laws;
mod reading;
mod slot;
#[cfg(test)]
mod tests;
mod writing;

pub use judging::{is_bad_slot, is_free_slot, is_raw_slot};
pub use laws::{range_law, reading_law, spelling_law};
pub use reading::{from_slot, raw_slot};
pub use slot::{Slot, SlotRead};
pub use writing::{slot_width, to_slot};
