//! Slots of a data set's file, by record number, over any blocks.
#![tactic(auto)]

mod cutting;
mod finding;
mod laws;
#[cfg(test)]
mod tests;
mod writing;

pub use cutting::{is_block, per_block};
pub use finding::{next_free, read_slot, take_least};
pub use laws::{file_law, written_law};
pub use writing::{free_slot, write_slot};
