//! The database that the blocks of structure files spell, and what the files of one are.
#![tactic(auto)]

mod laws;

pub use laws::{room_law, spelling_law};
