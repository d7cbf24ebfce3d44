//! The bytes of a description.
#![tactic(auto)]

mod checks;
mod conds;
mod finding;
mod input;
mod laws;
mod members;
mod parts;
mod reading;
mod sets;
mod writing;

pub use laws::spelling_law;
pub use reading::{decode, find};
pub use writing::encode;
