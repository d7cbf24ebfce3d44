//! Where two rising lists of byte strings differ first.
#![tactic(auto)]

mod laws;

pub use laws::{first_difference_law, twins_law};
