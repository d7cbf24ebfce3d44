//! What in a database disagrees first.
#![tactic(auto)]

mod laws;

pub use laws::{entries_law, rules_law};
