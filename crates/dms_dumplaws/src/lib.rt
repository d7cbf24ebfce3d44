//! A law: what a run and each statement make of the dumps of a database.
#![tactic(auto)]

mod laws;

pub use laws::dumps_law;
