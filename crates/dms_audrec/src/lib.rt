//! Entries of the audit as bytes: each has one spelling, and none is a prefix of another.
#![tactic(auto)]

mod entry;
pub mod laws;
mod pairs;
mod reading;
mod writing;

pub use entry::{BeginHow, Entry};
pub use pairs::{counts_rise, pair_at};
pub use reading::decode;
pub use writing::{encode, length};
