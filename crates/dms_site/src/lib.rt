//! The outside of the database: files by number, a text output, an input, and what a stop may leave of them.
#![tactic(auto)]

mod durable;
mod lent;
mod site;
mod source;

pub use durable::{cut_synced, write_synced};
pub use site::{Failed, Site};
pub use source::Source;
