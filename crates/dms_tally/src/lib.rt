//! Laws of what a record's slot counts: counted links to the record, and what it owns.
#![tactic(auto)]

mod laws;

pub use laws::{entry_law, in_use_law, link_law, removal_law, standing_law};
