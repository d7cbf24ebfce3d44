//! Blocks of structure files that are looked at and never changed.
#![tactic(auto)]

mod view;

pub use view::{View, ViewFault};
