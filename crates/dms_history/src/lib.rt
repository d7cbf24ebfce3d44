//! What an audit trail gives back: the content at each live point, and why a restore that is stopped anywhere gives exactly that.
#![tactic(auto)]

pub mod event;
pub mod laws;

pub use event::{FileCount, Row};
