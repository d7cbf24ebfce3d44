//! When a database that blocks spell is valid.
#![tactic(auto)]

mod laws;

pub use laws::validity_law;
