//! The blocks of a database at its last point, as the plan of its opening gives them.
#![tactic(auto)]

mod laws;

pub use laws::snapshot_law;
