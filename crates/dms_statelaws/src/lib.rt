//! What a statement leaves of a database, at every moment and at its end, as states that its files stand for.
#![tactic(auto)]

mod laws;

pub use laws::{dump_law, points_law, rebuild_law, reconstruct_law, rollback_law, true_dumps_stay};
