//! Rollback, rebuild and reconstruction: what a statement wants of a database is judged, planned and carried out.
#![tactic(auto)]

mod carrying;
mod cutting;
mod finding;
mod looking;
mod naming;
mod planning;
mod reconstructing;
mod recovering;
mod restoring;
mod rows;
mod wanted;

pub use looking::{PlannedRestore, look_for};
pub use naming::ReconstructFault;
pub use reconstructing::{PlannedRows, plan_rows, reconstruct};
pub use restoring::{Recovered, rebuild, roll_back};
pub use wanted::Wanted;
