//! ROLLBACK, REBUILD and RECONSTRUCT over a site: the database goes back to a point, it or rows of it are made again from a dump, and that is said.
#![tactic(auto)]

mod going_back;
mod looking;
mod reconstructing;
mod restoring;

pub use going_back::{rebuild_over, rollback_over};
pub use reconstructing::reconstruct_over;
