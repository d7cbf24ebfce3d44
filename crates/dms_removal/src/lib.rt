//! What links and removals make of the blocks of a database: whether a record is in use, a link set, a record removed.
#![tactic(auto)]

mod clearing;
mod linking;
mod removing;
mod taking;
mod using;

pub use linking::link;
pub use removing::remove;
pub use using::in_use;
