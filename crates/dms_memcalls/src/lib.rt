//! System calls on a folder in memory, which tell everything, fail where they are told to, and show what a stop may leave.
#![tactic(auto)]

mod crash;
mod disk;
mod event;
mod listing;
mod mem_calls;
mod story;

pub use listing::MemListing;
pub use mem_calls::{MemCalls, MemHandle};
