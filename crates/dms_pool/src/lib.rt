//! At most so many blocks in memory, in the order of their use.
#![tactic(auto)]

mod frame;
mod pool;
#[cfg(test)]
mod tests;

pub use frame::{BufferFrame, FrameKey};
pub use pool::Pool;
