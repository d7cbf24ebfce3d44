//! Blocks in memory, which tell what a stop would leave of them.
#![tactic(auto)]

mod blocks;
mod files;
mod memory;
mod undo;

pub use memory::MemBlocks;
pub use undo::BlockUndo;

#[cfg(test)]
mod tests;
