//! Blocks of structure files, why a call on them fails, and changes that are laid over them.
#![tactic(auto)]

mod block;
mod block_fault;
mod blocks;
mod change;
mod changes;
mod lent;
mod overlay;
mod sift;

pub use block::{Block, BlockId};
pub use block_fault::BlockFault;
pub use blocks::Blocks;
pub use change::Change;
pub use changes::Changes;
pub use overlay::Overlay;
