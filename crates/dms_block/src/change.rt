use crate::{Block, BlockId};

/// A block, and what it is to be.
#[derive(Clone, Copy, Debug, PartialEq, Eq)]
pub struct Change {
    pub id: BlockId,
    pub block: Block,
}
