use dms_block::{Block, BlockId};

/// A block in memory, and whether it is still to be written.
#[derive(Clone, Copy, Debug, PartialEq, Eq)]
pub struct BufferFrame {
    pub block: Block,
    pub dirty: bool,
}

/// Which block a frame holds, as the cache looks it up.
#[derive(Clone, Copy, Debug, PartialEq, Eq, Hash)]
pub struct FrameKey {
    pub file: u32,
    pub block: u32,
}

impl FrameKey {
    ghost use Rattle.std.specs.Prelude.{◌≡◌};
    ghost use Rattle.dms_pool.specs.Entries.{id_of, key_of};

    /// The key of a block.
    pub fn of(id: BlockId) -> FrameKey
        ensures { result ≡ key_of id }
    {
        FrameKey {
            file: id.file,
            block: id.block,
        }
    }

    /// The block of this key.
    pub fn id(self) -> BlockId
        ensures { result ≡ id_of self }
    {
        BlockId {
            file: self.file,
            block: self.block,
        }
    }
}
