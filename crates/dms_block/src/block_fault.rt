use dms_base::Memory;
use std::alloc::{AllocError, AllocFailed};
use thiserror::Error;

/// Why a call on blocks fails.
#[derive(Clone, Copy, Debug, PartialEq, Eq, Error)]
pub enum BlockFault {
    /// A call of the disk failed.
    #[error("the disk failed")]
    Disk,
    /// Memory was refused.
    #[error("not enough memory")]
    Memory,
    /// The last audit file, of this number, has no room for one more block.
    #[error("the audit is full at file {0}")]
    Full(u32),
    /// A structure file, the first number, ends within a block of it, the second.
    #[error("block {1} of file {0} is damaged")]
    Damaged(u32, u32),
    /// Printing failed.
    #[error("printing failed")]
    Say,
}

impl From<Memory> for BlockFault {
    ghost use Rattle.std.specs.Prelude.{◌≡◌};
    ghost use Rattle.dms_block.specs.declared.block_fault.BlockFault.TheVariants.{Memory};

    ghost from_gives = { λ _ e. e ≡ Memory };

    fn from(_e: Memory) -> BlockFault {
        BlockFault::Memory
    }
}

impl<T: Drop> From<AllocFailed<T>> for BlockFault {
    ghost use Rattle.std.specs.Prelude.{◌≡◌};
    ghost use Rattle.dms_block.specs.declared.block_fault.BlockFault.TheVariants.{Memory};

    ghost from_gives = { λ _ e. e ≡ Memory };

    fn from(_e: AllocFailed<T>) -> BlockFault {
        BlockFault::Memory
    }
}

impl From<AllocError> for BlockFault {
    ghost use Rattle.std.specs.Prelude.{◌≡◌};
    ghost use Rattle.dms_block.specs.declared.block_fault.BlockFault.TheVariants.{Memory};

    ghost from_gives = { λ _ e. e ≡ Memory };

    fn from(_e: AllocError) -> BlockFault {
        BlockFault::Memory
    }
}
