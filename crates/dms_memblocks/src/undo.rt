ghost use Rattle.std.specs.Prelude.{◌≡◌, ◌<◌, OnOk, OnErr};
ghost use Rattle.dms_memblocks.specs.Undoing.{old_in, place, put_in, taken_back};

use dms_block::{Block, BlockFault, BlockId, Change};

/// What a change took away.
#[derive(Clone, Copy, Debug, PartialEq, Eq)]
pub struct BlockUndo {
    /// The number of the quiet point to come when the change was made.
    pub point: u64,
    pub id: BlockId,
    /// The block that stood there, none where the change was of a new one.
    pub old: Option<Block>,
}

/// Where a file stands in the list of files.
pub fn place_of(file: u32) -> usize
    ensures { result ≡ place file }
{
    file.saturating_sub(30_001) as usize
}

/// A block of a file is another one, or a new one at its end. Answers Memory alone, where memory for a new block is refused.
pub fn put_block(blocks: &mut Vec<Block>, at: usize, block: &Block) -> Result<(), BlockFault>
    ensures ok { OnOk result (blocks.new.items ≡ put_in at block.now blocks.old.items) }
    ensures err { OnErr result (blocks.new.items ≡ blocks.old.items) }
    ensures memory { OnErr result (result ≡ Err BlockFault.Memory) }
{
    if at < blocks.len() {
        blocks[at] = *block;
        return Ok(());
    }
    match blocks.push(*block) {
        Ok(()) => Ok(()),
        Err(_) => Err(BlockFault::Memory),
    }
}

/// The old block of a file stands again, or the new one is gone.
pub fn restore(blocks: &mut Vec<Block>, at: usize, old: Option<Block>)
    ensures { blocks.new.items ≡ taken_back at old blocks.old.items }
{
    match old {
        None => blocks.truncate(at),
        Some(block) => {
            if at < blocks.len() {
                blocks[at] = block;
            }
        }
    }
}

/// What a change of a block takes away.
pub fn old_of(blocks: &[Block], at: usize) -> Option<Block>
    ensures { result ≡ old_in at blocks.now }
{
    if at < blocks.len() {
        return Some(blocks[at]);
    }
    None
}
