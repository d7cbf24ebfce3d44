ghost use Rattle.std.specs.Prelude.{◌≡◌, ◌+◌, ◌≤◌, ◌<◌, OnErr, OnOk, IsErrOf, IsTrue, length, max};
ghost use Rattle.dms_block.specs.Content.{limit, raise_count, with_block};
ghost use Rattle.dms_block.specs.View.{overlay_content, seen_counts, under, overlay_changes};
ghost use Rattle.dms_chain.specs.Changed.{IfSeen};

use dms_block::{Block, BlockFault, BlockId, Blocks, Overlay};

/// Writes the head, and another block.
pub fn write_two<B: Blocks>(
    over: &mut Overlay<B>,
    file: u32,
    head: &Block,
    number: u32,
    block: &Block,
) -> Result<(), BlockFault>
    requires owned { IsTrue ((under over.old).owns file) }
    requires low { number < limit }
    requires near { number ≤ max (seen_counts over.old file) 1 }
    ensures below { over.new.below ≡ over.old.below }
    ensures seen { OnOk result (IfSeen over.old (overlay_content over.new ≡ with_block (with_block (overlay_content over.old) file 0 head.now.0) file number block.now.0)) }
    ensures counts { OnOk result (seen_counts over.new ≡ raise_count (raise_count (seen_counts over.old) file 0) file number) }
    ensures more { length (overlay_changes over.new) ≤ length (overlay_changes over.old) + 2 }
    ensures memory { OnErr result (IsErrOf result BlockFault.Memory) }
{
    over.write(BlockId { file, block: 0 }, head)?;
    over.write(
        BlockId {
            file,
            block: number,
        },
        block,
    )
}
