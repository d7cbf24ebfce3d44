ghost use Rattle.std.specs.Prelude.{◌≡◌, ◌+◌, ◌≤◌, ◌<◌, IfOk, OnErr, OnOk, IsErrOf, IsTrue, length, max};
ghost use Rattle.dms_block.specs.Content.{limit, raise_count, with_block};
ghost use Rattle.dms_block.specs.Held.{HasCausesOr};
ghost use Rattle.dms_block.specs.View.{ReadsOverlay, overlay_content, seen_counts, under, overlay_changes};
ghost use Rattle.dms_chain.specs.ListBlocks.{free_in};
ghost use Rattle.dms_chain.specs.Changed.{IfSeen};
ghost use Rattle.dms_ordlist.specs.ListCalls.{TakesBlock, with_head};
ghost use Rattle.dms_chain.specs.Seen.{NotAt};

use dms_block::{Block, BlockFault, BlockId, Blocks, Overlay};
use dms_chain::{ListHead, head_block, read_free};
use std::alloc::Global;

/// The number of the block that is taken next, and that of the first free one behind it.
pub fn next_free<B: Blocks>(
    over: &mut Overlay<B>,
    alloc: Global,
    file: u32,
    head: ListHead,
) -> Result<(u32, u32), BlockFault>
    requires sound { (under over.old).sound }
    ensures taken { IfOk result (λ t. TakesBlock file head.free over.old t.0 t.1) }
    ensures near { IfOk result (λ t. t.0 ≤ max (seen_counts over.old file) 1) }
    ensures reads { ReadsOverlay 1 result over.old over.new }
    ensures causes { HasCausesOr (λ f b. (head.free ≡ 0 → ⊥) × NotAt free_in over.old file head.free f b) result (under over.old) (under over.new) }
{
    let count = over.count(file);
    if count == 0 {
        return Ok((1, 0));
    }
    if head.free == 0 {
        return Ok((count, 0));
    }
    match read_free(over, alloc, file, head.free) {
        Ok(next) => Ok((head.free, next)),
        Err(fault) => Err(fault),
    }
}

/// Writes the head, and another block.
pub fn write_two<B: Blocks>(
    over: &mut Overlay<B>,
    file: u32,
    head: ListHead,
    number: u32,
    block: &Block,
) -> Result<(), BlockFault>
    requires owned { IsTrue ((under over.old).owns file) }
    requires low { number < limit }
    requires near { number ≤ max (seen_counts over.old file) 1 }
    ensures below { over.new.below ≡ over.old.below }
    ensures seen { OnOk result (IfSeen over.old (overlay_content over.new ≡ with_block (with_head file head.first head.free (overlay_content over.old)) file number block.now.0)) }
    ensures counts { OnOk result (seen_counts over.new ≡ raise_count (raise_count (seen_counts over.old) file 0) file number) }
    ensures more { length (overlay_changes over.new) ≤ length (overlay_changes over.old) + 2 }
    ensures memory { OnErr result (IsErrOf result BlockFault.Memory) }
{
    dms_chain::write_two(over, file, &head_block(head), number, block)
}

/// Writes the head, and two other blocks; the second one is one of the file's already.
pub fn write_three<B: Blocks>(
    over: &mut Overlay<B>,
    file: u32,
    head: ListHead,
    number: u32,
    block: &Block,
    other: u32,
    changed: &Block,
) -> Result<(), BlockFault>
    requires owned { IsTrue ((under over.old).owns file) }
    requires low { number < limit }
    requires near { number ≤ max (seen_counts over.old file) 1 }
    requires other_low { other < limit }
    requires other_there { other < seen_counts over.old file }
    ensures below { over.new.below ≡ over.old.below }
    ensures seen { OnOk result (IfSeen over.old (overlay_content over.new ≡ with_block (with_block (with_head file head.first head.free (overlay_content over.old)) file number block.now.0) file other changed.now.0)) }
    ensures counts { OnOk result (seen_counts over.new ≡ raise_count (raise_count (raise_count (seen_counts over.old) file 0) file number) file other) }
    ensures more { length (overlay_changes over.new) ≤ length (overlay_changes over.old) + 3 }
    ensures memory { OnErr result (IsErrOf result BlockFault.Memory) }
{
    write_two(over, file, head, number, block)?;
    over.write(BlockId { file, block: other }, changed)
}
