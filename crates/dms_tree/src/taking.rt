ghost use Rattle.std.specs.Prelude.{◌≡◌, ◌+◌, ◌≤◌, ◌<◌, IfOk, IsTrue, length, max};
ghost use Rattle.dms_block.specs.Content.{limit};
ghost use Rattle.dms_block.specs.Held.{HasCausesOr};
ghost use Rattle.dms_block.specs.View.{ReadsOverlay, seen_counts, under};
ghost use Rattle.dms_chain.specs.Seen.{look};
ghost use Rattle.dms_tree.specs.LeafCuts.{AreTaken};
ghost use Rattle.dms_tree.specs.Settles.{IsTaken};
ghost use Rattle.dms_tree.specs.Takings.{NoFreeFrom};
ghost use Rattle.dms_tree.specs.Ups.{Follow, end_after};

use dms_block::{BlockFault, Blocks, Overlay};
use dms_chain::read_free;
use std::alloc::Global;

/// A block that is taken, the first free one behind it, and how many blocks the file has then.
#[derive(Clone, Copy)]
pub struct TakenBlock {
    pub number: u32,
    pub free: u32,
    pub end: u32,
}

/// Blocks that are taken, and the first free one behind them.
#[derive(Drop)]
pub struct TakenBlocks {
    pub fresh: Vec<u32>,
    pub free: u32,
}

/// Takes the first free block, or else the one at the end of so many.
pub fn take_block<B: Blocks>(
    over: &mut Overlay<B>,
    alloc: Global,
    file: u32,
    free: u32,
    end: u32,
) -> Result<TakenBlock, BlockFault>
    requires sound { (under over.old).sound }
    requires some { (free ≡ 0 → ⊥) → 0 < seen_counts over.old file }
    requires room { end < limit }
    requires enough { seen_counts over.old file ≤ end }
    ensures taken { IfOk result (λ t. IsTrue (under over.old).told → IsTaken (look over.old file) end free t.number t.free t.end) }
    ensures near { IfOk result (λ t. t.number ≤ end) }
    ensures end { IfOk result (λ t. t.end ≡ max end (t.number + 1)) }
    ensures reads { ReadsOverlay 1 result over.old over.new }
    ensures causes { HasCausesOr (NoFreeFrom over.old file free) result (under over.old) (under over.new) }
{
    if free == 0 {
        return Ok(TakenBlock {
            number: end,
            free: 0,
            end: end + 1,
        });
    }
    match read_free(over, alloc, file, free) {
        Ok(next) => Ok(TakenBlock {
            number: free,
            free: next,
            end,
        }),
        Err(fault) => Err(fault),
    }
}

/// Takes so many blocks: free ones first, and else new ones at the file's end.
pub fn take_blocks<B: Blocks>(
    over: &mut Overlay<B>,
    alloc: Global,
    file: u32,
    free: u32,
    needed: usize,
) -> Result<TakenBlocks, BlockFault>
    requires sound { (under over.old).sound }
    requires some { 0 < seen_counts over.old file }
    requires room { seen_counts over.old file + needed ≤ limit }
    ensures taken { IfOk result (λ t. IsTrue (under over.old).told → AreTaken (look over.old file) (seen_counts over.old file) free t.fresh.items t.free (end_after (seen_counts over.old file) t.fresh.items)) }
    ensures follow { IfOk result (λ t. Follow (seen_counts over.old file) t.fresh.items) }
    ensures all { IfOk result (λ t. length t.fresh.items ≡ needed) }
    ensures most { IfOk result (λ t. end_after (seen_counts over.old file) t.fresh.items ≤ seen_counts over.old file + needed) }
    ensures reads { ReadsOverlay needed result over.old over.new }
    ensures causes { HasCausesOr (NoFreeFrom over.old file free) result (under over.old) (under over.new) }
{
    let mut fresh = Vec::new(alloc);
    let mut first = free;
    let mut end = over.count(file);
    for _turn in 0..needed {
        match take_block(over, alloc, file, first, end) {
            Ok(taken) => {
                fresh.push(taken.number)?;
                first = taken.free;
                end = taken.end;
            }
            Err(fault) => return Err(fault),
        }
    }
    Ok(TakenBlocks { fresh, free: first })
}
