ghost use Rattle.std.specs.Prelude.{◌≡◌, ◌<◌, List, IfOk, IsTrue};
ghost use Rattle.dms_block.specs.Held.{HasCausesOr};
ghost use Rattle.dms_block.specs.View.{ReadsOverlay, seen_counts, under};
ghost use Rattle.dms_chain.specs.Linked.{BlockChain, front};
ghost use Rattle.dms_chain.specs.ListBlocks.{leaf_in};
ghost use Rattle.dms_chain.specs.ListIn.{Leaf};
ghost use Rattle.dms_ordlist.specs.Places.{IsPlace, PlaceHolds, number_of};
ghost use Rattle.dms_chain.specs.Seen.{IsListWidth, NoChain, look};

use crate::place::{ListPlace, NumberedLeaf};
use dms_block::{BlockFault, Blocks, Overlay};
use dms_chain::{lead, read_leaf};
use std::alloc::Global;

/// The number of a block, 0 where it is none.
fn number_of(spot: &Option<NumberedLeaf>) -> u32
    ensures { result ≡ number_of spot.now }
{
    match spot {
        Some(spot) => spot.number,
        None => 0,
    }
}

/// The block where bytes belong in the chain from a block on: the first one with an entry that isn't less, else the
/// last one.
pub fn reach<B: Blocks>(
    over: &mut Overlay<B>,
    alloc: Global,
    file: u32,
    width: usize,
    first: u32,
    bytes: &[u8],
) -> Result<ListPlace, BlockFault>
    requires sound { (under over.old).sound }
    requires width { IsListWidth width }
    requires some { 0 < first }
    requires there { 0 < seen_counts over.old file }
    ensures place { IfOk result (λ p. IsTrue (under over.old).told → (ls : List Leaf) → BlockChain (leaf_in width) (look over.old file) ls 0 → front ls 0 ≡ first → IsPlace bytes.now ls p) }
    ensures holds { IfOk result (λ p. PlaceHolds width (seen_counts over.old file) p) }
    ensures reads { ReadsOverlay (seen_counts over.old file) result over.old over.new }
    ensures causes { HasCausesOr (NoChain width over.old file first) result (under over.old) (under over.new) }
{
    let count = over.count(file);
    let mut before = None;
    let mut at = first;
    for _turn in 0..count {
        let leaf = match read_leaf(over, alloc, file, width, number_of(&before), at) {
            Ok(leaf) => leaf,
            Err(fault) => return Err(fault),
        };
        if leaf.next == 0 {
            let here = NumberedLeaf { number: at, leaf };
            return Ok(ListPlace { before, here });
        }
        if lead(&leaf.entries, bytes) < leaf.entries.len() {
            let here = NumberedLeaf { number: at, leaf };
            return Ok(ListPlace { before, here });
        }
        let next = leaf.next;
        before = Some(NumberedLeaf { number: at, leaf });
        at = next;
    }
    Err(BlockFault::Damaged(file, number_of(&before)))
}
