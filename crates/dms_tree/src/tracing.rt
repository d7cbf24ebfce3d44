ghost use Rattle.std.specs.Prelude.{◌≡◌, ◌+◌, ◌≤◌, ◌<◌, IfOk, length};
ghost use Rattle.dms_block.specs.Held.{HasCausesOr};
ghost use Rattle.dms_block.specs.View.{ReadsOverlay, seen_counts, under};
ghost use Rattle.dms_chain.specs.Seen.{IsListWidth};
ghost use Rattle.dms_tree.specs.Trails.{IsTrail, NoTreeNear, TrailHolds};
ghost use Rattle.dms_tree.specs.Ways.{IfTreeFrom};

use crate::descending::{Side, turn};
use crate::node::Node;
use crate::raising::PathStep;
use crate::reading::read_node;
use dms_block::{BlockFault, Blocks, Overlay};
use dms_chain::LeafBlock;
use std::alloc::Global;

/// The leaf where bytes belong, with its number, and the way to it from the root.
#[derive(Drop)]
pub struct Trail {
    pub path: Vec<PathStep>,
    pub number: u32,
    pub leaf: LeafBlock,
}

/// The way to the leaf where bytes of the entries' width belong in the tree under a block. A tree of at most 1,048,576
/// blocks has ten levels at most, its leaves among them.
pub fn trace<B: Blocks>(
    over: &mut Overlay<B>,
    alloc: Global,
    file: u32,
    root: u32,
    bytes: &[u8],
) -> Result<Trail, BlockFault>
    requires sound { (under over.old).sound }
    requires width { IsListWidth (length bytes.now) }
    requires there { 0 < seen_counts over.old file }
    ensures trail { IfOk result (λ t. IfTreeFrom over.old file (length bytes.now) root (λ us ls. IsTrail bytes.now us ls root t)) }
    ensures holds { IfOk result (TrailHolds (length bytes.now) (seen_counts over.old file)) }
    ensures reads { ReadsOverlay 10 result over.old over.new }
    ensures causes { HasCausesOr (NoTreeNear (length bytes.now) over.old file root) result (under over.old) (under over.new) }
{
    let turns = over.count(file).min(11);
    let mut named = 0;
    let mut at = root;
    let mut path = Vec::new(alloc);
    for _turn in 1..turns {
        match read_node(over, alloc, file, bytes.len(), named, at) {
            Ok(Node::Leaf(leaf)) => {
                return Ok(Trail {
                    path,
                    number: at,
                    leaf,
                });
            }
            Ok(Node::Inner(inner)) => {
                let taken = turn(Side::Through, &inner.seps, bytes);
                let kid = inner.kids[taken];
                path.push(PathStep {
                    number: at,
                    inner,
                    taken,
                })?;
                named = at;
                at = kid;
            }
            Err(fault) => return Err(fault),
        }
    }
    Err(BlockFault::Damaged(file, named))
}
