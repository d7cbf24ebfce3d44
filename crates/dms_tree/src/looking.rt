ghost use Rattle.std.specs.Prelude.{◌≡◌, ◌≤◌, IfOk, IfSome, length};
ghost use Rattle.dms_block.specs.Held.{HasCausesOr};
ghost use Rattle.dms_block.specs.View.{ReadsOverlay, overlay_content, seen_counts, under};
ghost use Rattle.dms_chain.specs.Seen.{IsListWidth};
ghost use Rattle.dms_tree.specs.Looks.{IfTree, NoTree};
ghost use Rattle.dms_tree.specs.TreeLooks.{IsLooked};
ghost use Rattle.dms_tree.specs.Trails.{TrailHolds};

use crate::node::TreeHead;
use crate::reading::read_root;
use crate::tracing::{Trail, trace};
use dms_block::{BlockFault, Blocks, Overlay};
use std::alloc::Global;

/// What the head of a tree says, and the way to the leaf where bytes belong; no way where the tree is empty.
#[derive(Drop)]
pub struct TreeLook {
    pub head: TreeHead,
    pub trail: Option<Trail>,
}

/// The head of a file's tree, and the way to the leaf where bytes of the entries' width belong in it.
pub fn look<B: Blocks>(
    over: &mut Overlay<B>,
    alloc: Global,
    file: u32,
    bytes: &[u8],
) -> Result<TreeLook, BlockFault>
    requires sound { (under over.old).sound }
    requires width { IsListWidth (length bytes.now) }
    requires room { seen_counts over.old file ≤ 1048576 }
    ensures look { IfOk result (λ r. IfTree over.old file (length bytes.now) (λ xs. IsLooked bytes.now (overlay_content over.old file) xs r)) }
    ensures holds { IfOk result (λ r. IfSome r.trail (TrailHolds (length bytes.now) (seen_counts over.old file))) }
    ensures new { IfOk result (λ r. seen_counts over.old file ≡ 0 → r.head.free ≡ 0) }
    ensures reads { ReadsOverlay 11 result over.old over.new }
    ensures causes { HasCausesOr (NoTree over.old file (length bytes.now)) result (under over.old) (under over.new) }
{
    if over.count(file) == 0 {
        let head = TreeHead { root: 0, free: 0 };
        return Ok(TreeLook { head, trail: None });
    }
    let head = match read_root(over, alloc, file) {
        Ok(head) => head,
        Err(fault) => return Err(fault),
    };
    if head.root == 0 {
        return Ok(TreeLook { head, trail: None });
    }
    match trace(over, alloc, file, head.root, bytes) {
        Ok(trail) => Ok(TreeLook {
            head,
            trail: Some(trail),
        }),
        Err(fault) => Err(fault),
    }
}
