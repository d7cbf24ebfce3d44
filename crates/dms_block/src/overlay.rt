ghost use Rattle.std.specs.Prelude.{◌≡◌, ◌<◌, ◌+◌, ◌==◌, if◌then◌else◌, max, [], IfOk};
ghost use Rattle.std.proofs.Props.{props};
ghost use Rattle.dms_block.specs.Content.{FitsIn, limit, raise_count};
ghost use Rattle.dms_block.specs.Changing.{FitsIn-prop};

use crate::sift::sift;
use crate::{Block, BlockFault, BlockId, Blocks, Change, Changes};
use std::alloc::Global;

/// Writes that are seen here, and handed down at the end.
#[derive(Drop)]
pub struct Overlay<B: Blocks> {
    pub below: B,
    pub changes: Changes,
    pub ghost fits: { FitsIn changes.items.items (B.held below).owns (B.held below).counts } by { Prim.hlevel (props, FitsIn-prop) },
}

/// A count of a file's blocks after one change.
fn with_block(n: u32, change: &Change, file: u32) -> u32
    requires { change.now.id.block < limit }
    ensures { result ≡ (if file == change.now.id.file then max n (change.now.id.block + 1) else n) }
{
    if file == change.id.file {
        return n.max(change.id.block + 1);
    }
    n
}

impl<B: Blocks> Overlay<B> {
    ghost use Rattle.std.specs.Prelude.{◌≤◌, OnErr, OnOk, IsErrOf, IsTrue, length};
    ghost use Rattle.dms_block.specs.Content.{block_in, differing, with_block};
    ghost use Rattle.dms_block.specs.Faults.{IfFull};
    ghost use Rattle.dms_block.specs.Held.{Alters, HasCauses};
    ghost use Rattle.dms_block.specs.View.{ReadsOverlay, overlay_content, seen_counts, under, overlay_changes};

    /// Nothing is written yet.
    pub fn new(alloc: Global, below: B) -> Overlay<B>
        ensures below { result.below ≡ below }
        ensures written { overlay_changes result ≡ [] }
    {
        Overlay {
            below,
            changes: Changes::new(alloc),
        }
    }

    /// How many blocks a file has.
    pub fn count(&self, file: u32) -> u32
        ensures { result ≡ seen_counts self.now file }
    {
        let mut n = self.below.count(file);
        for change in &self.changes.items {
            n = with_block(n, change, file);
        }
        n
    }

    /// A block below its file's count.
    /// Answers Err only where the block isn't written here and the read below fails, by its error: Disk, Memory, Full or Damaged.
    pub fn read(&mut self, alloc: Global, id: BlockId) -> Result<Block, BlockFault>
        requires sound { (under self.old).sound }
        requires there { id.block < seen_counts self.old id.file }
        ensures block { IfOk result (λ x. IsTrue (under self.old).told → x.0 ≡ block_in (overlay_content self.old) id.file id.block) }
        ensures reads { ReadsOverlay 1 result self.old self.new }
        ensures causes { HasCauses result (under self.old) (under self.new) }
        ensures silent { IsErrOf result BlockFault.Say → ⊥ }
    {
        match self.changes.get(id) {
            Some(block) => Ok(block),
            None => self.below.read(alloc, id),
        }
    }

    /// A block is another one, or a new one at its file's end. Nothing reaches below.
    /// Answers Memory, its only error, where memory is refused; nothing is written then.
    pub fn write(&mut self, id: BlockId, block: &Block) -> Result<(), BlockFault>
        requires owned { IsTrue ((under self.old).owns id.file) }
        requires low { id.block < limit }
        requires next { id.block ≤ seen_counts self.old id.file }
        ensures below { self.new.below ≡ self.old.below }
        ensures seen { OnOk result (IsTrue (under self.old).told → (under self.old).sound → overlay_content self.new ≡ with_block (overlay_content self.old) id.file id.block block.now.0) }
        ensures counts { OnOk result (seen_counts self.new ≡ raise_count (seen_counts self.old) id.file id.block) }
        ensures more { length (overlay_changes self.new) ≤ length (overlay_changes self.old) + 1 }
        ensures err { OnErr result (overlay_changes self.new ≡ overlay_changes self.old) }
        ensures memory { OnErr result (IsErrOf result BlockFault.Memory) }
    {
        self.changes.set(id, block)
    }

    /// Hands down what was written, in one call: only blocks that differ from what stands below.
    /// Answers Disk, Memory, Full or Damaged where a read below or that call does, and Memory where the list of these blocks is refused.
    pub fn finish(&mut self, alloc: Global) -> Result<(), BlockFault>
        requires sound { (under self.old).sound }
        ensures written { overlay_changes self.new ≡ [] }
        ensures counts { OnOk result ((under self.new).counts ≡ seen_counts self.old) }
        ensures content { OnOk result (IsTrue (under self.old).told → (under self.new).content ≡ overlay_content self.old) }
        ensures alters { Alters (length (overlay_changes self.old)) (length (overlay_changes self.old)) result (under self.old) (under self.new) }
        ensures spent { OnOk result (IsTrue (under self.old).told → (under self.new).uses.spent ≤ (under self.old).uses.spent + length (differing (under self.old).content (overlay_changes self.old))) }
        ensures causes { HasCauses result (under self.old) (under self.new) }
        ensures silent { IsErrOf result BlockFault.Say → ⊥ }
        ensures full { IfFull result (λ f. f ≡ (B.pace self.old.below).last) }
        ensures same { B.same_blocks self.old.below self.new.below }
    {
        let kept = sift(&mut self.below, alloc, &self.changes);
        self.changes.items.clear();
        self.below.apply(alloc, &kept?)
    }

    /// What stands below, without what was written.
    pub fn into_below(self) -> B
        ensures { result ≡ self.below }
    {
        self.below
    }

    /// Drops what was written.
    pub fn forget(&mut self)
        ensures below { self.new.below ≡ self.old.below }
        ensures written { overlay_changes self.new ≡ [] }
    {
        self.changes.items.clear();
    }
}
