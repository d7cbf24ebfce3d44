ghost use Rattle.std.specs.Prelude.{◌≡◌, ◌<◌, [], length, true, IfSome, IfNone, OnErr, OnOk, option_map};
ghost use Rattle.std.proofs.Props.{props};
ghost use Rattle.dms_block.specs.Content.{AreApart, NoneOf, change_at, with_change};
ghost use Rattle.dms_block.specs.Changing.{AreApart-prop, at_index};

use crate::{Block, BlockFault, BlockId, Change};
use std::alloc::Global;

/// Changes of distinct blocks, in the order in which each block was first set.
#[derive(Drop, Debug)]
pub struct Changes {
    pub items: Vec<Change>,
    pub ghost apart: { AreApart items.items } by { Prim.hlevel (props, AreApart-prop) },
}

/// Where the change of a block stands.
fn place_of(changes: &[Change], id: BlockId) -> Option<usize>
    ensures found { IfSome result (λ i. (i < length changes.now) × (at_index id.file id.block i changes.now ≡ true)) }
    ensures none { IfNone result (NoneOf id.file id.block changes.now) }
{
    for i in 0..changes.len() {
        if changes[i].id == id {
            return Some(i);
        }
    }
    None
}

impl Changes {
    /// No change yet.
    pub fn new(alloc: Global) -> Changes
        ensures { result.items.items ≡ [] }
    {
        Changes {
            items: Vec::new(alloc),
        }
    }

    /// The changes.
    pub fn as_slice(&self) -> &[Change]
        ensures { result.now ≡ self.now.items.items }
    {
        self.items.as_slice()
    }

    /// What a block is to be, in place of what was set before.
    /// Answers Memory, its only error, where memory is refused; nothing changes then.
    pub fn set(&mut self, id: BlockId, block: &Block) -> Result<(), BlockFault>
        ensures ok { OnOk result (self.new.items.items ≡ with_change id.file id.block block.now.0 self.old.items.items) }
        ensures err { OnErr result (self.new.items.items ≡ self.old.items.items) }
        ensures memory { OnErr result (result ≡ Err BlockFault.Memory) }
    {
        if let Some(i) = place_of(&self.items, id) {
            self.items[i].block = *block;
            return Ok(());
        }
        self.items.push(Change { id, block: *block })?;
        Ok(())
    }

    /// What a block is to be, if it is set.
    pub fn get(&self, id: BlockId) -> Option<Block>
        ensures { option_map (λ x. x.0) result ≡ change_at id.file id.block self.now.items.items }
    {
        match place_of(&self.items, id) {
            Some(i) => Some(self.items[i].block),
            None => None,
        }
    }
}
