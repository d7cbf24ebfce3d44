ghost use Rattle.std.proofs.Common.{refl};
ghost use Rattle.dms_memblocks.specs.View.{held_view};
ghost use Rattle.dms_memblocks.specs.UndoLaws.{agrees};
ghost use Rattle.dms_memblocks.specs.Undoing.{rows};

use crate::MemBlocks;
use crate::files::{put_all, take_back_to};
use dms_block::{Block, BlockFault, BlockId, Blocks, Changes};
use std::alloc::Global;

impl Blocks for MemBlocks {
    ghost held = { λ b. held_view b };

    ghost same_blocks = { λ a b. Unit {0} };

    ghost pace = { λ b. record { last = 9999; every = 0 } };

    ghost agrees = { λ b sound. agrees b.schema (rows b.files.items) b.log.items b.made b.durable _ b.durable_low };

    ghost same_again = { λ b. tt };

    ghost same_then = { λ a b c one two. tt };

    ghost same_pace = { λ a b same. refl };

    fn count(&self, file: u32) -> u32 {
        self.blocks_of(file).len() as u32
    }

    fn read(&mut self, _alloc: Global, id: BlockId) -> Result<Block, BlockFault> {
        let block = self.blocks_of(id.file)[id.block as usize];
        self.reads = self.reads.saturating_add(1);
        Ok(block)
    }

    fn apply(&mut self, _alloc: Global, changes: &Changes) -> Result<(), BlockFault> {
        let count = changes.as_slice().len() as u64;
        if let Err(fault) = put_all(
            &mut self.files,
            &mut self.log,
            self.made,
            changes.as_slice(),
        ) {
            return Err(fault);
        }
        self.spent = self.spent.saturating_add(count);
        Ok(())
    }

    fn quiet(&mut self) -> Result<u64, BlockFault> {
        let number = self.made + 1;
        if number == u64::MAX {
            return Err(BlockFault::Memory);
        }
        self.made = number;
        self.mark = self.log.len();
        Ok(number)
    }

    fn sync(&mut self) -> Result<(), BlockFault> {
        self.durable = self.made;
        self.syncs = self.syncs.saturating_add(1);
        Ok(())
    }

    fn back_out(&mut self, _alloc: Global) -> Result<(), BlockFault> {
        take_back_to(&mut self.files, &mut self.log, self.mark);
        self.outs = self.outs.saturating_add(1);
        Ok(())
    }

    fn say(&mut self, bytes: &[u8]) -> Result<(), BlockFault> {
        let _kept = self.text.extend_from_slice(bytes);
        Ok(())
    }
}
