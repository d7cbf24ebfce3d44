ghost use Rattle.std.specs.Prelude.{◌≡◌};
ghost use Rattle.std.proofs.Common.{◌∙◌, refl};

use crate::{Block, BlockFault, BlockId, Blocks, Changes};
use std::alloc::Global;

/// Blocks that are lent.
impl<B: Blocks> Blocks for &mut B {
    ghost held = { λ s. B.Blocks.held s.now };

    ghost same_blocks = { λ a b. (a.ghost_name ≡ b.ghost_name) × B.Blocks.same_blocks a.now b.now };

    ghost pace = { λ s. B.Blocks.pace s.now };

    ghost agrees = { λ s sound. B.Blocks.agrees s.now sound };

    ghost same_again = { λ s. (refl, B.Blocks.same_again s.now) };

    ghost same_then = { λ a b c one two. (one.0 ∙ two.0, B.Blocks.same_then a.now b.now c.now one.1 two.1) };

    ghost same_pace = { λ a b same. B.Blocks.same_pace a.now b.now same.1 };

    fn count(&self, file: u32) -> u32 {
        (**self).count(file)
    }

    fn read(&mut self, alloc: Global, id: BlockId) -> Result<Block, BlockFault> {
        (**self).read(alloc, id)
    }

    fn apply(&mut self, alloc: Global, changes: &Changes) -> Result<(), BlockFault> {
        (**self).apply(alloc, changes)
    }

    fn quiet(&mut self) -> Result<u64, BlockFault> {
        (**self).quiet()
    }

    fn sync(&mut self) -> Result<(), BlockFault> {
        (**self).sync()
    }

    fn back_out(&mut self, alloc: Global) -> Result<(), BlockFault> {
        (**self).back_out(alloc)
    }

    fn say(&mut self, bytes: &[u8]) -> Result<(), BlockFault> {
        (**self).say(bytes)
    }
}
