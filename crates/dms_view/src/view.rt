ghost use Rattle.std.specs.Prelude.{◌≡◌, ◌<◌, ◌≤◌, ℕ, Bool, List, IfOk, IsErrOf, IsTrue, Some, length, slice_get};
ghost use Rattle.dms_base.specs.Causes.{HasCause};
ghost use Rattle.dms_block.specs.Content.{Content};
ghost use Rattle.dms_view.specs.Looks.{Fails};

use dms_base::Memory;
use dms_block::{Block, BlockId};

/// Why something can't be told of blocks.
#[derive(Clone, Copy, Debug, PartialEq, Eq)]
pub enum ViewFault {
    /// A call of the outside failed.
    Disk,
    /// Memory was refused.
    Memory,
}

impl From<Memory> for ViewFault {
    ghost use Rattle.std.specs.Prelude.{◌≡◌};
    ghost use Rattle.dms_view.specs.declared.view.ViewFault.TheVariants.{Memory};

    ghost from_gives = { λ _ e. e ≡ Memory };

    fn from(_e: Memory) -> ViewFault {
        ViewFault::Memory
    }
}

/// Blocks of structure files that are looked at and never changed.
pub trait View {
    /// Whether this kind of view tells its blocks.
    ghost tells: { Bool };

    /// The blocks of each file.
    ghost content: { Self → Content };

    /// The same view, at another time.
    ghost same_view: { Self → Self → Type 0 };

    /// How often a call of the outside has failed.
    ghost faults: { Self → ℕ };

    /// How many blocks a file has, at most 2,097,152.
    fn count(&self, file: u32) -> u32
        ensures count { IsTrue tells → result ≡ length (content self.now file) }
        ensures low { result ≤ 2097152 };

    /// A block of a file. Answers Disk alone.
    fn block(&mut self, id: BlockId) -> Result<Block, ViewFault>
        ensures block { IfOk result (λ x. IsTrue tells → (bytes : List ℕ) → slice_get (content self.old id.file) id.block ≡ Some bytes → x.0 ≡ bytes) }
        ensures content { IsTrue tells → content self.new ≡ content self.old }
        ensures same { same_view self.old self.new }
        ensures silent { IsErrOf result ViewFault.Memory → ⊥ }
        ensures faults { Fails (faults self.old) (faults self.new) result };

    ghost same_again: { (v : Self) → same_view v v };

    ghost same_then: { (a b c : Self) → same_view a b → same_view b c → same_view a c };
}
