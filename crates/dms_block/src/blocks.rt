ghost use Rattle.std.specs.Prelude.{◌≡◌, ◌≤◌, ◌<◌, ◌+◌, ◌^◌, ◌++◌, [], ◌∷◌, IfOk, OnOk, IsErrOf, IsOkUnless, IsTrue, length, min, ◌-◌, true};
ghost use Rattle.dms_block.specs.Content.{block_in, apply_changes, counts_after, FitsIn};
ghost use Rattle.dms_block.specs.Held.{AuditPace, BlocksAgree, Alters, HasCauses, Held, IfTold, is_due, Lasts, Leaves, LeavesText, Looks, MadeQuiet, MadeDurable, MakesNoPoint, HasNextNumber, SameBlocks, Stays, Synced, WentBack, one_more};
ghost use Rattle.dms_block.specs.Faults.{IfFull};
ghost use Rattle.dms_block.specs.Texts.{Prints, PrintsPrefix};

use crate::{Block, BlockFault, BlockId, Changes};
use std::alloc::Global;

/// Blocks of structure files that are changed all at once, with quiet points to go back to.
///
/// After `Memory` the content is as it was, but after that of `back_out` nothing is promised of it. After another
/// fault the object is only taken apart.
pub trait Blocks {
    /// All that it tells of itself.
    ghost held: { Self → Held };

    /// The same object, at another time.
    ghost same_blocks: { Self → Self → Type 0 };

    /// The audit file that Full names where something is changed, and how many syncs go before each control point.
    ghost pace: { Self → AuditPace };

    /// How many blocks a file has.
    fn count(&self, file: u32) -> u32
        ensures { result ≡ (held self.now).counts file };

    /// A block below its file's count.
    fn read(&mut self, alloc: Global, id: BlockId) -> Result<Block, BlockFault>
        requires sound { (held self.old).sound }
        requires there { id.block < (held self.old).counts id.file }
        ensures block { IfOk result (λ x. IsTrue (held self.old).told → x.0 ≡ block_in (held self.old).content id.file id.block) }
        ensures looks { Looks 1 result (held self.old) (held self.new) }
        ensures reads { (held self.new).uses.reads ≡ one_more (held self.old).uses.reads }
        ensures causes { HasCauses result (held self.old) (held self.new) }
        ensures silent { IsErrOf result BlockFault.Say → ⊥ }
        ensures same { same_blocks self.old self.new };

    /// Makes all changes. Each is of a file that the object owns and of a block below 2,097,152, and each new block
    /// stands at its file's count, further new ones rising from there.
    fn apply(&mut self, alloc: Global, changes: &Changes) -> Result<(), BlockFault>
        requires sound { (held self.old).sound }
        requires fits { FitsIn changes.now.items.items (held self.old).owns (held self.old).counts }
        ensures counts { OnOk result ((held self.new).counts ≡ counts_after changes.now.items.items (held self.old).counts) }
        ensures content { OnOk result (IsTrue (held self.old).told → (held self.new).content ≡ apply_changes changes.now.items.items (held self.old).content) }
        ensures alters { Alters 0 (length changes.now.items.items) result (held self.old) (held self.new) }
        ensures spent { OnOk result ((held self.new).uses.spent ≡ min ((held self.old).uses.spent + length changes.now.items.items) (2 ^ 64 - 1)) }
        ensures causes { HasCauses result (held self.old) (held self.new) }
        ensures silent { IsErrOf result BlockFault.Say → ⊥ }
        ensures full { IfFull result (λ f. f ≡ (pace self.old).last) }
        ensures same { same_blocks self.old self.new };

    /// Makes a quiet point, and answers its number. Takes no memory: it answers Memory exactly where the next number is 2^64 - 1,
    /// which no point may have.
    /// Where the audit has no room no stop leaves the new point.
    fn quiet(&mut self) -> Result<u64, BlockFault>
        requires { (held self.old).sound }
        ensures number { HasNextNumber (held self.old) → IfOk result (λ n. n ≡ (held self.old).next) }
        ensures made { OnOk result (MadeQuiet (held self.old) (held self.new)) }
        ensures not_fallen { (held self.old).next ≤ (held self.new).next }
        ensures one_number { (held self.new).next ≤ (held self.old).next + 1 }
        ensures said { (held self.new).said ≡ (held self.old).said }
        ensures leaves { let a = held self.old in IfTold a (Leaves a (held self.new) (a.points ++ a.here ∷ []) (a.next + 1)) }
        ensures lasts { Lasts (held self.old) (held self.new) }
        ensures uses { (held self.new).uses ≡ (held self.old).uses }
        ensures numbered { OnOk result (HasNextNumber (held self.old)) }
        ensures memory { HasNextNumber (held self.old) → IsErrOf result BlockFault.Memory → ⊥ }
        ensures causes { HasCauses result (held self.old) (held self.new) }
        ensures silent { IsErrOf result BlockFault.Say → ⊥ }
        ensures full { IfFull result (λ f. f ≡ (pace self.old).last) }
        ensures no_point { let a = held self.old in IfFull result (λ f. IfTold a (Leaves a (held self.new) a.points a.next)) }
        ensures same { same_blocks self.old self.new };

    /// Makes all quiet points so far durable. Takes no memory. The audit may have no room only where a control point is due.
    fn sync(&mut self) -> Result<(), BlockFault>
        requires { (held self.old).sound }
        ensures made { OnOk result (MadeDurable (held self.old) (held self.new)) }
        ensures passes { MakesNoPoint (held self.old) (held self.new) }
        ensures uses { Synced result (held self.old).uses (held self.new).uses }
        ensures memory { IsErrOf result BlockFault.Memory → ⊥ }
        ensures causes { HasCauses result (held self.old) (held self.new) }
        ensures silent { IsErrOf result BlockFault.Say → ⊥ }
        ensures full { IfFull result (λ f. f ≡ (pace self.old).last) }
        ensures due { IfFull result (λ f. is_due (pace self.old).every (held self.old).uses.syncs ≡ true) }
        ensures same { same_blocks self.old self.new };

    /// Goes back to the last quiet point, or to the content that it began with. Full names file 9,999.
    fn back_out(&mut self, alloc: Global) -> Result<(), BlockFault>
        requires { (held self.old).sound }
        ensures content { OnOk result (IsTrue (held self.old).told → (held self.new).content ≡ (held self.old).mark) }
        ensures stays { OnOk result (Stays (held self.old) (held self.new)) }
        ensures passes { MakesNoPoint (held self.old) (held self.new) }
        ensures uses { WentBack result (held self.old).uses (held self.new).uses }
        ensures causes { HasCauses result (held self.old) (held self.new) }
        ensures silent { IsErrOf result BlockFault.Say → ⊥ }
        ensures full { IfFull result (λ f. f ≡ 9999) }
        ensures same { same_blocks self.old self.new };

    /// Prints. Takes no memory of its own. A failed call prints the first bytes or none.
    fn say(&mut self, bytes: &[u8]) -> Result<(), BlockFault>
        requires { (held self.old).sound }
        ensures text { OnOk result (Prints (held self.old).said (held self.new).said bytes.now) }
        ensures part { PrintsPrefix (held self.old).said (held self.new).said bytes.now }
        ensures stays { OnOk result (Stays (held self.old) (held self.new)) }
        ensures unchanged { OnOk result (SameBlocks (held self.old) (held self.new)) }
        ensures next { (held self.new).next ≡ (held self.old).next }
        ensures leaves { IfTold (held self.old) (LeavesText (held self.old) (held self.new) bytes.now) }
        ensures lasts { Lasts (held self.old) (held self.new) }
        ensures uses { (held self.new).uses ≡ (held self.old).uses }
        ensures fault { IsOkUnless result BlockFault.Say }
        ensures causes { HasCauses result (held self.old) (held self.new) }
        ensures same { same_blocks self.old self.new };

    /// What sound blocks tell hangs together.
    ghost agrees: { (s : Self) → (held s).sound → BlocksAgree (held s) };

    ghost same_again: { (s : Self) → same_blocks s s };

    ghost same_then: { (a b c : Self) → same_blocks a b → same_blocks b c → same_blocks a c };

    ghost same_pace: { (a b : Self) → same_blocks a b → pace b ≡ pace a };
}
