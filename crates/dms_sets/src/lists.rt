ghost use Rattle.std.specs.Prelude.{◌≡◌, ◌+◌, ◌==◌, ℕ, Bool, true, List, Some, IfOk, IfErr, OnOk, filter, length, not};
ghost use Rattle.std.specs.declared.option.Option.{Option};
ghost use Rattle.dms_block.specs.declared.block_fault.BlockFault.{BlockFault as Fault};
ghost use Rattle.dms_block.specs.declared.block_fault.BlockFault.TheVariants.{Memory};
ghost use Rattle.dms_chain.specs.Lists.{with_entry, without, has_entry, first_from, last_to};
ghost use Rattle.dms_lists.specs.declared.form.ListForm.{ListForm as Form};
ghost use Rattle.dms_ordlist.specs.Walks.{ends_with};
ghost use Rattle.dms_sets.specs.Changes.{IsEntryWidth, OnlyList, OnlyRoomy, IfListed};

use dms_base::Bytes;
use dms_block::BlockFault;
use dms_lists::ListForm;
use std::alloc::Global;

/// Ordered lists of entries, one for each set and subset, by the structure's number, each kept in the form that the
/// description gives it. All entries of a list have one width, from 8 to 104 bytes, and so have the bytes that a call is
/// given.
///
/// After `Memory` the lists are as they were before that call, or were made anew from there. After another fault the
/// object is only taken apart.
pub trait Lists {
    /// The entries of the list of a structure in a form, of so many bytes each, where they are known.
    ghost listed: { Self → ℕ → Form → ℕ → Option (List (List ℕ)) };

    /// The list of a structure may be asked for.
    ghost usable: { Self → ℕ → Type 0 };

    /// What calls with at most so many changes of the lists of these structures leave besides those lists, where none failed.
    /// Only `insert` and `remove` are changes.
    ghost calm: { (ℕ → Bool) → ℕ → Self → Self → Type 0 };

    /// What calls with at most so many changes leave where the last of them ended with this fault.
    ghost fails: { Fault → ℕ → Self → Self → Type 0 };

    /// A fault that isn't found in a list, but comes from below.
    ghost below: { Fault → Self → Self → Type 0 };

    /// Puts an entry into its place: false where it stands there. A list that is known keeps known where it has room for
    /// one more entry.
    fn insert(
        &mut self,
        alloc: Global,
        structure: u16,
        form: ListForm,
        entry: &[u8],
    ) -> Result<bool, BlockFault>
        requires usable { usable self.old structure }
        requires width { IsEntryWidth (length entry.now) }
        ensures answer { IfOk result (λ b. IfListed (listed self.old structure form (length entry.now)) (λ xs. b ≡ not (has_entry entry.now xs))) }
        ensures list { OnOk result (OnlyRoomy (with_entry entry.now) structure form (length entry.now) (listed self.old) (listed self.new)) }
        ensures usable { OnOk result ((n : ℕ) → usable self.old n → usable self.new n) }
        ensures calm { OnOk result (calm (λ m. m == structure) 1 self.old self.new) }
        ensures fails { IfErr result (λ e. fails e 1 self.old self.new) }
        ensures below { IfErr result (λ e. IfListed (listed self.old structure form (length entry.now)) (λ xs. below e self.old self.new)) };

    /// Takes an entry out: false where it doesn't stand there.
    fn remove(
        &mut self,
        alloc: Global,
        structure: u16,
        form: ListForm,
        entry: &[u8],
    ) -> Result<bool, BlockFault>
        requires usable { usable self.old structure }
        requires width { IsEntryWidth (length entry.now) }
        ensures answer { IfOk result (λ b. IfListed (listed self.old structure form (length entry.now)) (λ xs. b ≡ has_entry entry.now xs)) }
        ensures list { OnOk result (OnlyList (without entry.now) structure form (length entry.now) (listed self.old) (listed self.new)) }
        ensures usable { OnOk result ((n : ℕ) → usable self.old n → usable self.new n) }
        ensures calm { OnOk result (calm (λ m. m == structure) 1 self.old self.new) }
        ensures fails { IfErr result (λ e. fails e 1 self.old self.new) }
        ensures below { IfErr result (λ e. IfListed (listed self.old structure form (length entry.now)) (λ xs. below e self.old self.new)) };

    /// The first entry not below these bytes.
    fn first_from(
        &mut self,
        alloc: Global,
        structure: u16,
        form: ListForm,
        from: &[u8],
    ) -> Result<Option<Bytes>, BlockFault>
        requires usable { usable self.old structure }
        requires width { IsEntryWidth (length from.now) }
        ensures found { IfOk result (λ o. IfListed (listed self.old structure form (length from.now)) (λ xs. o ≡ first_from (Some from.now) xs)) }
        ensures list { OnOk result (listed self.new ≡ listed self.old) }
        ensures usable { OnOk result ((n : ℕ) → usable self.old n → usable self.new n) }
        ensures calm { OnOk result (calm (λ m. m == structure) 0 self.old self.new) }
        ensures fails { IfErr result (λ e. fails e 0 self.old self.new) }
        ensures below { IfErr result (λ e. IfListed (listed self.old structure form (length from.now)) (λ xs. below e self.old self.new)) };

    /// The last entry below these bytes.
    fn last_to(
        &mut self,
        alloc: Global,
        structure: u16,
        form: ListForm,
        to: &[u8],
    ) -> Result<Option<Bytes>, BlockFault>
        requires usable { usable self.old structure }
        requires width { IsEntryWidth (length to.now) }
        ensures found { IfOk result (λ o. IfListed (listed self.old structure form (length to.now)) (λ xs. o ≡ last_to (Some to.now) xs)) }
        ensures list { OnOk result (listed self.new ≡ listed self.old) }
        ensures usable { OnOk result ((n : ℕ) → usable self.old n → usable self.new n) }
        ensures calm { OnOk result (calm (λ m. m == structure) 0 self.old self.new) }
        ensures fails { IfErr result (λ e. fails e 0 self.old self.new) }
        ensures below { IfErr result (λ e. IfListed (listed self.old structure form (length to.now)) (λ xs. below e self.old self.new)) };

    /// How many entries there are, of this width each, in a list that isn't kept in a tree. It may read the whole list.
    fn entry_count(
        &mut self,
        alloc: Global,
        structure: u16,
        width: usize,
    ) -> Result<u64, BlockFault>
        requires usable { usable self.old structure }
        requires width { IsEntryWidth width }
        ensures answer { IfOk result (λ n. IfListed (listed self.old structure ListForm.List width) (λ xs. n ≡ length xs)) }
        ensures list { OnOk result (listed self.new ≡ listed self.old) }
        ensures usable { OnOk result ((n : ℕ) → usable self.old n → usable self.new n) }
        ensures calm { OnOk result (calm (λ m. m == structure) 0 self.old self.new) }
        ensures fails { IfErr result (λ e. fails e 0 self.old self.new) }
        ensures below { IfErr result (λ e. IfListed (listed self.old structure ListForm.List width) (λ xs. below e self.old self.new)) };

    /// The entries, of this width each, that end with these four bytes, in their order, of a list that isn't kept in a
    /// tree. It may read the whole list.
    fn ending(
        &mut self,
        alloc: Global,
        structure: u16,
        width: usize,
        tail: &[u8; 4],
    ) -> Result<Vec<Bytes>, BlockFault>
        requires usable { usable self.old structure }
        requires width { IsEntryWidth width }
        ensures found { IfOk result (λ v. IfListed (listed self.old structure ListForm.List width) (λ xs. v.items ≡ filter (ends_with tail.now) xs)) }
        ensures list { OnOk result (listed self.new ≡ listed self.old) }
        ensures usable { OnOk result ((n : ℕ) → usable self.old n → usable self.new n) }
        ensures calm { OnOk result (calm (λ m. m == structure) 0 self.old self.new) }
        ensures fails { IfErr result (λ e. fails e 0 self.old self.new) }
        ensures below { IfErr result (λ e. IfListed (listed self.old structure ListForm.List width) (λ xs. below e self.old self.new)) };

    /// No call leaves all as it was, and so does want of memory before any call.
    ghost calm_none: { (p : ℕ → Bool) (n : ℕ) (s : Self) → calm p n s s };

    ghost fails_memory: { (n : ℕ) (s : Self) → fails Memory n s s };

    ghost below_memory: { (s : Self) → below Memory s s };

    /// Calls after calls that didn't fail.
    ghost calm_then: { (p : ℕ → Bool) (m n : ℕ) (a b c : Self) → calm p m a b → calm p n b c → calm p (m + n) a c };

    ghost fails_then: { (e : Fault) (p : ℕ → Bool) (m n : ℕ) (a b c : Self) → calm p m a b → fails e n b c → fails e (m + n) a c };

    ghost below_then: { (e : Fault) (p : ℕ → Bool) (m : ℕ) (a b c : Self) → calm p m a b → below e b c → below e a c };

    /// More structures were allowed.
    ghost calm_wider: { (p q : ℕ → Bool) (n : ℕ) (a b : Self) → ((m : ℕ) → p m ≡ true → q m ≡ true) → calm p n a b → calm q n a b };
}
