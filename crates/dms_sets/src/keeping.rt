ghost use Rattle.dms_desc.specs.Files.{file_of};
ghost use Rattle.dms_sets.specs.Keeping.{Calm, EndsInFault, FromBelow, Usable, seen_list};
ghost use Rattle.dms_sets.specs.KeepingLaws as laws;

use crate::Lists;
use dms_base::Bytes;
use dms_block::{BlockFault, Blocks, Overlay};
use dms_desc::file_of;
use dms_lists::ListForm;
use std::alloc::Global;

/// Ordered lists, each in the file of its structure and kept in its form, as they are seen through an overlay. A file
/// of more than 1,048,576 blocks is no list.
impl<B: Blocks> Lists for Overlay<B> {
    ghost listed = { λ o n form w. seen_list o n form w };

    ghost usable = { λ o n. Usable o n };

    ghost calm = { λ p n a b. Calm p n a b };

    ghost fails = { λ e n a b. EndsInFault e n a b };

    ghost below = { λ e a b. FromBelow e a b };

    ghost calm_none = { λ p n s. laws.calm_none B.Blocks.same_again p n s };

    ghost fails_memory = { λ n s. laws.fails_memory B.Blocks.same_again n s };

    ghost below_memory = { λ s. laws.below_memory s };

    ghost calm_then = { λ p m n a b c one two. laws.calm_then B.Blocks.same_then p m n a b c one two };

    ghost fails_then = { λ e p m n a b c one two. laws.fails_then B.Blocks.same_then e p m n a b c one two };

    ghost below_then = { λ e p m a b c one two. laws.below_then e p m a b c one two };

    ghost calm_wider = { λ p q n a b wider h. laws.calm_wider p q n a b wider h };

    fn insert(
        &mut self,
        alloc: Global,
        structure: u16,
        form: ListForm,
        entry: &[u8],
    ) -> Result<bool, BlockFault> {
        let file = file_of(structure);
        if self.count(file) > 1_048_576 {
            return Err(BlockFault::Damaged(file, 0));
        }
        dms_lists::insert(self, alloc, form, file, entry)
    }

    fn remove(
        &mut self,
        alloc: Global,
        structure: u16,
        form: ListForm,
        entry: &[u8],
    ) -> Result<bool, BlockFault> {
        let file = file_of(structure);
        if self.count(file) > 1_048_576 {
            return Err(BlockFault::Damaged(file, 0));
        }
        dms_lists::remove(self, alloc, form, file, entry)
    }

    fn first_from(
        &mut self,
        alloc: Global,
        structure: u16,
        form: ListForm,
        from: &[u8],
    ) -> Result<Option<Bytes>, BlockFault> {
        dms_lists::first_from(self, alloc, form, file_of(structure), from)
    }

    fn last_to(
        &mut self,
        alloc: Global,
        structure: u16,
        form: ListForm,
        to: &[u8],
    ) -> Result<Option<Bytes>, BlockFault> {
        dms_lists::last_to(self, alloc, form, file_of(structure), to)
    }

    fn entry_count(
        &mut self,
        alloc: Global,
        structure: u16,
        width: usize,
    ) -> Result<u64, BlockFault> {
        dms_ordlist::count(self, alloc, file_of(structure), width)
    }

    fn ending(
        &mut self,
        alloc: Global,
        structure: u16,
        width: usize,
        tail: &[u8; 4],
    ) -> Result<Vec<Bytes>, BlockFault> {
        dms_ordlist::ending(self, alloc, file_of(structure), width, tail)
    }
}
