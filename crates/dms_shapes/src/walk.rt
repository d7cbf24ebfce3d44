//! The entries of a list, one by one.

ghost use Rattle.std.specs.Prelude.{◌≡◌, IfOk, IsTrue, OnOk};
ghost use Rattle.dms_chain.specs.Seen.{IsListWidth};
ghost use Rattle.dms_shapes.specs.Walking.{Begins, Fills, IsSameWalk, Takes, TakesHeld};
ghost use Rattle.dms_view.specs.Looked.{Looked};

use crate::front::first_leaf;
use crate::leaves::leaf_at;
use dms_base::{Bytes, Memory};
use dms_chain::{LeafBlock, entry_at};
use dms_lists::ListForm;
use dms_view::{View, ViewFault};
use std::alloc::Global;

/// The entries of a file's list in their order. One block of them is held at a time.
#[derive(Drop)]
pub struct ListWalk {
    pub(crate) file: u32,
    pub(crate) width: usize,
    /// The number of the block behind the one that is held, 0 for none.
    pub(crate) at: u32,
    pub(crate) entries: Vec<Bytes>,
    /// How many of them were taken.
    pub(crate) place: usize,
}

impl ListWalk {
    /// Begins before the first entry of a list of entries of one width, kept in a form.
    pub fn begin<V: View>(
        view: &mut V,
        alloc: Global,
        form: ListForm,
        file: u32,
        width: usize,
    ) -> Result<ListWalk, ViewFault>
        requires width { IsListWidth width }
        ensures begins { IfOk result (λ w. IsTrue V.tells → Begins form width (V.content view.old) file w) }
        ensures width { IfOk result (λ w. w.width ≡ width) }
        ensures looks { Looked V.View view.old view.new result }
    {
        let at = first_leaf(view, alloc, form, file, width)?;
        Ok(ListWalk {
            file,
            width,
            at,
            entries: Vec::new(alloc),
            place: 0,
        })
    }

    /// Reads the next block where all entries of the one that is held were taken.
    fn fill<V: View>(&mut self, view: &mut V, alloc: Global) -> Result<(), ViewFault>
        requires width { IsListWidth self.old.width }
        ensures filled { OnOk result (IsTrue V.tells → Fills (V.content view.old) self.old self.new) }
        ensures same { IsSameWalk self.old self.new }
        ensures looks { Looked V.View view.old view.new result }
    {
        if self.place < self.entries.len() {
            return Ok(());
        }
        if self.at == 0 {
            return Ok(());
        }
        match leaf_at(view, alloc, self.file, self.width, self.at)? {
            Some(leaf) => {
                let LeafBlock { next, entries } = leaf;
                self.entries = entries;
                self.place = 0;
                self.at = next;
                Ok(())
            }
            None => Ok(()),
        }
    }

    /// Takes the next entry of the block that is held.
    fn take(&mut self, alloc: Global) -> Result<Option<Bytes>, Memory>
        ensures taken { IfOk result (λ o. TakesHeld self.old self.new o) }
        ensures same { IsSameWalk self.old self.new }
    {
        if self.place < self.entries.len() {
            let taken = entry_at(&self.entries, alloc, self.place)?;
            self.place += 1;
            return Ok(taken);
        }
        Ok(None)
    }

    /// The next entry; none behind the last one.
    pub fn next<V: View>(&mut self, view: &mut V, alloc: Global) -> Result<Option<Bytes>, ViewFault>
        requires width { IsListWidth self.old.width }
        ensures taken { IfOk result (λ o. IsTrue V.tells → Takes (V.content view.old) self.old self.new o) }
        ensures same { IsSameWalk self.old self.new }
        ensures looks { Looked V.View view.old view.new result }
    {
        self.fill(view, alloc)?;
        Ok(self.take(alloc)?)
    }
}
