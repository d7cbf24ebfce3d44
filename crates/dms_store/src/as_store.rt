//! A store on blocks is a `Store`: each method is the one of the same name.

ghost use Rattle.dms_store.specs.Storing.{seen_by};
ghost use Rattle.dms_store.specs.StoreLaws.{store_agrees};

use crate::BlockStore;
use dms_block::{BlockFault, Blocks};
use dms_desc::{Bound, Record};
use dms_model::{Places, Put, Spot, Store};
use std::alloc::Global;

impl<B: Blocks> Store for BlockStore<B> {
    ghost seen = { λ s. seen_by s };

    ghost same_store = { λ a b. B.same_blocks a.over.below b.over.below };

    ghost agrees = { λ s sound. store_agrees B.agrees s sound };

    ghost same_again = { λ s. B.same_again s.over.below };

    ghost same_then = { λ a b c one two. B.same_then a.over.below b.over.below c.over.below one two };

    fn get(&mut self, alloc: Global, set: u16, number: u64) -> Result<Option<Record>, BlockFault> {
        self.get(alloc, set, number)
    }

    fn first_from(
        &mut self,
        alloc: Global,
        path: u16,
        owner: u64,
        from: &Bound,
    ) -> Result<Option<Spot>, BlockFault> {
        self.first_from(alloc, path, owner, from)
    }

    fn last_to(
        &mut self,
        alloc: Global,
        path: u16,
        owner: u64,
        to: &Bound,
    ) -> Result<Option<Spot>, BlockFault> {
        self.last_to(alloc, path, owner, to)
    }

    fn put(
        &mut self,
        alloc: Global,
        set: u16,
        number: Option<u64>,
        rec: &Record,
    ) -> Result<Put, BlockFault> {
        self.put(alloc, set, number, rec)
    }

    fn in_use(&mut self, alloc: Global, set: u16, number: u64) -> Result<bool, BlockFault> {
        self.in_use(alloc, set, number)
    }

    fn linkers(&mut self, alloc: Global, set: u16, number: u64) -> Result<Places, BlockFault> {
        self.linkers(alloc, set, number)
    }

    fn remove(&mut self, alloc: Global, set: u16, number: u64) -> Result<bool, BlockFault> {
        self.remove(alloc, set, number)
    }

    fn link(
        &mut self,
        alloc: Global,
        set: u16,
        number: u64,
        item: u8,
        to: Option<u64>,
    ) -> Result<(), BlockFault> {
        self.link(alloc, set, number, item, to)
    }

    fn enter(
        &mut self,
        alloc: Global,
        subset: u16,
        owner: u64,
        number: u64,
    ) -> Result<Put, BlockFault> {
        self.enter(alloc, subset, owner, number)
    }

    fn leave(
        &mut self,
        alloc: Global,
        subset: u16,
        owner: u64,
        number: u64,
    ) -> Result<bool, BlockFault> {
        self.leave(alloc, subset, owner, number)
    }

    fn quiet(&mut self) -> Result<u64, BlockFault> {
        self.quiet()
    }

    fn sync(&mut self) -> Result<(), BlockFault> {
        self.sync()
    }

    fn back_out(&mut self, alloc: Global) -> Result<(), BlockFault> {
        self.back_out(alloc)
    }

    fn say(&mut self, bytes: &[u8]) -> Result<(), BlockFault> {
        self.say(bytes)
    }
}
