ghost use Rattle.std.specs.Prelude.{◌≡◌, ⊤, length, IfErr, IfOk, IsTrue, Some, [], refl};
ghost use Rattle.std.proofs.Common.{◌∙◌};
ghost use Rattle.dms_desc.specs.Shape.{as_described};
ghost use Rattle.dms_model.specs.Db.{Db, empty_db, records_of};
ghost use Rattle.dms_model.specs.Seen.{Starts};
ghost use Rattle.std.proofs.Props.{props};
ghost use Rattle.dms_plain.specs.Listed.{AreLists};
ghost use Rattle.dms_plain.specs.Props.{AreLists-prop, RowsFit-prop};
ghost use Rattle.dms_plain.specs.Rows.{RowsFit, db_of, records_in, undo_all, IsInOrder};
ghost use Rattle.dms_plain.specs.Speaking.{OnlySpeaks, only_none, only_on};
ghost use Rattle.dms_plain.specs.Told.{text_if, point_of, no_clock};

use crate::manual::Manual;
use crate::members::Members;
use crate::rows::{self, RecordRow, Undo};
use crate::{entering, linking, removal, state, uses};
use dms_base::Memory;
use dms_block::BlockFault;
use dms_desc::{Bound, Description, Record};
use dms_model::{Places, Put, Spot, Store};
use dms_site::Site;
use std::alloc::Global;
use std::mem;

/// A database that is a list of records, with lists of the members of its structures. It writes no file, and forgets all when it is
/// dropped. It keeps what stood before each change since the last quiet point. A back-out that fails leaves nothing of it.
#[derive(Drop)]
pub struct PlainStore<S> {
    desc: Description,
    rows: Vec<RecordRow>,
    /// The lists of the first structures. Those that are missing are made at the next store: all are dropped where memory for one is
    /// refused, and where a removal makes links null.
    lists: Vec<Members>,
    undo: Vec<Undo>,
    manual: Manual,
    next: u64,
    /// How often quiet points were made durable, and how often it went back to the last one. A count stands still at its
    /// type's end.
    syncs: u64,
    outs: u64,
    site: S,
    ghost in_order: { IsInOrder rows.items },
    ghost fit: { RowsFit (as_described desc) rows.items undo.items } by { Prim.hlevel (props, RowsFit-prop) },
    ghost listed: { AreLists (as_described desc).structures lists.items (records_in rows.items) } by { Prim.hlevel (props, AreLists-prop) },
}

impl<S: Site> PlainStore<S> {
    /// A database without a record, under a copy of the description, whose next quiet point has the number 1. Where memory
    /// is refused the site comes back.
    pub fn new(alloc: Global, desc: &Description, site: S) -> Result<PlainStore<S>, (Memory, S)>
        ensures starts { IfOk result (λ s. Starts (as_described desc.now) 1 empty_db (⟦<PlainStore<S> as Store>⟧.seen s)) }
        ensures said { IfOk result (λ s. (⟦<PlainStore<S> as Store>⟧.seen s).said ≡ text_if S.tells_said (S.said site)) }
        ensures disk_faults { IfOk result (λ s. (⟦<PlainStore<S> as Store>⟧.seen s).faults.disk ≡ S.disk_faults site) }
        ensures say_faults { IfOk result (λ s. (⟦<PlainStore<S> as Store>⟧.seen s).faults.say ≡ S.say_faults site) }
        ensures site { IfOk result (λ s. s.site ≡ site) }
        ensures site_back { IfErr result (λ e. e.1 ≡ site) }
    {
        match desc.copy(alloc) {
            Ok(desc) => Ok(PlainStore {
                desc,
                rows: Vec::new(alloc),
                lists: Vec::new(alloc),
                undo: Vec::new(alloc),
                manual: Manual::new(alloc),
                next: 1,
                syncs: 0,
                outs: 0,
                site,
            }),
            Err(e) => Err((e, site)),
        }
    }

    /// The description that it is kept under.
    pub fn description(&self) -> &Description
        ensures { result.now ≡ self.now.desc }
    {
        &self.desc
    }

    /// The number that the next quiet point gets.
    pub fn next_number(&self) -> u64
        ensures { result ≡ (⟦<PlainStore<S> as Store>⟧.seen self.now).next }
    {
        self.next
    }

    /// How many records a data set has.
    pub fn count(&self, set: u16) -> usize
        ensures { (db : Db) → (⟦<PlainStore<S> as Store>⟧.seen self.now).db ≡ Some db → result ≡ length (records_of db.records set) }
    {
        rows::count(self.rows.as_slice(), set)
    }

    /// The site.
    pub fn into_site(self) -> S
        ensures { result ≡ self.site }
    {
        self.site
    }
}

impl<S: Site> Store for PlainStore<S> {
    ghost seen = { λ s. record {
      tells = ⊥;
      sound = ⊤;
      desc = as_described s.desc;
      db = Some (db_of (records_in s.rows.items) s.manual.entries);
      mark = Some (db_of (undo_all s.undo.items (records_in s.rows.items)) s.manual.mark);
      next = s.next;
      said = text_if S.tells_said (S.said s.site);
      points = [];
      durable = 0;
      here = point_of s.next (as_described s.desc) (db_of (records_in s.rows.items) s.manual.entries);
      clock = no_clock;
      whole = λ files. ⊤;
      pace = record { last = 9999; every = 0 };
      faults = record { disk = S.disk_faults s.site; say = S.say_faults s.site; full = 0; damaged = 0 };
      reads = 0;
      effort = record { spent = 0; syncs = s.syncs; outs = s.outs };
    } };

    ghost same_store = { λ a b. S.same_site a.site b.site × (S.disk_faults b.site ≡ S.disk_faults a.site) × (IsTrue S.tells → S.files b.site ≡ S.files a.site) × OnlySpeaks (S.clock a.site) (S.clock b.site) };

    ghost agrees = { λ s sound. record {
      may_stop = λ tells. absurd tells;
      number = refl;
      here = λ db is. is;
      under = λ db is. refl;
      points = λ tells. absurd tells;
      stop = λ tells. absurd tells;
      durable = λ tells. absurd tells;
    } };

    ghost same_again = { λ s. (S.same_again s.site, refl, λ tells. refl, only_none (S.clock s.site)) };

    ghost same_then = { λ a b c one two. (S.same_then a.site b.site c.site one.0 two.0, two.1 ∙ one.1, λ tells. two.2 tells ∙ one.2 tells, only_on (S.clock a.site) (S.clock b.site) (S.clock c.site) one.3 two.3) };

    fn get(&mut self, alloc: Global, set: u16, number: u64) -> Result<Option<Record>, BlockFault> {
        Ok(state::get(alloc, self.rows.as_slice(), set, number)?)
    }

    fn first_from(
        &mut self,
        alloc: Global,
        path: u16,
        owner: u64,
        from: &Bound,
    ) -> Result<Option<Spot>, BlockFault> {
        Ok(state::first_member(
            alloc,
            &self.desc,
            self.rows.as_slice(),
            &self.manual,
            path,
            owner,
            from,
        )?)
    }

    fn last_to(
        &mut self,
        alloc: Global,
        path: u16,
        owner: u64,
        to: &Bound,
    ) -> Result<Option<Spot>, BlockFault> {
        Ok(state::last_member(
            alloc,
            &self.desc,
            self.rows.as_slice(),
            &self.manual,
            path,
            owner,
            to,
        )?)
    }

    fn put(
        &mut self,
        alloc: Global,
        set: u16,
        number: Option<u64>,
        rec: &Record,
    ) -> Result<Put, BlockFault> {
        Ok(state::put(
            alloc,
            &self.desc,
            &mut self.rows,
            &mut self.lists,
            &mut self.undo,
            &self.manual,
            set,
            number,
            rec,
        )?)
    }

    fn in_use(&mut self, _alloc: Global, set: u16, number: u64) -> Result<bool, BlockFault> {
        Ok(uses::in_use(
            &self.desc,
            self.rows.as_slice(),
            self.manual.entries(),
            set,
            number,
        ))
    }

    fn linkers(&mut self, alloc: Global, set: u16, number: u64) -> Result<Places, BlockFault> {
        Ok(uses::linkers(alloc, &self.desc, self.rows.as_slice(), set, number)?)
    }

    fn remove(&mut self, alloc: Global, set: u16, number: u64) -> Result<bool, BlockFault> {
        Ok(removal::remove(
            alloc,
            &self.desc,
            &mut self.rows,
            &mut self.lists,
            &mut self.undo,
            self.manual.entries(),
            set,
            number,
        )?)
    }

    fn link(
        &mut self,
        alloc: Global,
        set: u16,
        number: u64,
        item: u8,
        to: Option<u64>,
    ) -> Result<(), BlockFault> {
        linking::link(
            alloc,
            &self.desc,
            &mut self.rows,
            &mut self.lists,
            &mut self.undo,
            set,
            number,
            item,
            to,
        )?;
        Ok(())
    }

    fn enter(
        &mut self,
        _alloc: Global,
        subset: u16,
        owner: u64,
        number: u64,
    ) -> Result<Put, BlockFault> {
        Ok(entering::enter(
            &self.desc,
            self.rows.as_slice(),
            &mut self.manual,
            subset,
            owner,
            number,
        )?)
    }

    fn leave(
        &mut self,
        _alloc: Global,
        subset: u16,
        owner: u64,
        number: u64,
    ) -> Result<bool, BlockFault> {
        Ok(self.manual.leave(subset, owner, number)?)
    }

    fn quiet(&mut self) -> Result<u64, BlockFault> {
        let number = self.next;
        if number == u64::MAX {
            return Err(BlockFault::Memory);
        }
        self.undo.clear();
        self.manual.settle();
        self.next = number + 1;
        Ok(number)
    }

    fn sync(&mut self) -> Result<(), BlockFault> {
        self.syncs = self.syncs.saturating_add(1);
        Ok(())
    }

    fn back_out(&mut self, alloc: Global) -> Result<(), BlockFault> {
        let mut undo = mem::replace(&mut self.undo, Vec::new(alloc));
        let mut rows = mem::replace(&mut self.rows, Vec::new(alloc));
        let mut lists = mem::replace(&mut self.lists, Vec::new(alloc));
        state::take_back(
            alloc,
            &self.desc,
            &mut rows,
            &mut lists,
            &mut undo,
            &mut self.manual,
        )?;
        self.rows = rows;
        self.lists = lists;
        self.outs = self.outs.saturating_add(1);
        Ok(())
    }

    fn say(&mut self, bytes: &[u8]) -> Result<(), BlockFault> {
        match self.site.say(bytes) {
            Ok(()) => Ok(()),
            Err(_) => Err(BlockFault::Say),
        }
    }
}
