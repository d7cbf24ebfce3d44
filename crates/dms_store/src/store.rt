ghost use Rattle.std.specs.Prelude.{IsTrue};
ghost use Rattle.std.proofs.Props.{props};
ghost use Rattle.dms_desc.specs.Shape.{as_described};
ghost use Rattle.dms_store.specs.Taken.{AreKnown};
ghost use Rattle.dms_store.specs.TakenLaws.{AreKnown-prop};

use crate::known::Known;
use crate::note::note;
use crate::{getting, paths, putting, relating};
use dms_base::Memory;
use dms_block::{BlockFault, Blocks, Overlay};
use dms_desc::{Bound, Description, Record};
use dms_model::{Places, Put, Spot};
use std::alloc::Global;

/// A database on blocks. Between two calls nothing is written over them.
#[derive(Drop)]
pub struct BlockStore<B: Blocks> {
    pub desc: Description,
    pub over: Overlay<B>,
    /// How often it answered that a block is damaged. The count stands still at its type's end.
    pub found: u64,
    /// Which record numbers are known to be taken.
    pub known: Known,
    pub ghost taken: { IsTrue (B.held over.below).told → AreKnown (as_described desc) known.counts (B.held over.below).content } by { Prim.hlevel (props, AreKnown-prop) },
    pub ghost marked: { IsTrue (B.held over.below).told → AreKnown (as_described desc) known.marked (B.held over.below).mark } by { Prim.hlevel (props, AreKnown-prop) },
}

impl<B: Blocks> BlockStore<B> {
    ghost use Rattle.std.specs.Prelude.{◌≡◌, ◌<◌, ◌+◌, ◌^◌, ◌++◌, [], ◌∷◌, Some, IfOk, IfSome, IfErr, OnOk, IsErrOf, IsOkUnless, ◌*◌, length, true};
    ghost use Rattle.dms_block.specs.Faults.{IfFull, Undamaged};
    ghost use Rattle.dms_block.specs.Held.{is_due};
    ghost use Rattle.dms_block.specs.Texts.{Prints};
    ghost use Rattle.dms_model.specs.Changing.{Enters, FullWhereEntered, FullWhereLeft, FullWhereRemoved, IsLinkOf, IsManual, Leaves, Links, Removes, SpendsFor, TellsWhere, removal_count, storing_count};
    ghost use Rattle.dms_model.specs.Db.{Db};
    ghost use Rattle.dms_model.specs.Fitting.{IsDataSet, IsNumber, IsStructure, MayStart, PutFits, RecordFits, SpotFits};
    ghost use Rattle.dms_model.specs.Members.{first_member, last_member};
    ghost use Rattle.dms_model.specs.Points.{StoreLeaves};
    ghost use Rattle.dms_model.specs.Seen.{GoesBack, HasStoreCauses, IfPointsTold, IsMute, IsSilent, Keeps, KeepsPoints, QuietMade, PointsDurable, SaysPart, Syncs};
    ghost use Rattle.dms_store.specs.Lifted.{IsUsable, Serves};
    ghost use Rattle.dms_model.specs.Stores.{Tells};
    ghost use Rattle.dms_model.specs.Uses.{in_use, linkers};
    ghost use Rattle.dms_store.specs.Looked.{Looked};
    ghost use Rattle.dms_store.specs.PuttingStore.{Changes, FullWhere, Stores};
    ghost use Rattle.dms_store.specs.Storing.{seen_by};
    ghost use Rattle.dms_store.specs.Listed.{IfIndexed};
    ghost use Rattle.dms_tree.specs.Looks.{IfDigits, ReadsFew};
    ghost use Rattle.std.specs.FinMap.{get};

    /// The database that blocks spell, under a copy of the description. Where memory is refused the blocks come back.
    pub fn new(alloc: Global, desc: &Description, below: B) -> Result<BlockStore<B>, (Memory, B)>
        ensures desc { IfOk result (λ s. as_described s.desc ≡ as_described desc.now) }
        ensures below { IfOk result (λ s. s.over.below ≡ below) }
        ensures found { IfOk result (λ s. s.found ≡ 0) }
        ensures usable { (B.held below).sound → Serves (as_described desc.now) (B.held below) → IfOk result (λ s. IsUsable (as_described s.desc) s.over) }
        ensures below_back { IfErr result (λ e. e.1 ≡ below) }
    {
        match desc.copy(alloc) {
            Ok(desc) => Ok(BlockStore {
                desc,
                over: Overlay::new(alloc, below),
                found: 0,
                known: Known::nothing(),
            }),
            Err(e) => Err((e, below)),
        }
    }

    /// The blocks.
    pub fn into_below(self) -> B
        ensures { result ≡ self.over.below }
    {
        self.over.into_below()
    }

    /// The record of a data set with this number, or none. A number that no record may have is none without a read.
    pub fn get(
        &mut self,
        alloc: Global,
        set: u16,
        number: u64,
    ) -> Result<Option<Record>, BlockFault>
        requires sound { IsUsable (as_described self.old.desc) self.old.over }
        requires set { IsDataSet (as_described self.old.desc) set }
        ensures desc { self.new.desc ≡ self.old.desc }
        ensures found { Tells (seen_by self.old).db result (λ d. get d.records (set, number)) }
        ensures fits { IfOk result (λ o. IfSome o (RecordFits (as_described self.old.desc) set)) }
        ensures number { IfOk result (λ o. IfSome o (λ r. IsNumber (as_described self.old.desc) set number)) }
        ensures looked { Looked result (seen_by self.old) (seen_by self.new) }
        ensures same { B.same_blocks self.old.over.below self.new.over.below }
    {
        let found = getting::get(&mut self.over, alloc, &self.desc, set, number);
        self.known.keep(&found);
        note(&mut self.found, found)
    }

    /// The first member of a structure, for an owner (0 where it is disjoint), behind a bound. It is the database's where
    /// the owner is below 2^32 - 1 and the bound's key fits the structure's, with a member's number below 2^32 - 1. A
    /// manual subset has no member yet. Over an INDEX SEQUENTIAL set it reads at most three blocks more than so many
    /// binary digits as are enough for the number of its entries.
    pub fn first_from(
        &mut self,
        alloc: Global,
        path: u16,
        owner: u64,
        from: &Bound,
    ) -> Result<Option<Spot>, BlockFault>
        requires sound { IsUsable (as_described self.old.desc) self.old.over }
        requires path { IsStructure (as_described self.old.desc) path }
        requires owner { owner < 2 ^ 32 }
        ensures desc { self.new.desc ≡ self.old.desc }
        ensures found { MayStart (as_described self.old.desc) path owner from.now → Tells (seen_by self.old).db result (λ d. first_member (as_described self.old.desc) d path owner from.now) }
        ensures fits { IfOk result (λ o. IfSome o (SpotFits (as_described self.old.desc) path)) }
        ensures few { IfIndexed (as_described self.old.desc) path (seen_by self.old).db (λ xs. IfDigits xs (λ digits. ReadsFew (3 + digits) self.old.over self.new.over)) }
        ensures looked { Looked result (seen_by self.old) (seen_by self.new) }
        ensures same { B.same_blocks self.old.over.below self.new.over.below }
    {
        let found = paths::first_from(&mut self.over, alloc, &self.desc, path, owner, from);
        self.known.keep(&found);
        note(&mut self.found, found)
    }

    /// The last member of a structure, for an owner (0 where it is disjoint), before a bound. It is the database's where
    /// the owner is below 2^32 - 1 and the bound's key fits the structure's, with a member's number below 2^32 - 1. A
    /// manual subset has no member yet.
    pub fn last_to(
        &mut self,
        alloc: Global,
        path: u16,
        owner: u64,
        to: &Bound,
    ) -> Result<Option<Spot>, BlockFault>
        requires sound { IsUsable (as_described self.old.desc) self.old.over }
        requires path { IsStructure (as_described self.old.desc) path }
        requires owner { owner < 2 ^ 32 }
        ensures desc { self.new.desc ≡ self.old.desc }
        ensures found { MayStart (as_described self.old.desc) path owner to.now → Tells (seen_by self.old).db result (λ d. last_member (as_described self.old.desc) d path owner to.now) }
        ensures fits { IfOk result (λ o. IfSome o (SpotFits (as_described self.old.desc) path)) }
        ensures looked { Looked result (seen_by self.old) (seen_by self.new) }
        ensures same { B.same_blocks self.old.over.below self.new.over.below }
    {
        let found = paths::last_to(&mut self.over, alloc, &self.desc, path, owner, to);
        self.known.keep(&found);
        note(&mut self.found, found)
    }

    /// Makes a quiet point, and answers its number. Takes no memory: it answers Memory exactly where the next number is 2^64 - 1,
    /// which no point may have.
    /// Where the audit has no room no stop leaves the new point.
    pub fn quiet(&mut self) -> Result<u64, BlockFault>
        requires { IsUsable (as_described self.old.desc) self.old.over }
        ensures desc { self.new.desc ≡ self.old.desc }
        ensures number { (seen_by self.old).next + 1 < 2 ^ 64 → IfOk result (λ n. n ≡ (seen_by self.old).next) }
        ensures made { OnOk result (QuietMade (seen_by self.old) (seen_by self.new)) }
        ensures mute { IsMute (seen_by self.old) (seen_by self.new) }
        ensures leaves { let s = seen_by self.old in IfPointsTold s (StoreLeaves s.whole s.clock (seen_by self.new).clock s.durable (s.points ++ s.here ∷ []) (s.next + 1) s.said) }
        ensures numbered { OnOk result ((seen_by self.old).next + 1 < 2 ^ 64) }
        ensures memory { (seen_by self.old).next + 1 < 2 ^ 64 → IsErrOf result BlockFault.Memory → ⊥ }
        ensures same { B.same_blocks self.old.over.below self.new.over.below }
        ensures effort { (seen_by self.new).effort ≡ (seen_by self.old).effort }
        ensures undamaged { (d : Db) → (seen_by self.old).db ≡ Some d → Undamaged result }
        ensures mute_fault { IsErrOf result BlockFault.Say → ⊥ }
        ensures full { IfFull result (λ f. f ≡ (seen_by self.old).pace.last) }
        ensures no_point { let s = seen_by self.old in IfFull result (λ f. IfPointsTold s (StoreLeaves s.whole s.clock (seen_by self.new).clock s.durable s.points s.next s.said)) }
        ensures causes { HasStoreCauses result (seen_by self.old) (seen_by self.new) }
    {
        let made = self.over.below.quiet();
        self.known.mark(&made);
        note(&mut self.found, made)
    }

    /// Makes all quiet points so far durable. Takes no memory. The audit may have no room only where a control point is due.
    pub fn sync(&mut self) -> Result<(), BlockFault>
        requires { IsUsable (as_described self.old.desc) self.old.over }
        ensures desc { self.new.desc ≡ self.old.desc }
        ensures made { OnOk result (PointsDurable (seen_by self.old) (seen_by self.new)) }
        ensures memory { IsErrOf result BlockFault.Memory → ⊥ }
        ensures silent { IsSilent (seen_by self.old) (seen_by self.new) }
        ensures same { B.same_blocks self.old.over.below self.new.over.below }
        ensures effort { Syncs result (seen_by self.old).effort (seen_by self.new).effort }
        ensures undamaged { (d : Db) → (seen_by self.old).db ≡ Some d → Undamaged result }
        ensures mute_fault { IsErrOf result BlockFault.Say → ⊥ }
        ensures full { IfFull result (λ f. f ≡ (seen_by self.old).pace.last) }
        ensures due { IfFull result (λ f. is_due (seen_by self.old).pace.every (seen_by self.old).effort.syncs ≡ true) }
        ensures causes { HasStoreCauses result (seen_by self.old) (seen_by self.new) }
    {
        let made = self.over.below.sync();
        self.known.keep(&made);
        note(&mut self.found, made)
    }

    /// Goes back to the last quiet point, or to the database that it began with.
    /// Answers the blocks' fault, which is never Say, and not Damaged where they spell a database.
    pub fn back_out(&mut self, alloc: Global) -> Result<(), BlockFault>
        requires { IsUsable (as_described self.old.desc) self.old.over }
        ensures desc { self.new.desc ≡ self.old.desc }
        ensures db { OnOk result ((seen_by self.new).db ≡ (seen_by self.old).mark) }
        ensures keeps { OnOk result (KeepsPoints (seen_by self.old) (seen_by self.new)) }
        ensures silent { IsSilent (seen_by self.old) (seen_by self.new) }
        ensures same { B.same_blocks self.old.over.below self.new.over.below }
        ensures effort { GoesBack result (seen_by self.old).effort (seen_by self.new).effort }
        ensures undamaged { (d : Db) → (seen_by self.old).db ≡ Some d → Undamaged result }
        ensures mute_fault { IsErrOf result BlockFault.Say → ⊥ }
        ensures full { IfFull result (λ f. f ≡ 9999) }
        ensures causes { HasStoreCauses result (seen_by self.old) (seen_by self.new) }
    {
        let gone = self.over.below.back_out(alloc);
        self.known.go_back(&gone);
        note(&mut self.found, gone)
    }

    /// Prints. Takes no memory of its own. A failed call prints the first bytes or none.
    pub fn say(&mut self, bytes: &[u8]) -> Result<(), BlockFault>
        requires { IsUsable (as_described self.old.desc) self.old.over }
        ensures desc { self.new.desc ≡ self.old.desc }
        ensures text { OnOk result (Prints (seen_by self.old).said (seen_by self.new).said bytes.now) }
        ensures part { SaysPart (seen_by self.old) (seen_by self.new) bytes.now }
        ensures keeps { OnOk result (Keeps (seen_by self.old) (seen_by self.new)) }
        ensures fault { IsOkUnless result BlockFault.Say }
        ensures same { B.same_blocks self.old.over.below self.new.over.below }
        ensures effort { (seen_by self.new).effort ≡ (seen_by self.old).effort }
        ensures causes { HasStoreCauses result (seen_by self.old) (seen_by self.new) }
    {
        let said = self.over.below.say(bytes);
        self.known.keep(&said);
        note(&mut self.found, said)
    }

    /// Stores a new record of a data set under the least free number, with null links, which its owner counts from then
    /// on; or replaces all items but the links of the record with this number, which keeps its owner. It does so where
    /// that record stands, and the owner of a new one.
    pub fn put(
        &mut self,
        alloc: Global,
        set: u16,
        number: Option<u64>,
        rec: &Record,
    ) -> Result<Put, BlockFault>
        requires sound { IsUsable (as_described self.old.desc) self.old.over }
        requires set { IsDataSet (as_described self.old.desc) set }
        requires number { IfSome number (IsNumber (as_described self.old.desc) set) }
        requires fits { RecordFits (as_described self.old.desc) set rec.now }
        ensures desc { self.new.desc ≡ self.old.desc }
        ensures fits { IfOk result (PutFits (as_described self.old.desc) set) }
        ensures put { IfOk result (Stores (as_described self.old.desc) (seen_by self.old).db (seen_by self.new).db set number rec.now) }
        ensures full { IfFull result (λ f. f ≡ (seen_by self.old).pace.last) }
        ensures stored { FullWhere (as_described self.old.desc) (seen_by self.old).db set number rec.now result }
        ensures changed { Changes result (seen_by self.old) (seen_by self.new) }
        ensures spends { SpendsFor (seen_by self.old).db (as_described self.old.desc) (storing_count (as_described self.old.desc) set number) (seen_by self.old).effort (seen_by self.new).effort }
        ensures same { B.same_blocks self.old.over.below self.new.over.below }
    {
        let taken = self.known.of(set);
        let stored = putting::put(&mut self.over, alloc, &self.desc, set, number, rec, taken);
        self.known.note_put(set, number, &stored);
        note(&mut self.found, stored)
    }

    /// Whether a counted link refers to a record, its own included, an entry of a manual subset names it, or it owns records
    /// or entries. It may read the whole list of each manual subset of the data set.
    pub fn in_use(&mut self, alloc: Global, set: u16, number: u64) -> Result<bool, BlockFault>
        requires sound { IsUsable (as_described self.old.desc) self.old.over }
        ensures desc { self.new.desc ≡ self.old.desc }
        ensures found { IfOk result (TellsWhere (seen_by self.old).db set number (λ d. in_use (as_described self.old.desc) d set number)) }
        ensures looked { Looked result (seen_by self.old) (seen_by self.new) }
        ensures same { B.same_blocks self.old.over.below self.new.over.below }
    {
        let used = dms_removal::in_use(&mut self.over, alloc, &self.desc, set, number);
        self.known.keep(&used);
        note(&mut self.found, used)
    }

    /// The records whose self-correcting link refers to a record, by data set and number. It reads the slots of the data sets
    /// that have an item for such links into the record's own.
    pub fn linkers(&mut self, alloc: Global, set: u16, number: u64) -> Result<Places, BlockFault>
        requires sound { IsUsable (as_described self.old.desc) self.old.over }
        ensures desc { self.new.desc ≡ self.old.desc }
        ensures found { IfOk result (TellsWhere (seen_by self.old).db set number (λ d. linkers (as_described self.old.desc) d set number)) }
        ensures looked { Looked result (seen_by self.old) (seen_by self.new) }
        ensures same { B.same_blocks self.old.over.below self.new.over.below }
    {
        let found = relating::linkers(&mut self.over, alloc, &self.desc, set, number);
        self.known.keep(&found);
        note(&mut self.found, found)
    }

    /// Removes a record that isn't in use: the self-correcting links to it are null then. Answers whether it did.
    pub fn remove(&mut self, alloc: Global, set: u16, number: u64) -> Result<bool, BlockFault>
        requires sound { IsUsable (as_described self.old.desc) self.old.over }
        requires set { IsDataSet (as_described self.old.desc) set }
        requires number { IsNumber (as_described self.old.desc) set number }
        ensures desc { self.new.desc ≡ self.old.desc }
        ensures removed { IfOk result (Removes (seen_by self.old).db (seen_by self.new).db (as_described self.old.desc) set number) }
        ensures stands { FullWhereRemoved (seen_by self.old).db (as_described self.old.desc) set number result }
        ensures full { IfFull result (λ f. f ≡ (seen_by self.old).pace.last) }
        ensures changed { Changes result (seen_by self.old) (seen_by self.new) }
        ensures spends { SpendsFor (seen_by self.old).db (as_described self.old.desc) (removal_count (as_described self.old.desc) set number) (seen_by self.old).effort (seen_by self.new).effort }
        ensures same { B.same_blocks self.old.over.below self.new.over.below }
    {
        let removed = relating::remove(&mut self.over, alloc, &self.desc, set, number);
        self.known.note_gone(set, number, &removed);
        note(&mut self.found, removed)
    }

    /// Sets a link of a record, by its item's number from 1: null, or to the record with this number of the link's data set.
    pub fn link(
        &mut self,
        alloc: Global,
        set: u16,
        number: u64,
        item: u8,
        to: Option<u64>,
    ) -> Result<(), BlockFault>
        requires sound { IsUsable (as_described self.old.desc) self.old.over }
        requires set { IsDataSet (as_described self.old.desc) set }
        requires item { IsLinkOf (as_described self.old.desc) set item }
        requires to { IfSome to (λ n. n < 2 ^ 32) }
        ensures desc { self.new.desc ≡ self.old.desc }
        ensures linked { OnOk result (Links (seen_by self.old).db (seen_by self.new).db (as_described self.old.desc) set number item to) }
        ensures full { IfFull result (λ f. f ≡ (seen_by self.old).pace.last) }
        ensures changed { Changes result (seen_by self.old) (seen_by self.new) }
        ensures spends { SpendsFor (seen_by self.old).db (as_described self.old.desc) (λ d. 3) (seen_by self.old).effort (seen_by self.new).effort }
        ensures same { B.same_blocks self.old.over.below self.new.over.below }
    {
        let linked = relating::link(&mut self.over, alloc, &self.desc, set, number, item, to);
        self.known.keep(&linked);
        note(&mut self.found, linked)
    }

    /// Enters a record in a manual subset for an owner (0 where it is disjoint).
    pub fn enter(
        &mut self,
        alloc: Global,
        subset: u16,
        owner: u64,
        number: u64,
    ) -> Result<Put, BlockFault>
        requires sound { IsUsable (as_described self.old.desc) self.old.over }
        requires subset { IsManual (as_described self.old.desc) subset }
        requires owner { owner < 2 ^ 32 }
        ensures desc { self.new.desc ≡ self.old.desc }
        ensures entered { IfOk result (Enters (seen_by self.old).db (seen_by self.new).db (as_described self.old.desc) subset owner number) }
        ensures stands { FullWhereEntered (seen_by self.old).db (as_described self.old.desc) subset owner number result }
        ensures full { IfFull result (λ f. f ≡ (seen_by self.old).pace.last) }
        ensures changed { Changes result (seen_by self.old) (seen_by self.new) }
        ensures spends { SpendsFor (seen_by self.old).db (as_described self.old.desc) (λ d. 2) (seen_by self.old).effort (seen_by self.new).effort }
        ensures same { B.same_blocks self.old.over.below self.new.over.below }
    {
        let entered = relating::enter(&mut self.over, alloc, &self.desc, subset, owner, number);
        self.known.keep(&entered);
        note(&mut self.found, entered)
    }

    /// Takes an entry out of a manual subset. Answers whether it stood.
    pub fn leave(
        &mut self,
        alloc: Global,
        subset: u16,
        owner: u64,
        number: u64,
    ) -> Result<bool, BlockFault>
        requires sound { IsUsable (as_described self.old.desc) self.old.over }
        requires subset { IsManual (as_described self.old.desc) subset }
        requires owner { owner < 2 ^ 32 }
        ensures desc { self.new.desc ≡ self.old.desc }
        ensures left { IfOk result (Leaves (seen_by self.old).db (seen_by self.new).db (as_described self.old.desc) subset owner number) }
        ensures stands { FullWhereLeft (seen_by self.old).db (as_described self.old.desc) subset owner number result }
        ensures full { IfFull result (λ f. f ≡ (seen_by self.old).pace.last) }
        ensures changed { Changes result (seen_by self.old) (seen_by self.new) }
        ensures spends { SpendsFor (seen_by self.old).db (as_described self.old.desc) (λ d. 2) (seen_by self.old).effort (seen_by self.new).effort }
        ensures same { B.same_blocks self.old.over.below self.new.over.below }
    {
        let left = relating::leave(&mut self.over, alloc, &self.desc, subset, owner, number);
        self.known.keep(&left);
        note(&mut self.found, left)
    }
}
