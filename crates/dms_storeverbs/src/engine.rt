ghost use Rattle.std.specs.Prelude.{◌≡◌, true, false, Some, IfOk, OnOk, IsErrOf, IsOkUnless, IfErr};
ghost use Rattle.dms_desc.specs.Shape.{as_described};
ghost use Rattle.dms_desc_bytes.specs.WellFormed.{IsWellFormed};
ghost use Rattle.dms_model.specs.Areas.{ProgramsFit};
ghost use Rattle.dms_model.specs.Db.{Db};
ghost use Rattle.dms_model.specs.DescribedCode.{described_set};
ghost use Rattle.dms_model.specs.Props.{IsWellFormed-prop, ProgramsFit-prop};
ghost use Rattle.dms_block.specs.Faults.{IfFull, NotFull, Undamaged};
ghost use Rattle.dms_block.specs.Texts.{Prints};
ghost use Rattle.dms_model.specs.Seen.{GoesBack, IsSilent, Keeps, SaysPart, StaysDurable};
ghost use Rattle.dms_model.specs.Session.{Session, fresh_session, end_session, someone_works};

use crate::programs;
use dms_base::Memory;
use dms_block::BlockFault;
use dms_desc::Description;
use dms_locks::WaitList;
use dms_model::Store;
use dms_paths::Program;
use std::alloc::Global;

/// The machine of verbs over a store: what programs ask of a database, one verb after another. What they have at hand fits
/// the data sets. After a fault it is only taken apart.
pub struct Engine<St: Store> {
    /// What the store is kept under.
    pub desc: Description,
    /// What keeps the database.
    pub store: St,
    /// The open programs, in the order of their opening.
    pub programs: Vec<Program>,
    /// Whether a syncpoint is pending.
    pub pending: bool,
    /// The transactions since the last syncpoint. The count stands still at its type's end.
    pub since: u64,
    /// For which programs a program waits.
    pub waits: WaitList,
    ghost under: { (St.seen store).desc ≡ as_described desc } by { described_set (St.seen store).desc (as_described desc) },
    ghost formed: { IsWellFormed (as_described desc) } by { IsWellFormed-prop (as_described desc) },
    ghost fit: { ProgramsFit (as_described desc) programs.items } by { ProgramsFit-prop (as_described desc) programs.items },
}

impl<St: Store> Engine<St> {
    ghost use Rattle.dms_storeverbs.specs.View.{EngineLasts, SameSession, StandsFor, engine_view, view};

    /// An engine without programs over a store, under a description that a schema can have. After `Memory` the store is as
    /// it was.
    pub fn new(alloc: Global, desc: &Description, store: St) -> Result<Engine<St>, (Memory, St)>
        requires sound { (St.seen store).sound }
        requires desc { (St.seen store).desc ≡ as_described desc.now }
        requires formed { IsWellFormed (as_described desc.now) }
        requires mark { (St.seen store).mark ≡ (St.seen store).db }
        ensures stands { IfOk result (λ e. (d : Db) → (St.seen store).db ≡ Some d → StandsFor (view e) (fresh_session d (St.seen store).next)) }
        ensures store { IfOk result (λ e. e.store ≡ store) }
        ensures described { IfOk result (λ e. as_described e.desc ≡ as_described desc.now) }
        ensures memory { IfErr result (λ e. e.1 ≡ store) }
    {
        match desc.copy(alloc) {
            Err(fault) => Err((fault, store)),
            Ok(desc) => Ok(Engine {
                desc,
                store,
                programs: Vec::new(alloc),
                pending: false,
                since: 0,
                waits: WaitList::new(alloc),
            }),
        }
    }

    /// Goes back to the last quiet point where a program is in transaction state.
    /// Answers the store's fault, which is never Say, not Damaged where the store holds a database, and Full only of file
    /// 9,999, where a program is in transaction state.
    pub fn end(&mut self, alloc: Global) -> Result<(), BlockFault>
        requires sound { (engine_view self.old).sound }
        ensures ended { OnOk result ((s : Session) → StandsFor (view self.old) s → StandsFor (view self.new) (end_session s)) }
        ensures points { OnOk result (StaysDurable (engine_view self.old) (engine_view self.new)) }
        ensures undamaged { (d : Db) → (engine_view self.old).db ≡ Some d → Undamaged result }
        ensures goes_back { someone_works self.old.programs.items ≡ true → GoesBack result (engine_view self.old).effort (engine_view self.new).effort }
        ensures stays { someone_works self.old.programs.items ≡ false → (engine_view self.new).effort ≡ (engine_view self.old).effort }
        ensures room { someone_works self.old.programs.items ≡ false → NotFull result }
        ensures file { IfFull result (λ f. f ≡ 9999) }
        ensures silent { IsSilent (engine_view self.old) (engine_view self.new) }
        ensures mute_fault { IsErrOf result BlockFault.Say → ⊥ }
        ensures lasts { EngineLasts result self.old self.new }
    {
        if !programs::someone_works(self.programs.as_slice()) {
            return Ok(());
        }
        self.store.back_out(alloc)
    }

    /// Prints. Takes no memory of its own. A failed call prints the first bytes or none.
    pub fn say(&mut self, bytes: &[u8]) -> Result<(), BlockFault>
        requires sound { (engine_view self.old).sound }
        ensures text { OnOk result (Prints (engine_view self.old).said (engine_view self.new).said bytes.now) }
        ensures part { SaysPart (engine_view self.old) (engine_view self.new) bytes.now }
        ensures stands { OnOk result (SameSession self.old self.new) }
        ensures keeps { OnOk result (Keeps (engine_view self.old) (engine_view self.new)) }
        ensures memory { IsErrOf result BlockFault.Memory → ⊥ }
        ensures undamaged { (d : Db) → (engine_view self.old).db ≡ Some d → Undamaged result }
        ensures effort { (engine_view self.new).effort ≡ (engine_view self.old).effort }
        ensures programs { self.new.programs ≡ self.old.programs }
        ensures pending { self.new.pending ≡ self.old.pending }
        ensures since { self.new.since ≡ self.old.since }
        ensures waits { self.new.waits ≡ self.old.waits }
        ensures fault { IsOkUnless result BlockFault.Say }
        ensures lasts { EngineLasts result self.old self.new }
    {
        self.store.say(bytes)
    }

    /// The description that the store is kept under.
    pub fn description(&self) -> &Description
        ensures { result.now ≡ self.now.desc }
    {
        &self.desc
    }

    /// The store, taken out.
    pub fn into_store(self) -> St
        ensures { result ≡ self.store }
    {
        let Engine {
            desc: _desc,
            store,
            programs: _programs,
            pending: _,
            since: _,
            waits: _waits,
        } = self;
        store
    }
}
