ghost use Rattle.std.specs.Prelude.{◌≡◌, ◌^◌, ◌+◌, ◌≤◌, ◌<◌, true, false, Some, None, IfOk, OnOk, IsErrOf, slice_get, length};
ghost use Rattle.dms_desc.specs.Shape.{as_described};
ghost use Rattle.dms_model.specs.Programs.{Program};
ghost use Rattle.dms_model.specs.Seen.{IsMute, IsSilent, StaysDurable};
ghost use Rattle.dms_model.specs.Session.{Session, keep, restart_of, settle, store_step, begin_step, end_step, abort_step, is_waits};
ghost use Rattle.dms_model.specs.Fitting.{IsDataSet};
ghost use Rattle.dms_model.specs.declared.verb.Verb.{Verb};
ghost use Rattle.dms_block.specs.Faults.{IfFull, NotFull, Undamaged};
ghost use Rattle.dms_model.specs.Db.{Db};
ghost use Rattle.dms_storeverbs.specs.Costs.{Costs, SpendsWhere};
ghost use Rattle.dms_model.specs.Changing.{ChangesSome};
ghost use Rattle.dms_model.specs.Counting.{area_count, restart_count};
ghost use Rattle.dms_storeverbs.specs.Keeping.{FullWhereKept, WasKept, kept_if};
ghost use Rattle.dms_storeverbs.specs.Rooms.{FullFor, FullForQuiet, NoPointWhere};
ghost use Rattle.dms_storeverbs.specs.View.{Does, DoesWhere, EngineLasts, MayStep, Room, engine_view, view};

use crate::refusal::{Refusal, refuse, succeed, wait_for};
use crate::schema::restart_of;
use crate::storing::{JudgedRecord, judge_record};
use crate::{Engine, areas, programs};
use dms_base::{Bytes, Category};
use dms_block::BlockFault;
use dms_locks::Verdict;
use dms_model::{Answer, Put, Reply, Store};
use std::alloc::Global;

impl<St: Store> Engine<St> {
    /// Stores a program's area of a data set, by the list of refusals that STORE, BEGIN and END share.
    #[tactic(auto, using(std::proofs::lemmas::Option::gets))]
    fn keep(&mut self, alloc: Global, i: usize, set: u16) -> Result<Option<Refusal>, BlockFault>
        requires set { IsDataSet (as_described self.old.desc) set }
        requires place { i < length self.old.programs.items }
        requires sound { (engine_view self.old).sound }
        ensures kept { IfOk result (λ r. WasKept (as_described self.old.desc) i (λ p db. keep (as_described self.old.desc) p db set) self.old.programs.items (view self.old) r (view self.new)) }
        ensures count { OnOk result (length self.new.programs.items ≡ length self.old.programs.items) }
        ensures points { OnOk result (StaysDurable (engine_view self.old) (engine_view self.new)) }
        ensures silent { IsSilent (engine_view self.old) (engine_view self.new) }
        ensures undamaged { (d : Db) → (engine_view self.old).db ≡ Some d → Undamaged result }
        ensures changes { ChangesSome (engine_view self.old).effort (engine_view self.new).effort }
        ensures spends { (p : Program) → slice_get self.old.programs.items i ≡ Some p → SpendsWhere self.old self.new (λ s. area_count (as_described self.old.desc) p s.db set) }
        ensures mute_fault { IsErrOf result BlockFault.Say → ⊥ }
        ensures file { IfFull result (λ f. f ≡ (engine_view self.old).pace.last) }
        ensures full { FullWhereKept (as_described self.old.desc) i (λ p db. keep (as_described self.old.desc) p db set) self.old.programs.items (view self.old) result }
        ensures lasts { EngineLasts result self.old self.new }
    {
        let (number, rec) = match judge_record(alloc, &self.desc, &self.programs[i], set)? {
            JudgedRecord::Refused(refusal) => return Ok(Some(refusal)),
            JudgedRecord::Ready(number, rec) => (number, rec),
        };
        match self.store.put(alloc, set, number, &rec)? {
            Put::Stored(number) => {
                areas::note_stored(&mut self.programs[i], &self.desc, set, number, rec.values)?;
                Ok(None)
            }
            Put::Duplicate(other) => Ok(Some(Refusal {
                category: Category::Duplicates,
                name: self.desc.name_of(other),
            })),
            Put::Full => Ok(Some(Refusal {
                category: Category::LimitError,
                name: self.desc.name_of(set),
            })),
        }
    }

    /// Stores a program's area of the restart data set, where that is said.
    #[tactic(auto, using(std::proofs::lemmas::Option::gets))]
    fn keep_restart(
        &mut self,
        alloc: Global,
        i: usize,
        audit: bool,
    ) -> Result<Option<Refusal>, BlockFault>
        requires restart { IsDataSet (as_described self.old.desc) (restart_of (as_described self.old.desc)) }
        requires place { i < length self.old.programs.items }
        requires sound { (engine_view self.old).sound }
        ensures kept { IfOk result (λ r. WasKept (as_described self.old.desc) i (kept_if audit (as_described self.old.desc)) self.old.programs.items (view self.old) r (view self.new)) }
        ensures count { OnOk result (length self.new.programs.items ≡ length self.old.programs.items) }
        ensures points { OnOk result (StaysDurable (engine_view self.old) (engine_view self.new)) }
        ensures silent { IsSilent (engine_view self.old) (engine_view self.new) }
        ensures undamaged { (d : Db) → (engine_view self.old).db ≡ Some d → Undamaged result }
        ensures changes { ChangesSome (engine_view self.old).effort (engine_view self.new).effort }
        ensures spends { (p : Program) → slice_get self.old.programs.items i ≡ Some p → SpendsWhere self.old self.new (λ s. restart_count audit (as_described self.old.desc) p s.db) }
        ensures no_memory { audit ≡ false → IsErrOf result BlockFault.Memory → ⊥ }
        ensures mute_fault { IsErrOf result BlockFault.Say → ⊥ }
        ensures file { IfFull result (λ f. f ≡ (engine_view self.old).pace.last) }
        ensures full { FullWhereKept (as_described self.old.desc) i (kept_if audit (as_described self.old.desc)) self.old.programs.items (view self.old) result }
        ensures none { audit ≡ false → NotFull result }
        ensures lasts { EngineLasts result self.old self.new }
    {
        if !audit {
            return Ok(None);
        }
        let restart = restart_of(&self.desc);
        self.keep(alloc, i, restart)
    }

    /// Makes a quiet point where nobody works any more, and takes the syncpoint that is pending. Takes no
    /// memory.
    #[tactic(auto, using(std::proofs::lemmas::Option::gets), unfolding(dms_model::specs::Session::settle))]
    fn settle(&mut self, alloc: Global) -> Result<Answer, BlockFault>
        requires sound { (engine_view self.old).sound }
        ensures step { DoesWhere (λ s. Room s.next) self.old self.new result (λ s. settle s) }
        ensures mute { IsMute (engine_view self.old) (engine_view self.new) }
        ensures costs { Costs false result (engine_view self.old).effort (engine_view self.new).effort }
        ensures spent { (engine_view self.new).effort.spent ≤ (engine_view self.old).effort.spent }
        ensures no_memory { (engine_view self.old).next + 1 < 2 ^ 64 → IsErrOf result BlockFault.Memory → ⊥ }
        ensures no_wait { IfOk result (λ a. is_waits a.reply ≡ false) }
        ensures mute_fault { IsErrOf result BlockFault.Say → ⊥ }
        ensures file { IfFull result (λ f. f ≡ (engine_view self.old).pace.last) }
        ensures full { FullForQuiet self.old result }
        ensures no_point { NoPointWhere (λ s. Room s.next) self.old self.new result (λ s. settle s) }
        ensures lasts { EngineLasts result self.old self.new }
    {
        if programs::someone_works(self.programs.as_slice()) {
            return Ok(succeed(alloc));
        }
        let number = self.store.quiet()?;
        programs::clear_active(self.programs.as_mut_slice());
        if !self.pending {
            return Ok(succeed(alloc));
        }
        self.store.sync()?;
        self.pending = false;
        self.since = 0;
        Ok(Answer {
            reply: Reply::Done(Bytes::new(alloc)),
            sync: Some(number),
        })
    }

    /// STORE.
    #[tactic(auto, using(std::proofs::lemmas::Option::gets), unfolding(dms_model::specs::Session::store_step))]
    pub(crate) fn store(&mut self, alloc: Global, i: usize, set: u16) -> Result<Answer, BlockFault>
        requires set { IsDataSet (as_described self.old.desc) set }
        requires place { i < length self.old.programs.items }
        requires sound { (engine_view self.old).sound }
        ensures step { (p : Program) → slice_get self.old.programs.items i ≡ Some p → Does self.old self.new result (λ s. store_step (as_described self.old.desc) i p s set) }
        ensures mute { IsMute (engine_view self.old) (engine_view self.new) }
        ensures costs { Costs false result (engine_view self.old).effort (engine_view self.new).effort }
        ensures spends { (p : Program) → slice_get self.old.programs.items i ≡ Some p → SpendsWhere self.old self.new (λ s. area_count (as_described self.old.desc) p s.db set) }
        ensures idle { IfOk result (λ a. is_waits a.reply ≡ true → (engine_view self.new).effort.spent ≤ (engine_view self.old).effort.spent) }
        ensures mute_fault { IsErrOf result BlockFault.Say → ⊥ }
        ensures file { IfFull result (λ f. f ≡ (engine_view self.old).pace.last) }
        ensures full { (p : Program) → slice_get self.old.programs.items i ≡ Some p → FullFor self.old result (Verb.Store set) (λ s. store_step (as_described self.old.desc) i p s set) }
        ensures no_point { (p : Program) → slice_get self.old.programs.items i ≡ Some p → NoPointWhere (MayStep (as_described self.old.desc)) self.old self.new result (λ s. store_step (as_described self.old.desc) i p s set) }
        ensures lasts { EngineLasts result self.old self.new }
    {
        if !programs::works(&self.programs[i]) {
            return Ok(refuse(
                Category::AuditError,
                programs::program_name(&self.programs[i]),
            ));
        }
        if let Some(refusal) = self.keep(alloc, i, set)? {
            return Ok(refuse(refusal.category, refusal.name));
        }
        areas::carry(&mut self.programs[i]);
        Ok(succeed(alloc))
    }

    /// BEGIN-TRANSACTION.
    #[tactic(auto, using(std::proofs::lemmas::Option::gets), unfolding(dms_model::specs::Session::begin_step))]
    pub(crate) fn begin(
        &mut self,
        alloc: Global,
        i: usize,
        audit: bool,
    ) -> Result<Answer, BlockFault>
        requires restart { IsDataSet (as_described self.old.desc) (restart_of (as_described self.old.desc)) }
        requires place { i < length self.old.programs.items }
        requires sound { (engine_view self.old).sound }
        ensures step { (p : Program) → slice_get self.old.programs.items i ≡ Some p → Does self.old self.new result (λ s. begin_step (as_described self.old.desc) i p s audit) }
        ensures mute { IsMute (engine_view self.old) (engine_view self.new) }
        ensures costs { Costs false result (engine_view self.old).effort (engine_view self.new).effort }
        ensures spends { (p : Program) → slice_get self.old.programs.items i ≡ Some p → SpendsWhere self.old self.new (λ s. restart_count audit (as_described self.old.desc) p s.db) }
        ensures idle { IfOk result (λ a. is_waits a.reply ≡ true → (engine_view self.new).effort.spent ≤ (engine_view self.old).effort.spent) }
        ensures mute_fault { IsErrOf result BlockFault.Say → ⊥ }
        ensures file { IfFull result (λ f. f ≡ (engine_view self.old).pace.last) }
        ensures full { (p : Program) → slice_get self.old.programs.items i ≡ Some p → FullFor self.old result (Verb.Begin audit) (λ s. begin_step (as_described self.old.desc) i p s audit) }
        ensures no_point { (p : Program) → slice_get self.old.programs.items i ≡ Some p → NoPointWhere (MayStep (as_described self.old.desc)) self.old self.new result (λ s. begin_step (as_described self.old.desc) i p s audit) }
        ensures lasts { EngineLasts result self.old self.new }
    {
        if programs::works(&self.programs[i]) {
            return Ok(refuse(
                Category::AuditError,
                programs::program_name(&self.programs[i]),
            ));
        }
        let restart = restart_of(&self.desc);
        if areas::lacks(&self.programs[i], restart, audit) {
            return Ok(refuse(Category::NoRecord, self.desc.name_of(restart)));
        }
        let name = programs::program_name(&self.programs[i]);
        let who = programs::begin_blockers(alloc, self.pending, self.programs.as_slice())?;
        match self.waits.verdict(alloc, &name, who.as_slice())? {
            Verdict::Deadlocks => {
                return Ok(refuse(Category::Deadlock, self.desc.name_of(restart)));
            }
            Verdict::Waits => return Ok(wait_for(who)),
            Verdict::Goes => {}
        }
        if let Some(refusal) = self.keep_restart(alloc, i, audit)? {
            return Ok(refuse(refusal.category, refusal.name));
        }
        areas::enter(&mut self.programs[i]);
        Ok(succeed(alloc))
    }

    /// END-TRANSACTION.
    #[tactic(auto, using(std::proofs::lemmas::Option::gets), unfolding(dms_model::specs::Session::end_step))]
    pub(crate) fn end_transaction(
        &mut self,
        alloc: Global,
        i: usize,
        audit: bool,
        sync: bool,
    ) -> Result<Answer, BlockFault>
        requires restart { IsDataSet (as_described self.old.desc) (restart_of (as_described self.old.desc)) }
        requires place { i < length self.old.programs.items }
        requires sound { (engine_view self.old).sound }
        ensures step { (p : Program) → slice_get self.old.programs.items i ≡ Some p → Does self.old self.new result (λ s. end_step (as_described self.old.desc) i p s audit sync) }
        ensures mute { IsMute (engine_view self.old) (engine_view self.new) }
        ensures costs { Costs false result (engine_view self.old).effort (engine_view self.new).effort }
        ensures spends { (p : Program) → slice_get self.old.programs.items i ≡ Some p → SpendsWhere self.old self.new (λ s. restart_count audit (as_described self.old.desc) p s.db) }
        ensures no_memory { audit ≡ false → (engine_view self.old).next + 1 < 2 ^ 64 → IsErrOf result BlockFault.Memory → ⊥ }
        ensures no_wait { IfOk result (λ a. is_waits a.reply ≡ false) }
        ensures mute_fault { IsErrOf result BlockFault.Say → ⊥ }
        ensures file { IfFull result (λ f. f ≡ (engine_view self.old).pace.last) }
        ensures full { (p : Program) → slice_get self.old.programs.items i ≡ Some p → FullFor self.old result (Verb.End audit sync) (λ s. end_step (as_described self.old.desc) i p s audit sync) }
        ensures no_point { (p : Program) → slice_get self.old.programs.items i ≡ Some p → NoPointWhere (MayStep (as_described self.old.desc)) self.old self.new result (λ s. end_step (as_described self.old.desc) i p s audit sync) }
        ensures lasts { EngineLasts result self.old self.new }
    {
        if !programs::works(&self.programs[i]) {
            return Ok(refuse(
                Category::AuditError,
                programs::program_name(&self.programs[i]),
            ));
        }
        if let Some(refusal) = self.keep_restart(alloc, i, audit)? {
            return Ok(refuse(refusal.category, refusal.name));
        }
        areas::leave(&mut self.programs[i]);
        self.since = programs::one_more(self.since);
        self.pending = programs::is_due(self.pending, sync, self.desc.syncpoint, self.since);
        self.settle(alloc)
    }

    /// ABORT-TRANSACTION: the back-out.
    #[tactic(auto, using(std::proofs::lemmas::Option::gets), unfolding(dms_model::specs::Session::abort_step))]
    pub(crate) fn abort(&mut self, alloc: Global, i: usize) -> Result<Answer, BlockFault>
        requires place { i < length self.old.programs.items }
        requires sound { (engine_view self.old).sound }
        ensures step { (p : Program) → slice_get self.old.programs.items i ≡ Some p → Does self.old self.new result (λ s. abort_step i p s) }
        ensures mute { IsMute (engine_view self.old) (engine_view self.new) }
        ensures costs { Costs true result (engine_view self.old).effort (engine_view self.new).effort }
        ensures spent { (engine_view self.new).effort.spent ≤ (engine_view self.old).effort.spent }
        ensures mute_fault { IsErrOf result BlockFault.Say → ⊥ }
        ensures file { IfFull result (λ f. f ≡ 9999) }
        ensures full { (p : Program) → slice_get self.old.programs.items i ≡ Some p → FullFor self.old result Verb.Abort (λ s. abort_step i p s) }
        ensures no_point { (p : Program) → slice_get self.old.programs.items i ≡ Some p → NoPointWhere (MayStep (as_described self.old.desc)) self.old self.new result (λ s. abort_step i p s) }
        ensures lasts { EngineLasts result self.old self.new }
    {
        let name = programs::program_name(&self.programs[i]);
        if !programs::works(&self.programs[i]) {
            return Ok(refuse(Category::AuditError, name));
        }
        self.store.back_out(alloc)?;
        programs::back_out(self.programs.as_mut_slice(), &name);
        self.pending = false;
        self.since = 0;
        Ok(succeed(alloc))
    }
}
