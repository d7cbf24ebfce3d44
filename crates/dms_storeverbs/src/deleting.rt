ghost use Rattle.std.specs.Prelude.{◌≡◌, ◌^◌, ◌+◌, ◌≤◌, ◌<◌, false, true, Some, IfOk, OnOk, IsErrOf, slice_get, length};
ghost use Rattle.dms_desc.specs.Shape.{as_described};
ghost use Rattle.dms_model.specs.Changing.{removal_count};
ghost use Rattle.dms_model.specs.Fitting.{HasRecord, IsDataSet, IsNumber};
ghost use Rattle.dms_model.specs.Programs.{Program};
ghost use Rattle.dms_model.specs.Db.{Db};
ghost use Rattle.dms_model.specs.Seen.{IsMute, IsSilent, StaysDurable};
ghost use Rattle.dms_model.specs.Session.{Session, current_of, delete_step, deleted, is_waits, or_zero};
ghost use Rattle.dms_model.specs.Uses.{in_use};
ghost use Rattle.dms_model.specs.declared.verb.Verb.{Verb};
ghost use Rattle.dms_block.specs.Faults.{IfFull, NotFull, Undamaged};
ghost use Rattle.dms_storeverbs.specs.Costs.{Costs, SpendsWhere};
ghost use Rattle.dms_storeverbs.specs.Judging.{DeletionIs, MayDelete};
ghost use Rattle.dms_storeverbs.specs.Rooms.{FullFor, NoPointWhere};
ghost use Rattle.dms_storeverbs.specs.View.{Does, DoesWhere, EngineLasts, MayStep, SameSession, StandsFor, engine_view, view};

use crate::judging::judge_delete;
use crate::programs::program_name;
use crate::refusal::{refuse, succeed, wait_for};
use crate::{Engine, areas};
use dms_base::{Category, Names};
use dms_block::BlockFault;
use dms_findverbs::linkers_of;
use dms_locks::Verdict;
use dms_model::{Answer, Store};
use dms_paths::{blockers, lose_record};
use std::alloc::Global;

/// What becomes of a DELETE.
#[derive(Debug, Drop)]
pub enum Deletion {
    /// A counted link refers to the record, an entry names it, or it owns records or entries.
    InUse,
    /// It would wait for itself.
    Deadlocks,
    /// Others hold a record locked whose link would be nulled.
    Waits(Names),
    Goes,
}

impl<St: Store> Engine<St> {
    /// What becomes of a DELETE of a record.
    #[tactic(auto, using(std::proofs::lemmas::Option::gets))]
    fn judge_users(
        &mut self,
        alloc: Global,
        i: usize,
        set: u16,
        number: u64,
    ) -> Result<Deletion, BlockFault>
        requires set { IsDataSet (as_described self.old.desc) set }
        requires number { IsNumber (as_described self.old.desc) set number }
        requires place { i < length self.old.programs.items }
        requires sound { (engine_view self.old).sound }
        ensures judged { IfOk result (λ k. (p : Program) → slice_get self.old.programs.items i ≡ Some p → (s : Session) → StandsFor (view self.old) s → HasRecord s.db set number → DeletionIs k (as_described self.old.desc) p s set number) }
        ensures stands { OnOk result (SameSession self.old self.new) }
        ensures programs { self.new.programs.items ≡ self.old.programs.items }
        ensures points { OnOk result (StaysDurable (engine_view self.old) (engine_view self.new)) }
        ensures silent { IsSilent (engine_view self.old) (engine_view self.new) }
        ensures undamaged { (d : Db) → (engine_view self.old).db ≡ Some d → Undamaged result }
        ensures effort { (engine_view self.new).effort ≡ (engine_view self.old).effort }
        ensures mute_fault { IsErrOf result BlockFault.Say → ⊥ }
        ensures room { NotFull result }
        ensures lasts { EngineLasts result self.old self.new }
    {
        let Some(linkers) = linkers_of(alloc, &mut self.store, set, number)? else {
            return Ok(Deletion::InUse);
        };
        let name = program_name(&self.programs[i]);
        let who = blockers(alloc, linkers.as_slice(), &name, self.programs.as_slice())?;
        match self.waits.verdict(alloc, &name, who.as_slice())? {
            Verdict::Deadlocks => Ok(Deletion::Deadlocks),
            Verdict::Waits => Ok(Deletion::Waits(who)),
            Verdict::Goes => Ok(Deletion::Goes),
        }
    }

    /// Removes a record that isn't in use. Each program that has it current loses it, and the one that asked its lock.
    #[tactic(auto, using(std::proofs::lemmas::Option::gets))]
    fn remove_record(
        &mut self,
        alloc: Global,
        i: usize,
        set: u16,
        number: u64,
    ) -> Result<Answer, BlockFault>
        requires set { IsDataSet (as_described self.old.desc) set }
        requires number { IsNumber (as_described self.old.desc) set number }
        requires place { i < length self.old.programs.items }
        requires sound { (engine_view self.old).sound }
        ensures step { (p : Program) → slice_get self.old.programs.items i ≡ Some p → DoesWhere (MayDelete (as_described self.old.desc) set number) self.old self.new result (λ s. deleted (as_described self.old.desc) i p s set number) }
        ensures points { OnOk result (StaysDurable (engine_view self.old) (engine_view self.new)) }
        ensures silent { IsSilent (engine_view self.old) (engine_view self.new) }
        ensures costs { Costs false result (engine_view self.old).effort (engine_view self.new).effort }
        ensures spends { SpendsWhere self.old self.new (λ s. removal_count (as_described self.old.desc) set number s.db) }
        ensures no_wait { IfOk result (λ a. is_waits a.reply ≡ false) }
        ensures mute_fault { IsErrOf result BlockFault.Say → ⊥ }
        ensures file { IfFull result (λ f. f ≡ (engine_view self.old).pace.last) }
        ensures lasts { EngineLasts result self.old self.new }
    {
        if !self.store.remove(alloc, set, number)? {
            return Ok(refuse(Category::InUse, self.desc.name_of(set)));
        }
        areas::unlock(&mut self.programs[i], set, number);
        lose_record(self.programs.as_mut_slice(), &self.desc, set, number);
        Ok(succeed(alloc))
    }

    /// DELETE.
    #[tactic(auto, using(std::proofs::lemmas::Option::gets))]
    pub(crate) fn delete(&mut self, alloc: Global, i: usize, set: u16) -> Result<Answer, BlockFault>
        requires set { IsDataSet (as_described self.old.desc) set }
        requires place { i < length self.old.programs.items }
        requires sound { (engine_view self.old).sound }
        ensures step { (p : Program) → slice_get self.old.programs.items i ≡ Some p → Does self.old self.new result (λ s. delete_step (as_described self.old.desc) i p s set) }
        ensures mute { IsMute (engine_view self.old) (engine_view self.new) }
        ensures costs { Costs false result (engine_view self.old).effort (engine_view self.new).effort }
        ensures spends { (p : Program) → slice_get self.old.programs.items i ≡ Some p → SpendsWhere self.old self.new (λ s. removal_count (as_described self.old.desc) set (or_zero (current_of p set)) s.db) }
        ensures idle { IfOk result (λ a. is_waits a.reply ≡ true → (engine_view self.new).effort.spent ≤ (engine_view self.old).effort.spent) }
        ensures mute_fault { IsErrOf result BlockFault.Say → ⊥ }
        ensures file { IfFull result (λ f. f ≡ (engine_view self.old).pace.last) }
        ensures full { (p : Program) → slice_get self.old.programs.items i ≡ Some p → FullFor self.old result (Verb.Delete set) (λ s. delete_step (as_described self.old.desc) i p s set) }
        ensures no_point { (p : Program) → slice_get self.old.programs.items i ≡ Some p → NoPointWhere (MayStep (as_described self.old.desc)) self.old self.new result (λ s. delete_step (as_described self.old.desc) i p s set) }
        ensures lasts { EngineLasts result self.old self.new }
    {
        let number = match judge_delete(&self.desc, &self.programs[i], set) {
            Err(refusal) => return Ok(refuse(refusal.category, refusal.name)),
            Ok(number) => number,
        };
        match self.judge_users(alloc, i, set, number)? {
            Deletion::InUse => return Ok(refuse(Category::InUse, self.desc.name_of(set))),
            Deletion::Deadlocks => {
                return Ok(refuse(Category::Deadlock, self.desc.name_of(set)));
            }
            Deletion::Waits(who) => return Ok(wait_for(who)),
            Deletion::Goes => {}
        }
        self.remove_record(alloc, i, set, number)
    }
}
