ghost use Rattle.std.specs.Prelude.{◌≡◌, ◌^◌, ◌+◌, ◌≤◌, ◌<◌, false, true, Some, IfOk, IsErrOf, slice_get, length};
ghost use Rattle.dms_desc.specs.Shape.{as_described};
ghost use Rattle.dms_model.specs.Programs.{Program};
ghost use Rattle.dms_model.specs.Seen.{IsMute};
ghost use Rattle.dms_model.specs.Session.{assign_step, insert_step, is_waits, remove_step};
ghost use Rattle.dms_model.specs.Verbs.{IsAssigned, IsLinkIn, IsSubsetOf};
ghost use Rattle.dms_model.specs.declared.verb.Verb.{Verb};
ghost use Rattle.dms_block.specs.Faults.{IfFull};
ghost use Rattle.dms_storeverbs.specs.Costs.{Costs, SpendsWhere};
ghost use Rattle.dms_storeverbs.specs.Rooms.{FullFor, NoPointWhere};
ghost use Rattle.dms_storeverbs.specs.View.{Does, EngineLasts, MayStep, engine_view};

use crate::judging::{assigned, judge_assign, judge_entry};
use crate::refusal::{refuse, succeed};
use crate::{Engine, areas};
use dms_base::Category;
use dms_block::BlockFault;
use dms_model::{Answer, Put, Store};
use std::alloc::Global;

impl<St: Store> Engine<St> {
    /// INSERT.
    #[tactic(auto, using(std::proofs::lemmas::Option::gets))]
    pub(crate) fn insert(
        &mut self,
        alloc: Global,
        i: usize,
        set: u16,
        subset: u16,
    ) -> Result<Answer, BlockFault>
        requires subset { IsSubsetOf (as_described self.old.desc) set subset }
        requires place { i < length self.old.programs.items }
        requires sound { (engine_view self.old).sound }
        ensures step { (p : Program) → slice_get self.old.programs.items i ≡ Some p → Does self.old self.new result (λ s. insert_step (as_described self.old.desc) i p s set subset) }
        ensures mute { IsMute (engine_view self.old) (engine_view self.new) }
        ensures costs { Costs false result (engine_view self.old).effort (engine_view self.new).effort }
        ensures spends { SpendsWhere self.old self.new (λ s. 2) }
        ensures idle { IfOk result (λ a. is_waits a.reply ≡ true → (engine_view self.new).effort.spent ≤ (engine_view self.old).effort.spent) }
        ensures mute_fault { IsErrOf result BlockFault.Say → ⊥ }
        ensures file { IfFull result (λ f. f ≡ (engine_view self.old).pace.last) }
        ensures full { (p : Program) → slice_get self.old.programs.items i ≡ Some p → FullFor self.old result (Verb.Insert set subset) (λ s. insert_step (as_described self.old.desc) i p s set subset) }
        ensures no_point { (p : Program) → slice_get self.old.programs.items i ≡ Some p → NoPointWhere (MayStep (as_described self.old.desc)) self.old self.new result (λ s. insert_step (as_described self.old.desc) i p s set subset) }
        ensures lasts { EngineLasts result self.old self.new }
    {
        let entry = match judge_entry(&self.desc, &self.programs[i], set, subset) {
            Err(refusal) => return Ok(refuse(refusal.category, refusal.name)),
            Ok(entry) => entry,
        };
        match self.store.enter(alloc, subset, entry.owner, entry.number)? {
            Put::Stored(_) => {}
            Put::Duplicate(_) => {
                return Ok(refuse(Category::Duplicates, self.desc.name_of(subset)));
            }
            Put::Full => return Ok(refuse(Category::LimitError, self.desc.name_of(subset))),
        }
        areas::carry(&mut self.programs[i]);
        Ok(succeed(alloc))
    }

    /// REMOVE.
    #[tactic(auto, using(std::proofs::lemmas::Option::gets))]
    pub(crate) fn remove(
        &mut self,
        alloc: Global,
        i: usize,
        set: u16,
        subset: u16,
    ) -> Result<Answer, BlockFault>
        requires subset { IsSubsetOf (as_described self.old.desc) set subset }
        requires place { i < length self.old.programs.items }
        requires sound { (engine_view self.old).sound }
        ensures step { (p : Program) → slice_get self.old.programs.items i ≡ Some p → Does self.old self.new result (λ s. remove_step (as_described self.old.desc) i p s set subset) }
        ensures mute { IsMute (engine_view self.old) (engine_view self.new) }
        ensures costs { Costs false result (engine_view self.old).effort (engine_view self.new).effort }
        ensures spends { SpendsWhere self.old self.new (λ s. 2) }
        ensures idle { IfOk result (λ a. is_waits a.reply ≡ true → (engine_view self.new).effort.spent ≤ (engine_view self.old).effort.spent) }
        ensures mute_fault { IsErrOf result BlockFault.Say → ⊥ }
        ensures file { IfFull result (λ f. f ≡ (engine_view self.old).pace.last) }
        ensures full { (p : Program) → slice_get self.old.programs.items i ≡ Some p → FullFor self.old result (Verb.Remove set subset) (λ s. remove_step (as_described self.old.desc) i p s set subset) }
        ensures no_point { (p : Program) → slice_get self.old.programs.items i ≡ Some p → NoPointWhere (MayStep (as_described self.old.desc)) self.old self.new result (λ s. remove_step (as_described self.old.desc) i p s set subset) }
        ensures lasts { EngineLasts result self.old self.new }
    {
        let entry = match judge_entry(&self.desc, &self.programs[i], set, subset) {
            Err(refusal) => return Ok(refuse(refusal.category, refusal.name)),
            Ok(entry) => entry,
        };
        if !self.store.leave(alloc, subset, entry.owner, entry.number)? {
            return Ok(refuse(Category::NotFound, self.desc.name_of(subset)));
        }
        areas::carry(&mut self.programs[i]);
        Ok(succeed(alloc))
    }

    /// ASSIGN.
    #[tactic(auto, using(std::proofs::lemmas::Option::gets))]
    pub(crate) fn assign(
        &mut self,
        alloc: Global,
        i: usize,
        to: Option<u16>,
        set: u16,
        item: u8,
    ) -> Result<Answer, BlockFault>
        requires link { IsLinkIn (as_described self.old.desc) set item }
        requires target { IsAssigned (as_described self.old.desc) to set item }
        requires place { i < length self.old.programs.items }
        requires sound { (engine_view self.old).sound }
        ensures step { (p : Program) → slice_get self.old.programs.items i ≡ Some p → Does self.old self.new result (λ s. assign_step (as_described self.old.desc) i p s to set item) }
        ensures mute { IsMute (engine_view self.old) (engine_view self.new) }
        ensures costs { Costs false result (engine_view self.old).effort (engine_view self.new).effort }
        ensures spends { SpendsWhere self.old self.new (λ s. 3) }
        ensures idle { IfOk result (λ a. is_waits a.reply ≡ true → (engine_view self.new).effort.spent ≤ (engine_view self.old).effort.spent) }
        ensures mute_fault { IsErrOf result BlockFault.Say → ⊥ }
        ensures file { IfFull result (λ f. f ≡ (engine_view self.old).pace.last) }
        ensures full { (p : Program) → slice_get self.old.programs.items i ≡ Some p → FullFor self.old result (Verb.Assign to set item) (λ s. assign_step (as_described self.old.desc) i p s to set item) }
        ensures no_point { (p : Program) → slice_get self.old.programs.items i ≡ Some p → NoPointWhere (MayStep (as_described self.old.desc)) self.old self.new result (λ s. assign_step (as_described self.old.desc) i p s to set item) }
        ensures lasts { EngineLasts result self.old self.new }
    {
        let number = match judge_assign(&self.desc, &self.programs[i], to, set, item) {
            Err(refusal) => return Ok(refuse(refusal.category, refusal.name)),
            Ok(number) => number,
        };
        let target = assigned(&self.programs[i], to);
        self.store.link(alloc, set, number, item, target)?;
        areas::carry(&mut self.programs[i]);
        Ok(succeed(alloc))
    }
}
