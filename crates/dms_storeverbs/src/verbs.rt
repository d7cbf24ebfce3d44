ghost use Rattle.std.specs.Prelude.{◌≡◌, ◌^◌, ◌+◌, ◌≤◌, ◌<◌, true, false, Some, None, IfOk, OnOk, IsErrOf, slice_get, length};
ghost use Rattle.dms_desc.specs.Shape.{as_described};
ghost use Rattle.dms_model.specs.Programs.{Program};
ghost use Rattle.dms_model.specs.Db.{Db};
ghost use Rattle.dms_model.specs.BackOut.{asks_back_out};
ghost use Rattle.dms_model.specs.Seen.{IsMute, IsSilent, StaysDurable};
ghost use Rattle.dms_findverbs.specs.Seeks.{MetFits, TellsSought};
ghost use Rattle.dms_findverbs.specs.Shows.{shown_of};
ghost use Rattle.dms_model.specs.Fitting.{IsDataSet};
ghost use Rattle.dms_model.specs.Session.{Session, find_step, get_step, lock_step, sought, verb_step, carried_out, step, is_waits};
ghost use Rattle.dms_model.specs.Verbs.{IsPathOf, IsVerbOf};
ghost use Rattle.dms_block.specs.Faults.{IfFull, NotFull, Undamaged};
ghost use Rattle.dms_storeverbs.specs.Costs.{Costs, SpendsWhere, changes, full_file, takes_none};
ghost use Rattle.dms_model.specs.Counting.{counts_of, verb_count};
ghost use Rattle.dms_storeverbs.specs.Rooms.{FullFor, NoPointWhere};
ghost use Rattle.dms_storeverbs.specs.View.{Does, EngineLasts, MayStep, SameSession, engine_view};

use crate::filling::get_text;
use crate::refusal::{refuse, succeed, wait_for};
use crate::{Engine, apart, areas, programs};
use dms_base::{Category, Name};
use dms_block::BlockFault;
use dms_findverbs::{Seeking, found_in, seek, shown};
use dms_locks::Verdict;
use dms_model::{Answer, ItemNumbers, Path, Reply, Store, Values, Verb};
use dms_paths::blockers;
use std::alloc::Global;

impl<St: Store> Engine<St> {
    /// What a path names for a program.
    #[tactic(auto, using(std::proofs::lemmas::Option::gets))]
    fn seek(&mut self, alloc: Global, i: usize, path: &Path) -> Result<Seeking, BlockFault>
        requires path { IsPathOf (as_described self.old.desc) path.now }
        requires place { i < length self.old.programs.items }
        requires sound { (engine_view self.old).sound }
        ensures sought { IfOk result (λ k. (p : Program) → slice_get self.old.programs.items i ≡ Some p → TellsSought k (as_described self.old.desc) p path.now (engine_view self.old).db) }
        ensures fits { IfOk result (λ k. MetFits k (as_described self.old.desc) path.now) }
        ensures stands { OnOk result (SameSession self.old self.new) }
        ensures programs { self.new.programs.items ≡ self.old.programs.items }
        ensures points { OnOk result (StaysDurable (engine_view self.old) (engine_view self.new)) }
        ensures silent { IsSilent (engine_view self.old) (engine_view self.new) }
        ensures undamaged { (d : Db) → (engine_view self.old).db ≡ Some d → Undamaged result }
        ensures effort { (engine_view self.new).effort ≡ (engine_view self.old).effort }
        ensures mute_fault { IsErrOf result BlockFault.Say → ⊥ }
        ensures room { NotFull result }
        ensures lasts { EngineLasts result self.old self.new }
    {
        seek(alloc, &mut self.store, &self.desc, &self.programs[i], path)
    }

    /// The values of a program's area of a data set as GET shows them.
    #[tactic(auto, using(std::proofs::lemmas::Option::gets))]
    fn show(&mut self, alloc: Global, i: usize, set: u16) -> Result<Option<Values>, BlockFault>
        requires set { IsDataSet (as_described self.old.desc) set }
        requires place { i < length self.old.programs.items }
        requires sound { (engine_view self.old).sound }
        ensures shown { IfOk result (λ o. (p : Program) → slice_get self.old.programs.items i ≡ Some p → (d : Db) → (engine_view self.old).db ≡ Some d → o ≡ shown_of (as_described self.old.desc) d p set) }
        ensures stands { OnOk result (SameSession self.old self.new) }
        ensures programs { self.new.programs.items ≡ self.old.programs.items }
        ensures points { OnOk result (StaysDurable (engine_view self.old) (engine_view self.new)) }
        ensures silent { IsSilent (engine_view self.old) (engine_view self.new) }
        ensures undamaged { (d : Db) → (engine_view self.old).db ≡ Some d → Undamaged result }
        ensures effort { (engine_view self.new).effort ≡ (engine_view self.old).effort }
        ensures mute_fault { IsErrOf result BlockFault.Say → ⊥ }
        ensures room { NotFull result }
        ensures lasts { EngineLasts result self.old self.new }
    {
        shown(alloc, &mut self.store, &self.desc, &self.programs[i], set)
    }

    /// FIND.
    #[tactic(auto, using(std::proofs::lemmas::Option::gets), unfolding(dms_model::specs::Session::find_step))]
    fn find(&mut self, alloc: Global, i: usize, path: &Path) -> Result<Answer, BlockFault>
        requires path { IsPathOf (as_described self.old.desc) path.now }
        requires place { i < length self.old.programs.items }
        requires sound { (engine_view self.old).sound }
        ensures step { (p : Program) → slice_get self.old.programs.items i ≡ Some p → Does self.old self.new result (λ s. find_step (as_described self.old.desc) i p s path.now) }
        ensures mute { IsMute (engine_view self.old) (engine_view self.new) }
        ensures costs { Costs false result (engine_view self.old).effort (engine_view self.new).effort }
        ensures spent { (engine_view self.new).effort.spent ≤ (engine_view self.old).effort.spent }
        ensures mute_fault { IsErrOf result BlockFault.Say → ⊥ }
        ensures room { NotFull result }
        ensures lasts { EngineLasts result self.old self.new }
    {
        let spot = match self.seek(alloc, i, path)? {
            Seeking::Missed(category, name) => return Ok(refuse(category, name)),
            Seeking::Met(spot) => spot,
        };
        areas::find(&mut self.programs[i], &self.desc, path, spot);
        Ok(succeed(alloc))
    }

    /// LOCK and MODIFY.
    #[tactic(auto, using(std::proofs::lemmas::Option::gets), unfolding(dms_model::specs::Session::lock_step))]
    fn lock(&mut self, alloc: Global, i: usize, path: &Path) -> Result<Answer, BlockFault>
        requires path { IsPathOf (as_described self.old.desc) path.now }
        requires place { i < length self.old.programs.items }
        requires sound { (engine_view self.old).sound }
        ensures step { (p : Program) → slice_get self.old.programs.items i ≡ Some p → Does self.old self.new result (λ s. lock_step (as_described self.old.desc) i p s path.now) }
        ensures mute { IsMute (engine_view self.old) (engine_view self.new) }
        ensures costs { Costs false result (engine_view self.old).effort (engine_view self.new).effort }
        ensures spent { (engine_view self.new).effort.spent ≤ (engine_view self.old).effort.spent }
        ensures mute_fault { IsErrOf result BlockFault.Say → ⊥ }
        ensures room { NotFull result }
        ensures lasts { EngineLasts result self.old self.new }
    {
        let spot = match self.seek(alloc, i, path)? {
            Seeking::Missed(category, name) => return Ok(refuse(category, name)),
            Seeking::Met(spot) => spot,
        };
        let set = found_in(&self.desc, path);
        let name = programs::program_name(&self.programs[i]);
        let places = [(set, spot.number)];
        let who = blockers(alloc, &places, &name, self.programs.as_slice())?;
        match self.waits.verdict(alloc, &name, who.as_slice())? {
            Verdict::Deadlocks => {
                return Ok(refuse(Category::Deadlock, self.desc.name_of(set)));
            }
            Verdict::Waits => return Ok(wait_for(who)),
            Verdict::Goes => {}
        }
        areas::lock_found(&mut self.programs[i], &self.desc, path, spot)?;
        Ok(succeed(alloc))
    }

    /// GET.
    #[tactic(auto, using(std::proofs::lemmas::Option::gets), unfolding(dms_model::specs::Session::get_step))]
    fn get(
        &mut self,
        alloc: Global,
        i: usize,
        set: u16,
        numbers: &ItemNumbers,
    ) -> Result<Answer, BlockFault>
        requires set { IsDataSet (as_described self.old.desc) set }
        requires place { i < length self.old.programs.items }
        requires sound { (engine_view self.old).sound }
        ensures step { (p : Program) → slice_get self.old.programs.items i ≡ Some p → Does self.old self.new result (λ s. get_step (as_described self.old.desc) i p s set numbers.now) }
        ensures mute { IsMute (engine_view self.old) (engine_view self.new) }
        ensures costs { Costs false result (engine_view self.old).effort (engine_view self.new).effort }
        ensures spent { (engine_view self.new).effort.spent ≤ (engine_view self.old).effort.spent }
        ensures mute_fault { IsErrOf result BlockFault.Say → ⊥ }
        ensures room { NotFull result }
        ensures lasts { EngineLasts result self.old self.new }
    {
        let Some(values) = self.show(alloc, i, set)? else {
            return Ok(refuse(Category::NoRecord, self.desc.name_of(set)));
        };
        let text = get_text(
            alloc,
            self.desc.items_of(set),
            values.as_slice(),
            numbers.as_slice(),
        )?;
        areas::carry(&mut self.programs[i]);
        Ok(Answer {
            reply: Reply::Done(text),
            sync: None,
        })
    }

    /// The verb of an open program that owes no ABORT and may do it.
    #[tactic(auto, using(std::proofs::lemmas::Option::gets), unfolding(dms_model::specs::Session::verb_step))]
    fn verb(&mut self, alloc: Global, i: usize, verb: &Verb) -> Result<Answer, BlockFault>
        requires verb { IsVerbOf (as_described self.old.desc) verb.now }
        requires place { i < length self.old.programs.items }
        requires sound { (engine_view self.old).sound }
        ensures step { (p : Program) → slice_get self.old.programs.items i ≡ Some p → Does self.old self.new result (λ s. verb_step (as_described self.old.desc) i p s verb.now) }
        ensures mute { IsMute (engine_view self.old) (engine_view self.new) }
        ensures costs { Costs (asks_back_out verb.now) result (engine_view self.old).effort (engine_view self.new).effort }
        ensures spends { (p : Program) → slice_get self.old.programs.items i ≡ Some p → SpendsWhere self.old self.new (λ s. verb_count (as_described self.old.desc) p s.db verb.now) }
        ensures no_memory { takes_none verb.now ≡ true → (engine_view self.old).next + 1 < 2 ^ 64 → IsErrOf result BlockFault.Memory → ⊥ }
        ensures no_wait { takes_none verb.now ≡ true → IfOk result (λ a. is_waits a.reply ≡ false) }
        ensures idle { IfOk result (λ a. is_waits a.reply ≡ true → (engine_view self.new).effort.spent ≤ (engine_view self.old).effort.spent) }
        ensures mute_fault { IsErrOf result BlockFault.Say → ⊥ }
        ensures room { changes verb.now ≡ false → NotFull result }
        ensures file { IfFull result (λ f. f ≡ full_file verb.now (engine_view self.old).pace.last) }
        ensures full { (p : Program) → slice_get self.old.programs.items i ≡ Some p → FullFor self.old result verb.now (λ s. verb_step (as_described self.old.desc) i p s verb.now) }
        ensures no_point { (p : Program) → slice_get self.old.programs.items i ≡ Some p → NoPointWhere (MayStep (as_described self.old.desc)) self.old self.new result (λ s. verb_step (as_described self.old.desc) i p s verb.now) }
        ensures lasts { EngineLasts result self.old self.new }
    {
        match verb {
            Verb::OpenUpdate | Verb::OpenInquiry => {
                Ok(refuse(
                    Category::OpenError,
                    programs::program_name(&self.programs[i]),
                ))
            }
            Verb::Close => Ok(apart::close(alloc, &mut self.programs, i)?),
            Verb::Find(path) => self.find(alloc, i, path),
            Verb::Lock(path) => self.lock(alloc, i, path),
            Verb::Free(set) => Ok(apart::free(alloc, &self.desc, &mut self.programs, i, *set)),
            Verb::Create(set) => Ok(apart::create(alloc, &self.desc, &mut self.programs, i, *set)?),
            Verb::Put(set, settings) => Ok(apart::put(
                alloc,
                &self.desc,
                &mut self.programs,
                i,
                *set,
                settings,
            )?),
            Verb::Get(set, numbers) => self.get(alloc, i, *set, numbers),
            Verb::Store(set) => self.store(alloc, i, *set),
            Verb::Delete(set) => self.delete(alloc, i, *set),
            Verb::Insert(set, subset) => self.insert(alloc, i, *set, *subset),
            Verb::Remove(set, subset) => self.remove(alloc, i, *set, *subset),
            Verb::Assign(to, set, item) => self.assign(alloc, i, *to, *set, *item),
            Verb::Begin(audit) => self.begin(alloc, i, *audit),
            Verb::End(audit, sync) => self.end_transaction(alloc, i, *audit, *sync),
            Verb::Abort => self.abort(alloc, i),
        }
    }

    /// Carries out a verb of a program, one that a line can spell, whoever waits.
    #[tactic(auto, using(std::proofs::lemmas::Option::gets), unfolding(dms_model::specs::Session::carried_out))]
    fn carry_out(
        &mut self,
        alloc: Global,
        program: &Name,
        verb: &Verb,
    ) -> Result<Answer, BlockFault>
        requires verb { IsVerbOf (as_described self.old.desc) verb.now }
        requires sound { (engine_view self.old).sound }
        ensures step { Does self.old self.new result (λ s. carried_out (as_described self.old.desc) s program.now verb.now) }
        ensures mute { IsMute (engine_view self.old) (engine_view self.new) }
        ensures costs { Costs (asks_back_out verb.now) result (engine_view self.old).effort (engine_view self.new).effort }
        ensures spends { SpendsWhere self.old self.new (λ s. counts_of (as_described self.old.desc) s program.now verb.now) }
        ensures no_memory { takes_none verb.now ≡ true → (engine_view self.old).next + 1 < 2 ^ 64 → IsErrOf result BlockFault.Memory → ⊥ }
        ensures no_wait { takes_none verb.now ≡ true → IfOk result (λ a. is_waits a.reply ≡ false) }
        ensures idle { IfOk result (λ a. is_waits a.reply ≡ true → (engine_view self.new).effort.spent ≤ (engine_view self.old).effort.spent) }
        ensures mute_fault { IsErrOf result BlockFault.Say → ⊥ }
        ensures room { changes verb.now ≡ false → NotFull result }
        ensures file { IfFull result (λ f. f ≡ full_file verb.now (engine_view self.old).pace.last) }
        ensures full { FullFor self.old result verb.now (λ s. carried_out (as_described self.old.desc) s program.now verb.now) }
        ensures no_point { NoPointWhere (MayStep (as_described self.old.desc)) self.old self.new result (λ s. carried_out (as_described self.old.desc) s program.now verb.now) }
        ensures lasts { EngineLasts result self.old self.new }
    {
        let i = programs::place_of(self.programs.as_slice(), program);
        if i >= self.programs.len() {
            return Ok(apart::open(alloc, &self.desc, &mut self.programs, program, verb)?);
        }
        if let Some(answer) = apart::admit(&mut self.programs, i, program, verb) {
            return Ok(answer);
        }
        self.verb(alloc, i, verb)
    }

    /// One step of a program: its verb, one that a line can spell, is carried out, and its answer ends its wait or begins
    /// one; DEADLOCK frees its locks. Answers the store's fault, which is never Say, and Full for STORE, DELETE, INSERT, REMOVE,
    /// ASSIGN, BEGIN, END and ABORT alone; and Memory where memory is refused. Where the store holds a database, Full comes only of a
    /// verb that would be done and update or make a quiet point, or of such an ABORT. No stop then leaves the verb's quiet
    /// point, unless a control point was due at the sync of its syncpoint.
    #[tactic(auto, using(std::proofs::lemmas::Option::gets), unfolding(dms_model::specs::Session::step))]
    pub fn call(&mut self, alloc: Global, program: &Name, verb: &Verb) -> Result<Answer, BlockFault>
        requires verb { IsVerbOf (as_described self.old.desc) verb.now }
        requires sound { (engine_view self.old).sound }
        ensures step { Does self.old self.new result (λ s. step (as_described self.old.desc) s program.now verb.now) }
        ensures mute { IsMute (engine_view self.old) (engine_view self.new) }
        ensures costs { Costs (asks_back_out verb.now) result (engine_view self.old).effort (engine_view self.new).effort }
        ensures spends { SpendsWhere self.old self.new (λ s. counts_of (as_described self.old.desc) s program.now verb.now) }
        ensures no_memory { takes_none verb.now ≡ true → (engine_view self.old).next + 1 < 2 ^ 64 → IsErrOf result BlockFault.Memory → ⊥ }
        ensures idle { IfOk result (λ a. is_waits a.reply ≡ true → (engine_view self.new).effort.spent ≤ (engine_view self.old).effort.spent) }
        ensures mute_fault { IsErrOf result BlockFault.Say → ⊥ }
        ensures room { changes verb.now ≡ false → NotFull result }
        ensures file { IfFull result (λ f. f ≡ full_file verb.now (engine_view self.old).pace.last) }
        ensures full { FullFor self.old result verb.now (λ s. step (as_described self.old.desc) s program.now verb.now) }
        ensures no_point { NoPointWhere (MayStep (as_described self.old.desc)) self.old self.new result (λ s. step (as_described self.old.desc) s program.now verb.now) }
        ensures lasts { EngineLasts result self.old self.new }
    {
        let answer = self.carry_out(alloc, program, verb)?;
        programs::free_if(self.programs.as_mut_slice(), program, &answer.reply);
        programs::note_answer(alloc, &mut self.waits, program, &answer.reply)?;
        Ok(answer)
    }
}
