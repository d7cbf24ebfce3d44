ghost use Rattle.std.specs.Prelude.{◌≡◌, IfErr, IfOk};
ghost use Rattle.dms_desc.specs.Shape.{as_described};
ghost use Rattle.dms_model.specs.Session.{assigned};
ghost use Rattle.dms_storeverbs.specs.Judging.{AssignRefused, DeleteRefused, EntryRefused, HasEntry, HasLocked, missing_target};

use crate::areas::{current_at, holds, owner_for};
use crate::programs::{program_name, works};
use crate::refusal::Refusal;
use dms_base::Category;
use dms_desc::Description;
use dms_paths::{Program, owner_of};

/// The record that DELETE is to delete. Refused in this order: outside transaction state; no current record; one that the
/// program doesn't hold locked.
#[tactic(auto, unfolding(dms_model::specs::Session::delete_step))]
pub fn judge_delete(desc: &Description, program: &Program, set: u16) -> Result<u64, Refusal>
    ensures ready { IfOk result (λ n. HasLocked program.now set n) }
    ensures refused { IfErr result (λ r. DeleteRefused (as_described desc.now) program.now set r) }
{
    if !works(program) {
        return Err(Refusal::new(Category::AuditError, program_name(program)));
    }
    let Some(number) = current_at(program, set) else {
        return Err(Refusal::new(Category::NoRecord, desc.name_of(set)));
    };
    if !holds(program, set, Some(number)) {
        return Err(Refusal::new(Category::NotLocked, desc.name_of(set)));
    }
    Ok(number)
}

/// An entry of a manual subset: the number of its owner's record, 0 where the subset is disjoint, and of the record that it names.
#[derive(Clone, Copy, Debug, PartialEq, Eq)]
pub struct Entry {
    pub owner: u64,
    pub number: u64,
}

/// The entry that INSERT is to make and REMOVE to take out. Refused in this order: outside transaction state; no current record of
/// the data set; none of the data set that the subset stands in.
pub fn judge_entry(
    desc: &Description,
    program: &Program,
    set: u16,
    subset: u16,
) -> Result<Entry, Refusal>
    ensures ready { IfOk result (λ e. HasEntry (as_described desc.now) program.now set subset e.owner e.number) }
    ensures refused { IfErr result (λ r. EntryRefused (as_described desc.now) program.now set subset r) }
{
    if !works(program) {
        return Err(Refusal::new(Category::AuditError, program_name(program)));
    }
    let Some(number) = current_at(program, set) else {
        return Err(Refusal::new(Category::NoRecord, desc.name_of(set)));
    };
    let Some(owner) = owner_for(desc, program, subset) else {
        return Err(Refusal::new(Category::NoRecord, desc.name_of(owner_of(desc, subset))));
    };
    Ok(Entry { owner, number })
}

/// The data set to whose current record a link is to refer, where the program has no current record of it.
fn missing_target(program: &Program, to: Option<u16>) -> Option<u16>
    ensures { result ≡ missing_target to program.now }
{
    match to {
        None => None,
        Some(set) => match current_at(program, set) {
            None => Some(set),
            Some(_) => None,
        },
    }
}

/// The number of the record to which a link is to refer; none for NULL.
pub fn assigned(program: &Program, to: Option<u16>) -> Option<u64>
    ensures { result ≡ assigned to program.now }
{
    match to {
        None => None,
        Some(set) => current_at(program, set),
    }
}

/// The record whose link ASSIGN is to set. Refused in this order: outside transaction state; no current record to refer to; none with
/// the link; one that the program doesn't hold locked.
pub fn judge_assign(
    desc: &Description,
    program: &Program,
    to: Option<u16>,
    set: u16,
    item: u8,
) -> Result<u64, Refusal>
    ensures ready { IfOk result (λ n. HasLocked program.now set n) }
    ensures refers { IfOk result (λ n. missing_target to program.now ≡ None) }
    ensures refused { IfErr result (λ r. AssignRefused (as_described desc.now) program.now to set item r) }
{
    if !works(program) {
        return Err(Refusal::new(Category::AuditError, program_name(program)));
    }
    if let Some(target) = missing_target(program, to) {
        return Err(Refusal::new(Category::NoRecord, desc.name_of(target)));
    }
    let Some(number) = current_at(program, set) else {
        return Err(Refusal::new(Category::NoRecord, desc.name_of(set)));
    };
    if !holds(program, set, Some(number)) {
        return Err(Refusal::new(Category::NotLocked, desc.name_of(set)));
    }
    Ok(number)
}
