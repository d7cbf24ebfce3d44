ghost use Rattle.std.specs.Prelude.{◌≡◌, ◌<◌, ◌≤◌, ◌^◌, length, if◌then◌else◌, OnErr, OnOk};
ghost use Rattle.dms_desc.specs.Shape.{as_described};
ghost use Rattle.dms_model.specs.AtHand.{is_same, let_go, lose_within, locks_without, with_area, with_current, with_lock, with_position, with_work, work_of};
ghost use Rattle.dms_locks.specs.Locks.{without_lock, without_set};

use crate::within::is_within;
use crate::{Area, Program};
use dms_base::Memory;
use dms_desc::{Bound, Description};
use dms_locks::Locks;

/// Whether two current records are one, or none both.
pub(crate) fn is_same(a: Option<u64>, b: Option<u64>) -> bool
    ensures { result ≡ is_same a b }
{
    match (a, b) {
        (None, None) => true,
        (Some(x), Some(y)) => x == y,
        (None, Some(_)) => false,
        (Some(_), None) => false,
    }
}

/// Frees the locks on the data set at a place, counted from 0, where it stands within another one.
fn free_if(locks: &mut Locks, lost: bool, number: u16)
    ensures { locks.new ≡ (if lost then without_set locks.old number else locks.old) }
{
    if lost {
        locks.free(number);
    }
}

/// Frees the locks on what stands within a data set.
fn free_within(locks: &mut Locks, desc: &Description, set: u16)
    requires set { 1 ≤ set }
    requires few { length desc.now.structures < 2 ^ 16 }
    ensures { locks.new ≡ locks_without (as_described desc.now) set locks.old }
{
    for place in 0..desc.structures.as_slice().len() {
        free_if(locks, is_within(desc, set, place), place as u16 + 1);
    }
}

/// What stands within a data set loses what is at hand of it, and outside transaction state its locks.
fn lose_within(program: &mut Program, desc: &Description, set: u16)
    requires set { 1 ≤ set }
    requires few { length desc.now.structures < 2 ^ 16 }
    ensures { program.new ≡ lose_within (as_described desc.now) set program.old }
{
    program.paths.lose_within(desc, set);
    if !program.in_transaction {
        free_within(&mut program.locks, desc, set);
    }
}

/// Only the number of the current record changes.
fn put_current(program: &mut Program, set: u16, current: Option<u64>)
    ensures { program.new ≡ with_work program.old set (record (work_of program.old set) { current = current }) }
{
    program.paths.set_current(set, current);
}

/// The current record of a data set becomes this one, or none, with what is lost by that.
#[tactic(auto, unfolding(dms_model::specs::AtHand::with_current))]
pub fn set_current(program: &mut Program, desc: &Description, set: u16, current: Option<u64>)
    requires set { 1 ≤ set }
    requires few { length desc.now.structures < 2 ^ 16 }
    ensures { program.new ≡ with_current (as_described desc.now) set current program.old }
{
    if is_same(program.paths.current(set), current) {
        return;
    }
    put_current(program, set, current);
    lose_within(program, desc, set);
}

/// The area of a data set becomes this one.
pub fn set_area(program: &mut Program, set: u16, area: Option<Area>)
    ensures { program.new ≡ with_area program.old set area }
{
    program.paths.set_area(set, area);
}

/// The position in a structure becomes this one.
pub fn set_position(program: &mut Program, number: u16, position: Bound)
    ensures { program.new ≡ with_position program.old number position }
{
    program.paths.set_position(number, position);
}

/// Outside transaction state the locks on a data set are freed.
pub fn let_go(program: &mut Program, set: u16)
    ensures { program.new ≡ let_go program.old set }
{
    if !program.in_transaction {
        program.locks.free(set);
    }
}

/// A record is locked. After `Memory` the program is as it was.
pub fn lock(program: &mut Program, set: u16, number: u64) -> Result<(), Memory>
    ensures ok { OnOk result (program.new ≡ with_lock program.old set number) }
    ensures err { OnErr result (program.new ≡ program.old) }
{
    program.locks.add(set, number)
}

/// A record is no longer locked.
pub fn unlock(program: &mut Program, set: u16, number: u64)
    ensures { program.new ≡ record program.old { locks = without_lock program.old.locks (set, number) } }
{
    program.locks.remove(set, number);
}
