ghost use Rattle.std.specs.Prelude.{◌≡◌, ◌<◌, ◌≤◌, ◌^◌, Some, None, OnErr, OnOk, IfOk, slice_get, ◌&&◌, not, is_some, length, if◌then◌else◌};
ghost use Rattle.std.specs.Option.{option_copied};
ghost use Rattle.dms_desc.specs.Conds.{is_null, or_null};
ghost use Rattle.dms_model.specs.Session.{activate, area_of, area_owner, area_values, current_of, enter_transaction, found_in, found_program, holds, is_free, leave_transaction, let_go, locked_program, missing_from, moves, owner_for, path_of, record_of, with_area, with_position};
ghost use Rattle.dms_desc.specs.Shape.{as_described};
ghost use Rattle.dms_locks.specs.Locks.{without_lock};
ghost use Rattle.dms_model.specs.Programs.{Area, New, Old};
ghost use Rattle.dms_storeverbs.specs.Storing.{with_copy, with_created, with_stored};

use dms_base::{Memory, Name, Value};
use dms_desc::{Bound, Description, Item, Record, Values};
use dms_findverbs::{found_in, moves, owner_in, path_of};
use dms_model::{Path, Spot};
use dms_paths::{
    Area, AreaKind, Program, let_go, lock, owner_of, set_area, set_current, set_position,
    unlock as unlock_record,
};
use std::alloc::Global;

/// A program's area of a data set.
pub fn area_at(program: &Program, set: u16) -> Option<&Area>
    ensures { option_copied result ≡ area_of program.now set }
{
    program.paths.area(set)
}

/// Whether a program that is to store a data set's area has none.
pub fn lacks(program: &Program, set: u16, audit: bool) -> bool
    ensures { result ≡ (audit && not (is_some (area_of program.now set))) }
{
    audit && area_at(program, set).is_none()
}

/// A program's current record of a data set.
pub fn current_at(program: &Program, set: u16) -> Option<u64>
    ensures { result ≡ current_of program.now set }
{
    program.paths.current(set)
}

/// The number of the record that owns what a program finds or makes in a structure, 0 where the structure stands in no
/// data set; none where the program has no current record of that data set.
pub fn owner_for(desc: &Description, program: &Program, x: u16) -> Option<u64>
    ensures { result ≡ owner_for (as_described desc.now) program.now x }
{
    owner_in(program, owner_of(desc, x))
}

/// The area of a record that is to be stored, with the number of its owner's record.
pub fn new_area(values: Values, owner: u64) -> Area
    ensures { result ≡ New values owner }
{
    Area {
        kind: AreaKind::New(values, owner),
    }
}

/// An area that is a copy of the current record's values.
pub fn old_area(values: Values) -> Area
    ensures { result ≡ Old values }
{
    Area {
        kind: AreaKind::Old(values),
    }
}

/// A copy of an area's values. Answers Err where memory is refused.
pub fn copy_area(alloc: Global, area: &Area) -> Result<Values, Memory>
    ensures { IfOk result (λ v. v ≡ area_values area.now) }
{
    match &area.kind {
        AreaKind::New(values, _) => values.copy(alloc),
        AreaKind::Old(values) => values.copy(alloc),
    }
}

/// The number of the record that owns an area's record, 0 where it is disjoint.
fn area_owner(area: &Area) -> u64
    ensures { result ≡ area_owner area.now }
{
    match &area.kind {
        AreaKind::New(_, owner) => *owner,
        AreaKind::Old(_) => 0,
    }
}

/// The record that an area stands for. Answers Err where memory is refused.
pub fn record_of(alloc: Global, area: &Area) -> Result<Record, Memory>
    ensures { IfOk result (λ r. r ≡ record_of area.now) }
{
    Ok(Record {
        owner: area_owner(area),
        values: copy_area(alloc, area)?,
    })
}

/// Whether a program holds a record locked.
pub fn holds(program: &Program, set: u16, number: Option<u64>) -> bool
    ensures { result ≡ holds program.now set number }
{
    match number {
        None => false,
        Some(number) => program.locks.has(set, number),
    }
}

/// Whether a program may store an area: that of a new record, or of one that it holds locked.
pub fn is_free(area: &Area, program: &Program, set: u16, current: Option<u64>) -> bool
    ensures { result ≡ is_free area.now program.now set current }
{
    match &area.kind {
        AreaKind::New(_, _) => true,
        AreaKind::Old(_) => holds(program, set, current),
    }
}

fn is_null_at(values: &[Value], k: usize) -> bool
    ensures { result ≡ is_null (or_null (slice_get values.now k)) }
{
    match values.get(k) {
        None => true,
        Some(value) => matches!(value, Value::Null),
    }
}

/// The first REQUIRED item that is null.
pub fn missing(items: &[Item], values: &[Value]) -> Option<Name>
    ensures { result ≡ missing_from 0 items.now values.now }
{
    for (k, item) in items.iter().enumerate() {
        if item.required && is_null_at(values, k) {
            return Some(item.name);
        }
    }
    None
}

/// The position of a path is that of a found member, where the path moves it.
fn note_position(program: &mut Program, path: &Path, position: Bound)
    ensures { program.new ≡ (if moves path.now then with_position program.old (path_of path.now) position else program.old) }
{
    if moves(path) {
        set_position(program, path_of(path), position);
    }
}

/// A record is current, and the area a copy of it.
fn note_current(program: &mut Program, desc: &Description, set: u16, number: u64, values: Values)
    requires set { 1 ≤ set }
    requires few { length desc.now.structures < 2 ^ 16 }
    ensures { program.new ≡ with_copy (as_described desc.now) program.old set number values }
{
    set_current(program, desc, set, Some(number));
    set_area(program, set, Some(old_area(values)));
}

/// What a path found becomes current, and the area a copy of it.
#[tactic(auto, unfolding(dms_model::specs::Session::found_program))]
fn take_found(program: &mut Program, desc: &Description, path: &Path, spot: Spot)
    requires set { 1 ≤ found_in (as_described desc.now) path.now }
    requires few { length desc.now.structures < 2 ^ 16 }
    ensures { program.new ≡ found_program (as_described desc.now) program.old path.now spot }
{
    let set = found_in(desc, path);
    let number = spot.number;
    note_current(program, desc, set, number, spot.rec.values);
    note_position(program, path, Bound::At(spot.key, number));
    let_go(program, set);
}

/// FIND: what a path found becomes current, and the area a copy of it.
pub fn find(program: &mut Program, desc: &Description, path: &Path, spot: Spot)
    requires set { 1 ≤ found_in (as_described desc.now) path.now }
    requires few { length desc.now.structures < 2 ^ 16 }
    ensures { program.new ≡ activate (found_program (as_described desc.now) program.old path.now spot) }
{
    take_found(program, desc, path, spot);
    program.active = true;
}

/// LOCK: as FIND, and the record is locked. After `Memory` it isn't.
pub fn lock_found(
    program: &mut Program,
    desc: &Description,
    path: &Path,
    spot: Spot,
) -> Result<(), Memory>
    requires set { 1 ≤ found_in (as_described desc.now) path.now }
    requires few { length desc.now.structures < 2 ^ 16 }
    ensures ok { OnOk result (program.new ≡ activate (locked_program (as_described desc.now) program.old path.now spot)) }
    ensures err { OnErr result (program.new ≡ activate (found_program (as_described desc.now) program.old path.now spot)) }
{
    let number = spot.number;
    find(program, desc, path, spot);
    lock(program, found_in(desc, path), number)
}

/// FREE: outside transaction state the locks on a data set are freed.
pub fn free(program: &mut Program, set: u16)
    ensures { program.new ≡ activate (let_go program.old set) }
{
    let_go(program, set);
    program.active = true;
}

/// No record is current, and the area is a new one, of a record with this owner.
pub fn create(program: &mut Program, desc: &Description, set: u16, values: Values, owner: u64)
    requires set { 1 ≤ set }
    requires few { length desc.now.structures < 2 ^ 16 }
    ensures { program.new ≡ activate (with_created (as_described desc.now) program.old set owner values) }
{
    set_current(program, desc, set, None);
    set_area(program, set, Some(new_area(values, owner)));
    let_go(program, set);
    program.active = true;
}

/// The area of a data set changes, and the current record stays.
pub fn put(program: &mut Program, set: u16, area: Area)
    ensures { program.new ≡ activate (with_area program.old set (Some area)) }
{
    set_area(program, set, Some(area));
    program.active = true;
}

/// A record was stored under a number: it is current and locked, and the area a copy of it. After `Memory` it isn't locked.
pub fn note_stored(
    program: &mut Program,
    desc: &Description,
    set: u16,
    number: u64,
    values: Values,
) -> Result<(), Memory>
    requires set { 1 ≤ set }
    requires few { length desc.now.structures < 2 ^ 16 }
    ensures ok { OnOk result (program.new ≡ with_stored (as_described desc.now) program.old set number values) }
    ensures err { OnErr result (program.new ≡ with_copy (as_described desc.now) program.old set number values) }
{
    note_current(program, desc, set, number, values);
    lock(program, set, number)
}

/// A record of the program is no longer locked.
pub fn unlock(program: &mut Program, set: u16, number: u64)
    ensures { program.new ≡ activate (record program.old { locks = without_lock program.old.locks (set, number) }) }
{
    unlock_record(program, set, number);
    program.active = true;
}

/// A verb of the program was carried out.
pub fn carry(program: &mut Program)
    ensures { program.new ≡ activate program.old }
{
    program.active = true;
}

/// The program is in transaction state.
pub fn enter(program: &mut Program)
    ensures { program.new ≡ enter_transaction program.old }
{
    program.in_transaction = true;
    program.active = true;
}

/// The program leaves transaction state, and its locks are freed.
pub fn leave(program: &mut Program)
    ensures { program.new ≡ leave_transaction program.old }
{
    program.in_transaction = false;
    program.locks.free_all();
    program.active = true;
}
