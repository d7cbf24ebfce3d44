ghost use Rattle.std.specs.Prelude.{◌≡◌, false, ◌≤◌, length, map, IfOk, IsOk, OnOk, [], if◌then◌else◌, ◌||◌, nat_le};
ghost use Rattle.dms_desc.specs.Shape.{as_described};
ghost use Rattle.dms_model.specs.Session.{place_of, someone_works, workers, idle, backed_out, freed_named, is_waits, new_program, programs_after, says_deadlock, waits_after};
ghost use Rattle.dms_block.specs.Held.{one_more};

use dms_base::{Category, Memory, Name, Names};
use dms_desc::Description;
use dms_locks::{Locks, WaitList};
use dms_model::{Mode, Reply};
use dms_paths::{Paths, Program};
use std::alloc::Global;

/// The place of a program, or how many there are.
pub fn place_of(programs: &[Program], name: &Name) -> usize
    ensures place { result ≡ place_of name.now programs.now }
    ensures within { result ≤ length programs.now }
{
    for (i, program) in programs.iter().enumerate() {
        if program.name.is(name) {
            return i;
        }
    }
    programs.len()
}

/// Whether a program is in transaction state.
pub fn works(program: &Program) -> bool
    ensures { result ≡ program.now.in_transaction }
{
    program.in_transaction
}

/// A program's name.
pub fn program_name(program: &Program) -> Name
    ensures { result ≡ program.now.name }
{
    program.name
}

/// For what a program opened the database.
pub fn mode(program: &Program) -> Mode
    ensures { result ≡ program.now.mode }
{
    program.mode
}

/// Whether a program's next verb is answered ABORT.
pub fn owes_abort(program: &Program) -> bool
    ensures { result ≡ program.now.owes_abort }
{
    program.owes_abort
}

/// A program's due ABORT was answered.
pub fn pay_abort(program: &mut Program)
    ensures { program.new ≡ record program.old { owes_abort = false } }
{
    program.owes_abort = false;
}

/// Whether a program is in transaction state.
pub fn someone_works(programs: &[Program]) -> bool
    ensures { result ≡ someone_works programs.now }
{
    programs.iter().any(|p| p.in_transaction)
}

/// The programs in transaction state. Answers Err where memory is refused.
pub fn workers(alloc: Global, programs: &[Program]) -> Result<Names, Memory>
    ensures { IfOk result (λ names. names ≡ workers programs.now) }
{
    let mut names = Names::new(alloc);
    for program in programs {
        if program.in_transaction {
            names.push(program.name)?;
        }
    }
    Ok(names)
}

/// For whom a BEGIN-TRANSACTION waits: while a syncpoint is pending for the programs in transaction state,
/// and else for nobody. Answers Err where memory is refused.
pub fn begin_blockers(alloc: Global, pending: bool, programs: &[Program]) -> Result<Names, Memory>
    ensures { IfOk result (λ names. names ≡ (if pending then workers programs.now else [])) }
{
    if !pending {
        return Ok(Names::new(alloc));
    }
    workers(alloc, programs)
}

/// One more transaction. The count stands still at its type's end.
pub fn one_more(n: u64) -> u64
    ensures { result ≡ one_more n }
{
    n.saturating_add(1)
}

/// Whether a syncpoint is pending after so many transactions since the last one.
pub fn is_due(pending: bool, sync: bool, syncpoint: u16, since: u64) -> bool
    ensures { result ≡ (pending || sync || nat_le syncpoint since) }
{
    pending || sync || u64::from(syncpoint) <= since
}

/// No verb of the program was carried out since the quiet point that was made now.
fn make_idle(program: &mut Program)
    ensures { program.new ≡ idle program.old }
{
    program.active = false;
}

/// No verb was carried out since the quiet point that was made now.
pub fn clear_active(programs: &mut [Program])
    ensures { programs.new ≡ map idle programs.old }
{
    for program in programs.iter_mut() {
        make_idle(program);
    }
}

/// What a back-out leaves of one program.
#[tactic(auto, unfolding(dms_model::specs::Session::backed_out))]
fn back_out_one(program: &mut Program, name: &Name)
    ensures { program.new ≡ backed_out name.now program.old }
{
    program.in_transaction = false;
    if program.active {
        if !program.name.is(name) {
            program.owes_abort = true;
        }
        program.paths.forget();
        program.locks.free_all();
    }
}

/// What a back-out leaves of the programs, where the one with this name asked for it.
pub fn back_out(programs: &mut [Program], name: &Name)
    ensures { programs.new ≡ map (backed_out name.now) programs.old }
{
    for program in programs.iter_mut() {
        back_out_one(program, name);
    }
}

/// A program of this name loses its locks.
fn free_one(program: &mut Program, name: &Name)
    ensures { program.new ≡ freed_named name.now program.old }
{
    if program.name.is(name) {
        program.locks.free_all();
    }
}

/// The programs of this name lose their locks.
fn free_named(programs: &mut [Program], name: &Name)
    ensures { programs.new ≡ map (freed_named name.now) programs.old }
{
    for program in programs.iter_mut() {
        free_one(program, name);
    }
}

/// Whether a reply is DEADLOCK.
fn says_deadlock(reply: &Reply) -> bool
    ensures { result ≡ says_deadlock reply.now }
{
    match reply {
        Reply::Done(_) => false,
        Reply::Exception(category, _) => matches!(category, Category::Deadlock),
        Reply::Waits(_) => false,
    }
}

/// DEADLOCK frees all locks of the program that asked.
pub fn free_if(programs: &mut [Program], name: &Name, reply: &Reply)
    ensures { programs.new ≡ programs_after name.now reply.now programs.old }
{
    if says_deadlock(reply) {
        free_named(programs, name);
    }
}

/// An answer ends the wait of the program that asked, or begins one. After `Memory` its wait is gone.
pub fn note_answer(
    alloc: Global,
    waits: &mut WaitList,
    name: &Name,
    reply: &Reply,
) -> Result<(), Memory>
    ensures ok { OnOk result (waits.new ≡ waits_after name.now reply.now waits.old) }
    ensures memory { is_waits reply.now ≡ false → IsOk result }
{
    match reply {
        Reply::Done(_) => {
            waits.end(name);
            Ok(())
        }
        Reply::Exception(_, _) => {
            waits.end(name);
            Ok(())
        }
        Reply::Waits(who) => waits.begin(alloc, name, who),
    }
}

/// A program that opened the database now.
pub fn new_program(
    alloc: Global,
    desc: &Description,
    name: &Name,
    mode: Mode,
) -> Result<Program, Memory>
    ensures { IfOk result (λ p. p ≡ new_program (as_described desc.now) name.now mode) }
{
    let paths = Paths::new(alloc, desc.structures.as_slice().len())?;
    Ok(Program {
        name: *name,
        mode,
        in_transaction: false,
        owes_abort: false,
        active: true,
        paths,
        locks: Locks::new(alloc),
    })
}
