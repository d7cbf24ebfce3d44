ghost use Rattle.std.specs.Prelude.{◌≡◌, IfOk, not, ◌&&◌};
ghost use Rattle.std.specs.List.{list_any};
ghost use Rattle.std.specs.Str.{bytes_eq};
ghost use Rattle.dms_locks.specs.Locks.{has_lock};
ghost use Rattle.dms_model.specs.Session.{blockers};

use crate::Program;
use dms_base::{Memory, Name, Names};
use std::alloc::Global;

/// Whether a program holds one of these records locked.
fn holds_some(program: &Program, places: &[(u16, u64)]) -> bool
    ensures { result ≡ list_any (has_lock program.now.locks) places.now }
{
    for place in places {
        if program.locks.has(place.0, place.1) {
            return true;
        }
    }
    false
}

/// Whether a program of another name holds one of these records locked.
fn blocks(program: &Program, places: &[(u16, u64)], name: &Name) -> bool
    ensures { result ≡ (not (bytes_eq program.now.name name.now) && list_any (has_lock program.now.locks) places.now) }
{
    !program.name.is(name) && holds_some(program, places)
}

/// A program's name.
fn program_name(program: &Program) -> Name
    ensures { result ≡ program.now.name }
{
    program.name
}

/// The programs other than this one that hold one of these records locked, in the order of their opening. Answers Err
/// where memory is refused.
pub fn blockers(
    alloc: Global,
    places: &[(u16, u64)],
    name: &Name,
    programs: &[Program],
) -> Result<Names, Memory>
    ensures { IfOk result (λ names. names ≡ blockers places.now name.now programs.now) }
{
    let mut names = Names::new(alloc);
    for program in programs {
        if blocks(program, places, name) {
            names.push(program_name(program))?;
        }
    }
    Ok(names)
}
