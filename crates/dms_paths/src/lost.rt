ghost use Rattle.std.specs.Prelude.{◌≡◌, ◌<◌, ◌≤◌, ◌^◌, length, map};
ghost use Rattle.dms_desc.specs.Shape.{as_described};
ghost use Rattle.dms_model.specs.Session.{without_current};

use crate::Program;
use crate::current::{is_same, set_area, set_current};
use dms_desc::Description;

/// A program that has a record current has no current record and no area of its data set any more.
fn lose_current(program: &mut Program, desc: &Description, set: u16, number: u64)
    requires set { 1 ≤ set }
    requires few { length desc.now.structures < 2 ^ 16 }
    ensures { program.new ≡ without_current (as_described desc.now) set number program.old }
{
    if is_same(program.paths.current(set), Some(number)) {
        set_current(program, desc, set, None);
        set_area(program, set, None);
    }
}

/// Each program that has a record current has no current record and no area of its data set any more.
pub fn lose_record(programs: &mut [Program], desc: &Description, set: u16, number: u64)
    requires set { 1 ≤ set }
    requires few { length desc.now.structures < 2 ^ 16 }
    ensures { programs.new ≡ map (without_current (as_described desc.now) set number) programs.old }
{
    for program in programs.iter_mut() {
        lose_current(program, desc, set, number);
    }
}
