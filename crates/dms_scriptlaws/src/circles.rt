ghost use Rattle.std.specs.Prelude.{ℕ, List};
ghost use Rattle.dms_desc.specs.Shape.{Described};
ghost use Rattle.dms_model.specs.Db.{Db};
ghost use Rattle.dms_scriptlaws.specs.Circles.{WaitsInNoCircle};

use dms_laws::{deadlock_law, no_wait_circle_law};

/// Behind any lines, whatever the programs and the order in which lines are answered, no program waits for itself; and DEADLOCK
/// comes only where a circle of waits would close.
pub fn circle_law()
    ensures { (desc : Described) (db : Db) (first : ℕ) (lines : List (List ℕ)) → WaitsInNoCircle desc db first lines }
{
    no_wait_circle_law();
    deadlock_law();
}
