//! Laws of the definitions. Each stands on a function with an empty body, so that the check proves it.

ghost use Rattle.dms_newdb.specs.State.{MadeStands};

use dms_creation::laws::what_is_made_is_found;
use dms_history::laws::{entries_are_sealed, kept_goes_on, points_have_schemas};
use dms_store::empty_law;

/// A new database of a sealed description stands for point 0 and the empty database.
pub fn what_is_made_stands()
    ensures { MadeStands }
{
    what_is_made_is_found();
    entries_are_sealed();
    kept_goes_on();
    points_have_schemas();
    empty_law();
}
