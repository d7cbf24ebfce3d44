//! Laws of the definitions. Each stands on a function with an empty body, so that the check proves it.

ghost use Rattle.dms_creation.specs.FoundAgain.{MadeIsFound};

/// Scanning finds exactly the entries of a new database, and no refusal.
pub fn what_is_made_is_found()
    ensures { MadeIsFound }
{}
