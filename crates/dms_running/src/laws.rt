//! Laws of the definitions. Each stands on a function with an empty body, so that the check proves it.

ghost use Rattle.dms_running.specs.AnyLaws.{AnyBegins, AnyWrites, AnyRestored, NewDumpKeeps};
ghost use Rattle.dms_running.specs.ByHow.{EachToldBy};
ghost use Rattle.dms_running.specs.FirstLaws.{AnyWritesFirst, AnyEndsFirst};
ghost use Rattle.dms_running.specs.Laws.{StandsAgrees, AgreesStands, RunsImage, RunsRange, RunsQuiet, RunsWrites, BeginKeepsAll};

/// What stands agrees with its dumps and blocks, and what agrees stands where its blocks are whole.
pub fn standing_is_agreement()
    ensures agrees { StandsAgrees }
    ensures stands { AgreesStands }
{}

/// A database that may run still may with an Image, a Range, a quiet point or blocks that are written early, and a Begin to its last point keeps all its points.
pub fn databases_go_on()
    ensures image { RunsImage }
    ensures range { RunsRange }
    ensures quiet { RunsQuiet }
    ensures writes { RunsWrites }
    ensures begin { BeginKeepsAll }
{}

/// A restore of any kind, to any live point, begins, writes and stands: by the audit or by a dump, over blocks that may hold anything where its rule doesn't look.
pub fn any_restore_stands()
    ensures tells { EachToldBy }
    ensures begins { AnyBegins }
    ensures writes { AnyWrites }
    ensures restored { AnyRestored }
{}

/// Before a reconstruction a pending restore of any kind is finished, while the named blocks hold anything: with them as they count the database stands at every
/// moment, with all its points, and once the Control is sealed the reconstruction to the same point may begin.
pub fn any_restore_ends_first()
    ensures writes { AnyWritesFirst }
    ensures ends { AnyEndsFirst }
{}

/// Where no restore is pending no dump counts: with other dumps a database stands as it did, with all its points.
pub fn dumps_change_nothing()
    ensures { NewDumpKeeps }
{}
