//! Laws of the definitions. Each stands on a function with an empty body, so that the check proves it.

ghost use Rattle.std.specs.Prelude.{◌≡◌, Ok};
ghost use Rattle.dms_load.specs.Summary.{load_schema};
ghost use Rattle.dms_loadrun.specs.Description.{load_description};
ghost use Rattle.dms_newdb.specs.Judging.{judge_schema};

/// The text that is the schema of a load is accepted, and this is its description.
pub fn load_schema_is_accepted()
    ensures { judge_schema load_schema ≡ Ok load_description }
{}
