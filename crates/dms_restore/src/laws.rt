//! Laws of the definitions. Each stands on a function with an empty body, so that the check proves it.

ghost use Rattle.dms_restore.specs.ByDump.{RebuildPlans, ReconstructPlans, RunsOfDumps};

/// Runs of a dump's blocks, and a table of the last after-images behind its point, are what a restore by that dump writes.
pub fn dumps_are_plans()
    ensures rebuild { RebuildPlans }
    ensures reconstruct { ReconstructPlans }
    ensures runs { RunsOfDumps }
{}
