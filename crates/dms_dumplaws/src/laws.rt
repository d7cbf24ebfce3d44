ghost use Rattle.dms_dumplaws.specs.Keeping.{DumpKeepsDumps, RebuildKeepsDumps, ReconstructKeepsDumps, RollbackKeepsDumps, RunKeepsDumps};

use dms_site::{Site, Source};

/// A dump that was copied from a database, and of which nothing was pending, stays one of it at every moment of a run and of each statement, and true where
/// it was true. ROLLBACK and REBUILD keep those that end at their point or before it.
pub fn dumps_law<S: Site, I: Source>(before: &S, after: &S)
    ensures run { RunKeepsDumps S.Site I.Source before.now after.now }
    ensures dump { DumpKeepsDumps S.Site before.now after.now }
    ensures rollback { RollbackKeepsDumps S.Site before.now after.now }
    ensures rebuild { RebuildKeepsDumps S.Site before.now after.now }
    ensures reconstruct { ReconstructKeepsDumps S.Site before.now after.now }
{}
