ghost use Rattle.std.specs.Prelude.{IsTrue};
ghost use Rattle.dms_statelaws.specs.DumpsStay.{DumpsStay};
ghost use Rattle.dms_statelaws.specs.Laws.{StatesAreWhole, PointsStand, UntouchedStays, StatesAreRebuilt};
ghost use Rattle.dms_statelaws.specs.SiteLaws.{DumpLaw, RollbackLaw, RebuildLaw, ReconstructLaw};

use dms_opening::Opened;
use dms_site::Site;

/// Files that stand for a state hold a database, which a dump may rebuild; and files that hold one with the points of others, all or those up to one, stand for
/// the states that those had.
pub fn points_law()
    ensures whole { StatesAreWhole }
    ensures stand { PointsStand }
    ensures untouched { UntouchedStays }
    ensures rebuilt { StatesAreRebuilt }
{}

/// Within a DUMP the files stand for the state of entry at every moment, and a dump that was written whole is true.
pub fn dump_law<S: Site>(before: &S, opened: &Opened<S>, after: &S)
    ensures { IsTrue S.tells → DumpLaw S.Site before.now opened.now after.now }
{}

/// Files that have the points of others up to one, their tag and their dump, have it copied from them as those had, and true as it was.
pub fn true_dumps_stay()
    ensures { DumpsStay }
{}

/// Within a ROLLBACK the files stand at every moment for the state of entry or for that of the chosen point, and at its end for the second.
pub fn rollback_law<S: Site>(before: &S, after: &S)
    ensures { RollbackLaw S.Site before.now after.now }
{}

/// Within a REBUILD nothing was done at any moment, or the files stand for the state of the chosen point, whatever the structure files held; and at its end
/// for that.
pub fn rebuild_law<S: Site>(before: &S, after: &S)
    ensures { RebuildLaw S.Site before.now after.now }
{}

/// Within a RECONSTRUCT nothing was done at any moment, or the files stand for the last point's state, whatever the named rows held; and at its end for that. Where
/// a restore is pending, that one may have been ended first: then they stand for that state with the named rows as they count.
pub fn reconstruct_law<S: Site>(before: &S, after: &S)
    ensures { ReconstructLaw S.Site before.now after.now }
{}
