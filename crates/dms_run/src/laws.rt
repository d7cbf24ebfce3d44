ghost use Rattle.dms_run.specs.Laws.{StopsLaw, EndsLaw, AllowsLaw, OneStateLaw, BlocksLaw, LivesLaw};
ghost use Rattle.dms_run.specs.Ending.{ScriptCloses};
ghost use Rattle.dms_run.specs.Files.{FilesLaw, FilesLeft, StandsLaw};
ghost use Rattle.dms_run.specs.Held.{NextIsOne, StatesAreHeld};
ghost use Rattle.dms_run.specs.Opens.{StatesHold};
ghost use Rattle.dms_run.specs.RunStands.{EndsStand, StopsStand};
ghost use Rattle.dms_run.specs.SamePoint.{StatesStay};
ghost use Rattle.dms_run.specs.Starting.{PartLeaves, ScriptEnds};
ghost use Rattle.dms_run.specs.Told.{ScriptsTellNoLater};

use dms_model::Store;
use dms_site::Site;
use dms_storeverbs::Engine;
use dms_wal::Running;

/// A stop within a run leaves the database of a quiet point, not before those that a syncpoint made durable before what was printed
/// last, and each point of entry as it was; at its end the points end with the last quiet point.
pub fn run_law()
    ensures stops { StopsLaw }
    ensures ends { EndsLaw }
    ensures allows { AllowsLaw }
{}

/// Points end with one database at most.
pub fn state_law()
    ensures { OneStateLaw }
{}

/// Points of blocks, and those that files hold, end with the database that the last blocks spell.
pub fn files_law()
    ensures blocks { BlocksLaw }
    ensures lives { LivesLaw }
    ensures stops { FilesLaw }
    ensures stands { StandsLaw }
{}

/// What a run leaves of a store on the blocks of a running database it leaves of the files of its site.
pub fn site_law<S: Site>(before: &Running<S>, after: &Running<S>)
    ensures { FilesLeft S.Site before.now after.now }
{}

/// Where each stop within a run over a store lies within events, it leaves what a run of them leaves. Where all the events of a script were
/// carried out, the points end with its last quiet point, and a stop after its end leaves what its run leaves.
pub fn engine_law<St: Store>(before: &Engine<St>, after: &Engine<St>)
    ensures stops { PartLeaves before.now after.now }
    ensures ends { ScriptEnds before.now after.now }
    ensures closes { ScriptCloses before.now after.now }
{}

/// A stop within the run of a script leaves no point below the one that the printed text tells.
pub fn told_law()
    ensures { ScriptsTellNoLater }
{}

/// The files that a stop within the run of a script leaves stand for the database of entry or of a quiet point, no earlier than the
/// printed text tells, and each point up to it has its own state. At the script's end it is the last quiet point's.
pub fn stands_law()
    ensures stops { StopsStand }
    ensures ends { EndsStand }
{}

/// Files that stand for a state, and have a point of others as it is there, stand at that point for the state that the others stand for there.
pub fn same_point_law()
    ensures { StatesStay }
{}

/// Files that stand for a state hold a database, whose last live point has that state; and files that hold one have one next number.
pub fn held_law()
    ensures state { StatesAreHeld }
    ensures next { NextIsOne }
{}

/// Files that stand for a state hold a database that can be opened, whose last live point has that state.
pub fn states_law()
    ensures { StatesHold }
{
    held_law();
}
