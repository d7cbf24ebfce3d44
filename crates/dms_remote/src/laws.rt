//! Laws of the definitions. Each stands on a function with an empty body, so that the check proves it.

ghost use Rattle.dms_remote.specs.Kinds.{EntriesAreOf};
ghost use Rattle.dms_remote.specs.Laws.{CopyIsFound, CopyStays, CopySettles};
ghost use Rattle.dms_remote.specs.Next.{PlainIsNext, ControlIsNext, FirstIsNext, BeginIsNext, IdleIsNext};
ghost use Rattle.dms_remote.specs.Traced.{TracesTrail, EndsBehind, TracesMore, TracesSame};

/// A copy with a database is found and agrees, and stays a copy while its blocks are settled.
pub fn copies_are_kept()
    ensures found { CopyIsFound }
    ensures stays { CopyStays }
    ensures settles { CopySettles }
{}

/// The next block of its source may be sealed in a copy: at once, or where all blocks stand.
pub fn copies_go_on()
    ensures plain { PlainIsNext }
    ensures control { ControlIsNext }
    ensures first { FirstIsNext }
    ensures begin { BeginIsNext }
    ensures idle { IdleIsNext }
{}

/// What is found of the entries of a block by their places is so of its entries.
pub fn entries_are_at_their_places()
    ensures { EntriesAreOf }
{}

/// What the entries of a copy tell is kept while it goes on.
pub fn traces_are_kept()
    ensures trail { TracesTrail }
    ensures behind { EndsBehind }
    ensures more { TracesMore }
    ensures same { TracesSame }
{}
