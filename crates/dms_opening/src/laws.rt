//! Laws of openings. Each stands on a function with an empty body, so that the check proves it.

ghost use Rattle.dms_opening.specs.Laws.{WholeIsOpened};
ghost use Rattle.dms_opening.specs.Short.{WholeHasNoShort};

/// Files that hold a database are opened: nothing is refused of them but for a call that fails and for want of memory.
pub fn whole_files_are_opened()
    ensures { WholeIsOpened }
{}

/// Files that hold a database have each block whole that an opening takes from them.
pub fn whole_files_have_no_short_block()
    ensures { WholeHasNoShort }
{}
