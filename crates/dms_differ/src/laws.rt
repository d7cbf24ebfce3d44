ghost use Rattle.dms_differ.specs.Differ.{FirstDiffByLeast, SameWhereNone};
ghost use Rattle.dms_differ.specs.Twins.{TwinsAreNeighbours};

/// Law: rising lists differ first where the least entry belongs that only one of them has; where none is, they are one list.
pub fn first_difference_law()
    ensures least { FirstDiffByLeast }
    ensures same { SameWhereNone }
{}

/// Law: in a rising list of entries, of which no two neighbours have equal keys of one owner, no two have.
pub fn twins_law()
    ensures { TwinsAreNeighbours }
{}
