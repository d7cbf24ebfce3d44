ghost use Rattle.dms_runner.specs.EventLaws.{WholeLaw, SyncLaw, PointLaw, LeftLaw, NextLaw, CountedLaw, FrontLaw};

/// A stop within a run leaves a prefix of its text, and the first quiet points of those at its beginning and those that it makes.
pub fn whole_law()
    ensures { WholeLaw }
{}

/// No byte behind a syncpoint is printed before that syncpoint's quiet points are durable.
pub fn sync_law()
    ensures { SyncLaw }
{}

/// No quiet point is made before all is printed that was said before it.
pub fn point_law()
    ensures { PointLaw }
{}

/// The first number and the count of lines bound the number of the next quiet point at the end of a script.
pub fn next_law()
    ensures { NextLaw }
{}

/// A script leaves the database of the last quiet point that it makes, or the one that it began with.
pub fn left_law()
    ensures { LeftLaw }
{}

/// What a script does begins with what is carried out of it.
pub fn front_law()
    ensures { FrontLaw }
{}

/// The counts of 64 bits can tell what a script within its limits does, under a well-formed description.
pub fn counted_law()
    ensures { CountedLaw }
{}
