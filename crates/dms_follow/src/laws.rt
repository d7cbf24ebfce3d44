//! Laws of the definitions. Each stands on a function with an empty body, so that the check proves it.

ghost use Rattle.dms_follow.specs.Laws.{FollowsAgrees, AgreesContent, AgreesAsAlone, PlainFollows, ControlFollows, BeginFollows, SettledFollows, WritesKeepFollowing, SettlesAll, RestoringLeaves, RestoringSettles};

/// A copy that follows agrees with its dumps and blocks, and its content at each live point is what the entries alone tell there.
pub fn following_agrees()
    ensures agrees { FollowsAgrees }
    ensures content { AgreesContent }
    ensures alone { AgreesAsAlone }
{}

/// It follows on with each kind of block that its source sealed.
pub fn following_goes_on()
    ensures plain { PlainFollows }
    ensures control { ControlFollows }
    ensures begin { BeginFollows }
{}

/// While its blocks are settled it follows as before, and once they are all stand.
pub fn settling_keeps()
    ensures writes { WritesKeepFollowing }
    ensures all { SettlesAll }
    ensures settled { SettledFollows }
{}

/// A restore, the pending one or one to a point that would be made now, settles them.
pub fn a_restore_settles()
    ensures leaves { RestoringLeaves }
    ensures settles { RestoringSettles }
{}
