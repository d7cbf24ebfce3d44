ghost use Rattle.std.specs.Prelude.{◌≡◌, false, IfOk, OnOk, IsTrue, MatchOption};
ghost use Rattle.dms_moments.specs.Moments.{Steps};
ghost use Rattle.dms_calls.specs.World.{Unchanged, AllGiven};
ghost use Rattle.dms_folder.specs.Listings.{TakesName};

use crate::name::file_number;
use dms_calls::Calls;
use dms_site::Failed;

/// So many names a folder has at most. A listing that gives more is a failed one.
pub const MOST_NAMES: u32 = u32::MAX;

/// The longest name that the system knows, in bytes.
const NAME_MAX: usize = 255;

/// Takes the next name of a listing: None at its end, and else the number, where it is the name of a database file.
pub fn next_number<C: Calls>(
    calls: &mut C,
    names: &mut C::Listing,
) -> Result<Option<Option<u32>>, Failed>
    requires broken { C.broken calls.old ≡ false }
    ensures next { IfOk result (λ o. MatchOption o
        (IsTrue C.tells → AllGiven (C.listed names.old) (C.world calls.old).names (C.given names.old))
        (λ found. IsTrue C.tells → TakesName (C.given names.old) (C.given names.new) found)) }
    ensures listed { IsTrue C.tells → C.listed names.new ≡ C.listed names.old }
    ensures world { C.world calls.new ≡ C.world calls.old }
    ensures moments { Steps Unchanged (C.clock calls.old) (C.clock calls.new) }
    ensures broken { OnOk result (C.broken calls.new ≡ false) }
{
    let mut name = [0u8; NAME_MAX];
    let count = calls.next_name(names, &mut name)?;
    if count == 0 {
        return Ok(None);
    }
    Ok(Some(file_number(&name[..count])))
}
