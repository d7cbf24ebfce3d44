ghost use Rattle.std.specs.Prelude.{◌≡◌, ◌++◌, OnOk, IsTrue};
ghost use Rattle.dms_moments.specs.Moments.{Steps};
ghost use Rattle.dms_calls.specs.World.{Speaks};

use dms_calls::Calls;
use dms_site::Failed;

/// Prints bytes, by as many calls as it takes. Answers Err where a call failed, or printed nothing.
pub fn print_all<C: Calls>(calls: &mut C, bytes: &[u8]) -> Result<(), Failed>
    ensures said { OnOk result (IsTrue C.tells → (C.world calls.new).said ≡ (C.world calls.old).said ++ bytes.now) }
    ensures some { IsTrue C.tells → Speaks bytes.now (C.world calls.old) (C.world calls.new) }
    ensures moments { Steps (Speaks bytes.now) (C.clock calls.old) (C.clock calls.new) }
    ensures broken { C.broken calls.new ≡ C.broken calls.old }
{
    let mut done = 0usize;
    while done < bytes.len() {
        let count = calls.print(&bytes[done..])?;
        if count == 0 {
            return Err(Failed);
        }
        done += count;
    }
    Ok(())
}
