ghost use Rattle.std.specs.Prelude.{◌≡◌, ◌+◌, ◌^◌, ◌<◌, ◌≤◌, ◌++◌, false, length, drop, IfOk, OnOk, IsTrue};
ghost use Rattle.dms_moments.specs.Moments.{Steps};
ghost use Rattle.dms_site.specs.Files.{range};
ghost use Rattle.dms_calls.specs.World.{Unchanged};

use dms_calls::Calls;
use dms_site::Failed;

/// Reads from a position on until the slice is full or the file ends, by as many calls as it takes.
pub fn read_full<C: Calls>(
    calls: &mut C,
    handle: &C::Handle,
    at: u64,
    into: &mut [u8],
) -> Result<usize, Failed>
    requires broken { C.broken calls.old ≡ false }
    requires bound { at + length into.old < 2 ^ 40 }
    ensures bound { IfOk result (λ n. n ≤ length into.old) }
    ensures count { IfOk result (λ n. IsTrue C.tells → n ≡ length (range at (length into.old) ((C.world calls.old).bytes (C.file handle.now)))) }
    ensures bytes { IfOk result (λ n. IsTrue C.tells → into.new ≡ range at (length into.old) ((C.world calls.old).bytes (C.file handle.now)) ++ drop n into.old) }
    ensures world { C.world calls.new ≡ C.world calls.old }
    ensures moments { Steps Unchanged (C.clock calls.old) (C.clock calls.new) }
    ensures broken { OnOk result (C.broken calls.new ≡ false) }
{
    let mut got = 0usize;
    while got < into.len() {
        let count = calls.pread(handle, at + got as u64, &mut into[got..])?;
        if count == 0 {
            return Ok(got);
        }
        got += count;
    }
    Ok(got)
}
