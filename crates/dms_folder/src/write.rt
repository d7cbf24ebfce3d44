ghost use Rattle.std.specs.Prelude.{◌≡◌, ◌+◌, ◌^◌, ◌<◌, false, [], length, OnOk, IsTrue};
ghost use Rattle.dms_moments.specs.Moments.{Steps};
ghost use Rattle.dms_site.specs.Files.{overlay_bytes, Torn};
ghost use Rattle.dms_calls.specs.World.{OnFile};

use dms_calls::Calls;
use dms_site::Failed;

/// Writes bytes from a position on, by as many calls as it takes. With no bytes, the gap before them alone.
pub fn write_all<C: Calls>(
    calls: &mut C,
    handle: &C::Handle,
    at: u64,
    bytes: &[u8],
) -> Result<(), Failed>
    requires broken { C.broken calls.old ≡ false }
    requires bound { at + length bytes.now < 2 ^ 40 }
    ensures written { OnOk result (IsTrue C.tells → (C.world calls.new).bytes (C.file handle.now) ≡ overlay_bytes at bytes.now ((C.world calls.old).bytes (C.file handle.now))) }
    ensures torn { OnFile (C.file handle.now) (Torn at (length bytes.now)) (C.world calls.old) (C.world calls.new) }
    ensures moments { Steps (OnFile (C.file handle.now) (Torn at (length bytes.now))) (C.clock calls.old) (C.clock calls.new) }
    ensures broken { OnOk result (C.broken calls.new ≡ false) }
{
    if bytes.is_empty() {
        return lengthen(calls, handle, at);
    }
    let mut done = 0usize;
    while done < bytes.len() {
        let count = calls.pwrite(handle, at + done as u64, &bytes[done..])?;
        if count == 0 {
            return Err(Failed);
        }
        done += count;
    }
    Ok(())
}

/// Adds zeros up to a length.
fn lengthen<C: Calls>(calls: &mut C, handle: &C::Handle, len: u64) -> Result<(), Failed>
    requires broken { C.broken calls.old ≡ false }
    ensures written { OnOk result (IsTrue C.tells → (C.world calls.new).bytes (C.file handle.now) ≡ overlay_bytes len [] ((C.world calls.old).bytes (C.file handle.now))) }
    ensures torn { OnFile (C.file handle.now) (Torn len 0) (C.world calls.old) (C.world calls.new) }
    ensures moments { Steps (OnFile (C.file handle.now) (Torn len 0)) (C.clock calls.old) (C.clock calls.new) }
    ensures broken { OnOk result (C.broken calls.new ≡ false) }
{
    if calls.size(handle)? < len {
        return calls.ftruncate(handle, len);
    }
    Ok(())
}
