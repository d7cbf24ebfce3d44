ghost use Rattle.std.specs.Prelude.{◌≡◌, ◌+◌, ◌^◌, ◌<◌, length, take, OnOk, IsTrue};
ghost use Rattle.dms_base.specs.Causes.{HasCause};
ghost use Rattle.dms_moments.specs.Moments.{Steps};
ghost use Rattle.dms_site.specs.Files.{with_file, overlay_bytes, InFile, Torn, Cut, OnDisk, Only};

use crate::{Failed, Site};

/// Writes bytes from a position on and syncs. Answers Failed where the write or the sync fails.
pub fn write_synced<S: Site>(site: &mut S, file: u32, at: u64, bytes: &[u8]) -> Result<(), Failed>
    requires { at + length bytes.now < 2 ^ 40 }
    ensures written { OnOk result (IsTrue S.tells → S.files site.new ≡ with_file (S.files site.old) file (overlay_bytes at bytes.now (S.files site.old file))) }
    ensures torn { IsTrue S.tells → InFile file (Torn at (length bytes.now)) (S.files site.old) (S.files site.new) }
    ensures durable { OnOk result (IsTrue S.tells → Only (S.files site.new) (S.clock site.new)) }
    ensures said { S.said site.new ≡ S.said site.old }
    ensures same_site { S.same_site site.old site.new }
    ensures moments { Steps (OnDisk file (Torn at (length bytes.now))) (S.clock site.old) (S.clock site.new) }
    ensures faults { HasCause (S.disk_faults site.old) (S.disk_faults site.new) result }
    ensures say_faults { S.say_faults site.new ≡ S.say_faults site.old }
{
    site.write_at(file, at, bytes)?;
    site.sync()
}

/// Cuts a file to a length and syncs. Answers Failed where the cut or the sync fails.
pub fn cut_synced<S: Site>(site: &mut S, file: u32, len: u64) -> Result<(), Failed>
    ensures cut { OnOk result (IsTrue S.tells → S.files site.new ≡ with_file (S.files site.old) file (take len (S.files site.old file))) }
    ensures torn { IsTrue S.tells → InFile file (Cut len) (S.files site.old) (S.files site.new) }
    ensures durable { OnOk result (IsTrue S.tells → Only (S.files site.new) (S.clock site.new)) }
    ensures said { S.said site.new ≡ S.said site.old }
    ensures same_site { S.same_site site.old site.new }
    ensures moments { Steps (OnDisk file (Cut len)) (S.clock site.old) (S.clock site.new) }
    ensures faults { HasCause (S.disk_faults site.old) (S.disk_faults site.new) result }
    ensures say_faults { S.say_faults site.new ≡ S.say_faults site.old }
{
    site.cut(file, len)?;
    site.sync()
}
