//! The gate of a copy's database.

ghost use Rattle.std.specs.Prelude.{◌≡◌, ◌&&◌, ℕ, List, not, OnOk, IsTrue};
ghost use Rattle.dms_base.specs.Causes.{HasCause};
ghost use Rattle.dms_moments.specs.Moments.{Steps};
ghost use Rattle.dms_site.specs.Files.{Only};
ghost use Rattle.dms_audfile.specs.declared.audit_end.AuditEnd.{AuditEnd};
ghost use Rattle.dms_remote.specs.Gate.{gated, GatesCopy};
ghost use Rattle.dms_remote.specs.Next.{IsCopyAt};

use crate::kinds::Kinds;
use dms_site::{Failed, Site, write_synced};

/// The number of the description file.
const DESCRIPTION_FILE: u32 = 1;

/// Whether the gate is opened behind a block with these entries. `opened` says whether the first Control was sealed before.
pub(crate) fn opens_gate(kinds: Kinds, opened: bool) -> bool
    ensures { result ≡ (kinds.first && not opened) }
{
    kinds.first && !opened
}

/// Opens the gate of the database of a copy where it is to be opened, and syncs.
///
/// A stop at any moment leaves the same copy but for the gate. Answers Failed where a call of the site failed.
pub(crate) fn open_gate<S: Site>(site: &mut S, opens: bool) -> Result<(), Failed>
    ensures opened { OnOk result ((end : AuditEnd) (head : List ℕ) (blocks : List (List ℕ)) → IsTrue S.tells → IsCopyAt end head blocks (S.files site.old) → IsCopyAt end (gated opens head) blocks (S.files site.new)) }
    ensures moments { (end : AuditEnd) (head : List ℕ) (blocks : List (List ℕ)) → IsTrue S.tells → IsCopyAt end head blocks (S.files site.old) → Only (S.files site.old) (S.clock site.old)
        → Steps (GatesCopy end.total end.tag opens head blocks) (S.clock site.old) (S.clock site.new) }
    ensures durable { OnOk result (IsTrue S.tells → Only (S.files site.old) (S.clock site.old) → Only (S.files site.new) (S.clock site.new)) }
    ensures said { S.said site.new ≡ S.said site.old }
    ensures same_site { S.same_site site.old site.new }
    ensures faults { HasCause (S.disk_faults site.old) (S.disk_faults site.new) result }
    ensures say_faults { S.say_faults site.new ≡ S.say_faults site.old }
{
    if opens {
        write_synced(site, DESCRIPTION_FILE, 1, &[1])
    } else {
        Ok(())
    }
}
