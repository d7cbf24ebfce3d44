//! A block of the source is sealed in a copy.

ghost use Rattle.std.specs.Prelude.{◌≡◌, ◌<◌, ℕ, List, length, OnOk, IsTrue};
ghost use Rattle.dms_base.specs.Causes.{HasCause};
ghost use Rattle.dms_site.specs.Files.{Only};
ghost use Rattle.dms_moments.specs.Moments.{Steps};
ghost use Rattle.dms_remote.specs.Copy.{MaySeal, CopiesOn, EndsCopy};

use dms_audfile::AuditEnd;
use dms_site::{Failed, Site};

/// Seals the next block of a copy, which its structure files may stand by. Nothing waits, and nothing is pending.
///
/// A stop at any moment leaves the copy of before, or the one with this block.
pub fn seal_copy<S: Site>(end: &mut AuditEnd, site: &mut S, block: &[u8]) -> Result<(), Failed>
    requires size { length block.now ≡ 4096 }
    requires empty { end.old.used ≡ 0 }
    requires none { end.old.full ≡ 0 }
    requires allowed { end.old.file < 20000 }
    ensures moments { (head : List ℕ) (blocks : List (List ℕ)) → IsTrue S.tells → MaySeal end.old head blocks block.now (S.files site.old) → Only (S.files site.old) (S.clock site.old)
        → Steps (CopiesOn end.old.total end.old.tag head blocks block.now) (S.clock site.old) (S.clock site.new) }
    ensures sealed { OnOk result ((head : List ℕ) (blocks : List (List ℕ)) → IsTrue S.tells → MaySeal end.old head blocks block.now (S.files site.old) → EndsCopy end.new head blocks block.now (S.files site.new)) }
    ensures durable { OnOk result (IsTrue S.tells → Only (S.files site.new) (S.clock site.new)) }
    ensures empty { (end.new.used ≡ 0) × (end.new.full ≡ end.old.full) }
    ensures kind { (end.new.total ≡ end.old.total) × (end.new.tag ≡ end.old.tag) × (end.new.limit ≡ end.old.limit) }
    ensures said { S.said site.new ≡ S.said site.old }
    ensures same_site { S.same_site site.old site.new }
    ensures faults { HasCause (S.disk_faults site.old) (S.disk_faults site.new) result }
    ensures say_faults { S.say_faults site.new ≡ S.say_faults site.old }
{
    match end.put_blocks(site, 1, block) {
        Ok(()) => Ok(()),
        Err(failed) => Err(failed),
    }
}
