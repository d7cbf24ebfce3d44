//! The description that a database is opened under.

ghost use Rattle.std.specs.Prelude.{◌≡◌, IfOk, IsErrOf, IsTrue};
ghost use Rattle.dms_audfile.specs.Counting.{CountedAt};
ghost use Rattle.dms_desc.specs.Shape.{as_described};
ghost use Rattle.dms_desc_bytes.specs.WellFormed.{IsWellFormed};
ghost use Rattle.dms_moments.specs.Moments.{Steps};
ghost use Rattle.dms_runtop.specs.Describing.{IsUnderSchema};
ghost use Rattle.dms_site.specs.Files.{Same};

use dms_desc::Description;
use dms_desc_bytes::decode;
use dms_descfile::{FileFault, read_description};
use dms_site::Site;
use std::alloc::Global;

/// The description that these bytes of a Schema spell, and where they spell none that of the description file.
///
/// Nothing changes. Answers Disk where a call of the site failed, and Memory.
pub fn describe<S: Site>(
    alloc: Global,
    site: &mut S,
    schema: &[u8],
) -> Result<Description, FileFault>
    ensures formed { IfOk result (λ d. IsWellFormed (as_described d)) }
    ensures under { IfOk result (λ d. IsUnderSchema schema.now (as_described d)) }
    ensures files { IsTrue S.tells → S.files site.new ≡ S.files site.old }
    ensures said { S.said site.new ≡ S.said site.old }
    ensures same_site { S.same_site site.old site.new }
    ensures moments { Steps Same (S.clock site.old) (S.clock site.new) }
    ensures disk { CountedAt (IsErrOf result FileFault.Disk) (S.disk_faults site.old) (S.disk_faults site.new) }
    ensures say_faults { S.say_faults site.new ≡ S.say_faults site.old }
{
    match decode(alloc, schema) {
        Err(_) => return Err(FileFault::Memory),
        Ok(Some(desc)) => return Ok(desc),
        Ok(None) => {}
    }
    match read_description(alloc, site) {
        Err(fault) => Err(fault),
        Ok(None) => Err(FileFault::Memory),
        Ok(Some(desc)) => Ok(desc),
    }
}
