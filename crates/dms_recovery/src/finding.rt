//! What the dump that is asked for is found to be.

ghost use Rattle.std.specs.Prelude.{◌≡◌, ◌⊎◌, IfOk, IfErr, IsErrOf, IsTrue};
ghost use Rattle.dms_audfile.specs.Counting.{CountedAt};
ghost use Rattle.dms_audfile.specs.Reads.{ReadsAlone};
ghost use Rattle.dms_opening.specs.DumpLooks.{IsFitFound, IsFoundAs, dump_asked};

use dms_audfile::AudFault;
use dms_opening::{Asked, DumpFound, find_dump};
use dms_site::Site;
use std::alloc::Global;

/// What the dump that is asked for is found to be, for a trail with this tag; it is missing where none is. Nothing changes. Answers Disk where a call of the site failed, and
/// Memory.
pub(crate) fn find_asked<S: Site>(
    alloc: Global,
    site: &mut S,
    tag: u64,
    asked: Asked,
) -> Result<DumpFound, AudFault>
    ensures found { IfOk result (λ f. IsTrue S.tells → IsFoundAs tag (dump_asked (S.files site.old) asked) f) }
    ensures fit { IfOk result IsFitFound }
    ensures only { IfErr result (λ e. (e ≡ AudFault.Disk) ⊎ (e ≡ AudFault.Memory)) }
    ensures reads { ReadsAlone S.Site site.old site.new }
    ensures same_site { S.same_site site.old site.new }
    ensures disk { CountedAt (IsErrOf result AudFault.Disk) (S.disk_faults site.old) (S.disk_faults site.new) }
{
    match asked {
        Asked::HaltLoad => Ok(DumpFound::Missing),
        Asked::Rollback(_) => Ok(DumpFound::Missing),
        Asked::Rebuild(dump, _) => find_dump(alloc, site, tag, dump),
        Asked::Reconstruct(dump) => find_dump(alloc, site, tag, dump),
    }
}
