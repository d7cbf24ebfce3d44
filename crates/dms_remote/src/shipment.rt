//! What is shipped.

ghost use Rattle.std.specs.Prelude.{◌≡◌, ◌≤◌, ◌<◌, ◌==◌, if◌then◌else◌, length, IfOk, IfErr, IsErrOf, IsTrue};
ghost use Rattle.dms_audfile.specs.Counting.{CountedAt};
ghost use Rattle.dms_audfile.specs.Reads.{ReadsAlone};
ghost use Rattle.dms_remote.specs.Shipping.{RefusesFrom};
ghost use Rattle.dms_remote.specs.Shipment.{HasShipment, SaysDescription, GivesNone};

use dms_audfile::{AudFault, AuditStart};
use dms_base::Bytes;
use dms_desc_bytes::encode;
use dms_descfile::{FileFault, read_description};
use dms_site::Site;
use dms_stream::head_text;
use std::alloc::Global;

/// The head of a stream, and where the trail ends that is shipped.
#[derive(Drop)]
pub(crate) struct Shipment {
    pub(crate) head: Bytes,
    /// How many blocks each audit file has.
    pub(crate) total: u32,
    /// The file in which the trail ends, by its number as a file.
    pub(crate) last: u32,
    /// How many of its blocks are sealed.
    pub(crate) count: u32,
    ghost room: { count < total },
    ghost few: { total ≤ 512 },
    ghost high: { last ≤ 20000 },
}

impl Shipment {
    /// How many sealed blocks a file before its end, or the last one, has.
    pub(crate) fn count_in(&self, file: u32) -> u32
        ensures count { result ≡ (if file == self.now.last then self.now.count else self.now.total) }
        ensures few { result ≤ 512 }
    {
        if file == self.last {
            self.count
        } else {
            self.total
        }
    }
}

/// The bytes of the sealed description.
fn description_bytes<S: Site>(alloc: Global, site: &mut S) -> Result<Bytes, AudFault>
    ensures said { IfOk result (λ bytes. IsTrue S.tells → SaysDescription (S.files site.old 1) bytes) }
    ensures few { IfOk result (λ bytes. length bytes ≤ 65535) }
    ensures none { IfErr result (λ e. IsTrue S.tells → GivesNone (S.files site.old 1) e) }
    ensures reads { ReadsAlone S.Site site.old site.new }
    ensures same_site { S.same_site site.old site.new }
    ensures disk { CountedAt (IsErrOf result AudFault.Disk) (S.disk_faults site.old) (S.disk_faults site.new) }
{
    let desc = match read_description(alloc, site) {
        Ok(Some(desc)) => desc,
        Ok(None) => return Err(AudFault::NoDatabase),
        Err(FileFault::Disk) => return Err(AudFault::Disk),
        Err(FileFault::Memory) => return Err(AudFault::Memory),
    };
    let Ok(bytes) = encode(alloc, &desc) else {
        return Err(AudFault::Memory);
    };
    if bytes.as_slice().len() > 65_535 {
        return Err(AudFault::NoDatabase);
    }
    Ok(bytes)
}

/// What is shipped from an audit file on; or the first refusal of scanning, or Missing where the trail begins behind that file.
///
/// Nothing changes. Answers Disk where a call of the site failed, and Memory.
pub(crate) fn find_shipment<S: Site>(
    alloc: Global,
    site: &mut S,
    from: u32,
) -> Result<Shipment, AudFault>
    requires some { 1 ≤ from }
    requires high { from ≤ 9999 }
    ensures found { IfOk result (λ s. IsTrue S.tells → HasShipment from (S.files site.old) s.head s.total s.last s.count) }
    ensures refused { IfErr result (λ e. IsTrue S.tells → RefusesFrom from (S.files site.old) e) }
    ensures reads { ReadsAlone S.Site site.old site.new }
    ensures same_site { S.same_site site.old site.new }
    ensures disk { CountedAt (IsErrOf result AudFault.Disk) (S.disk_faults site.old) (S.disk_faults site.new) }
{
    let scan = match AuditStart::scan(alloc, site) {
        Ok(scan) => scan,
        Err(fault) => return Err(fault),
    };
    if 10_000 + from < scan.first {
        return Err(AudFault::Missing(scan.first - 10_001));
    }
    let bytes = match description_bytes(alloc, site) {
        Ok(bytes) => bytes,
        Err(fault) => return Err(fault),
    };
    let reach = &scan.reach;
    match head_text(alloc, reach.tag, reach.total as u16, bytes.as_slice()) {
        Ok(head) => Ok(Shipment {
            head,
            total: reach.total,
            last: reach.file,
            count: reach.count,
        }),
        Err(_) => Err(AudFault::Memory),
    }
}
