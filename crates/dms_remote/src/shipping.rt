//! `ship`.

ghost use Rattle.std.specs.Prelude.{◌≡◌, ◌≤◌, ◌+◌, ◌-◌, ◌++◌, ◌⊎◌, ℕ, length, IfOk, IfErr, OnOk, IsErrOf, IsTrue};
ghost use Rattle.dms_moments.specs.Moments.{Steps};
ghost use Rattle.dms_audfile.specs.Counting.{CountedAt};
ghost use Rattle.dms_audfile.specs.Gates.{block_at, blocks_from};
ghost use Rattle.dms_audfile.specs.Reads.{ReadsAlone};
ghost use Rattle.dms_stream.specs.Stream.{record_bytes, records_bytes};
ghost use Rattle.dms_remote.specs.Shipping.{blocks_on, IsShipped, PrintsStream, PrintsFirst, PrintsStreamFirst, PrintsStreamPart, PrintsSome, placed_bytes, AreWhole, RefusesShip, IsLate, IsOfShipping};
ghost use Rattle.dms_remote.specs.Shipment.{HasShipment};
ghost use Rattle.dms_remote.specs.Files.{EndsIn};

use crate::RemoteFault;
use crate::shipment::{Shipment, find_shipment};
use dms_audfile::AudFault;
use dms_site::Site;
use dms_stream::{RECORD, put_place};
use std::alloc::Global;

/// Fills a record: the place of a block of an audit file, and its bytes.
fn load_record<S: Site>(
    site: &mut S,
    file: u32,
    block: u32,
    buffer: &mut [u8],
) -> Result<(), AudFault>
    requires size { length buffer.old ≡ 4103 }
    requires few { block ≤ 512 }
    requires low { 10001 ≤ file }
    ensures loaded { OnOk result (IsTrue S.tells → length (block_at block (S.files site.old file)) ≡ 4096 → buffer.new ≡ record_bytes (file - 10000) block (block_at block (S.files site.old file))) }
    ensures size { length buffer.new ≡ 4103 }
    ensures only { IfErr result (λ e. e ≡ AudFault.Disk) }
    ensures reads { ReadsAlone S.Site site.old site.new }
    ensures same_site { S.same_site site.old site.new }
    ensures disk { CountedAt (IsErrOf result AudFault.Disk) (S.disk_faults site.old) (S.disk_faults site.new) }
{
    put_place(buffer, file - 10_000, block as u16);
    let (_place, bytes) = buffer.split_at_mut(7);
    match site.read(file, 4096 * u64::from(block), bytes) {
        Ok(_) => Ok(()),
        Err(_) => Err(AudFault::Disk),
    }
}

/// Prints a block of an audit file, with its place before it.
fn ship_block<S: Site>(
    site: &mut S,
    file: u32,
    block: u32,
    buffer: &mut [u8],
) -> Result<(), RemoteFault>
    requires size { length buffer.old ≡ 4103 }
    requires few { block ≤ 512 }
    requires low { 10001 ≤ file }
    ensures printed { OnOk result (IsTrue S.tells → IsTrue S.tells_said → length (block_at block (S.files site.old file)) ≡ 4096
        → S.said site.new ≡ S.said site.old ++ record_bytes (file - 10000) block (block_at block (S.files site.old file))) }
    ensures part { IsTrue S.tells → IsTrue S.tells_said → length (block_at block (S.files site.old file)) ≡ 4096
        → PrintsFirst (record_bytes (file - 10000) block (block_at block (S.files site.old file))) (S.said site.old) (S.said site.new) }
    ensures late { IfErr result IsLate }
    ensures size { length buffer.new ≡ 4103 }
    ensures files { IsTrue S.tells → S.files site.new ≡ S.files site.old }
    ensures moments { Steps PrintsSome (S.clock site.old) (S.clock site.new) }
    ensures same_site { S.same_site site.old site.new }
    ensures disk { CountedAt (IsErrOf result (RemoteFault.Audit AudFault.Disk)) (S.disk_faults site.old) (S.disk_faults site.new) }
    ensures say { CountedAt (IsErrOf result RemoteFault.Say) (S.say_faults site.old) (S.say_faults site.new) }
{
    match load_record(site, file, block, buffer) {
        Ok(()) => {}
        Err(fault) => return Err(RemoteFault::Audit(fault)),
    }
    match site.say(buffer) {
        Ok(()) => Ok(()),
        Err(_) => Err(RemoteFault::Say),
    }
}

/// Prints the first so many blocks of an audit file.
fn ship_file<S: Site>(
    site: &mut S,
    file: u32,
    count: u32,
    buffer: &mut [u8],
) -> Result<(), RemoteFault>
    requires size { length buffer.old ≡ 4103 }
    requires few { count ≤ 512 }
    requires low { 10001 ≤ file }
    ensures printed { OnOk result (IsTrue S.tells → IsTrue S.tells_said → AreWhole (blocks_from count 1 (S.files site.old file))
        → S.said site.new ≡ S.said site.old ++ placed_bytes (file - 10000) 1 (blocks_from count 1 (S.files site.old file))) }
    ensures part { IsTrue S.tells → IsTrue S.tells_said → AreWhole (blocks_from count 1 (S.files site.old file))
        → PrintsFirst (placed_bytes (file - 10000) 1 (blocks_from count 1 (S.files site.old file))) (S.said site.old) (S.said site.new) }
    ensures late { IfErr result IsLate }
    ensures size { length buffer.new ≡ 4103 }
    ensures files { IsTrue S.tells → S.files site.new ≡ S.files site.old }
    ensures moments { Steps PrintsSome (S.clock site.old) (S.clock site.new) }
    ensures same_site { S.same_site site.old site.new }
    ensures disk { CountedAt (IsErrOf result (RemoteFault.Audit AudFault.Disk)) (S.disk_faults site.old) (S.disk_faults site.new) }
    ensures say { CountedAt (IsErrOf result RemoteFault.Say) (S.say_faults site.old) (S.say_faults site.new) }
{
    for block in 1..count + 1 {
        match ship_block(site, file, block, buffer) {
            Ok(()) => {}
            Err(fault) => return Err(fault),
        }
    }
    Ok(())
}

/// Prints the sealed blocks of the audit files from one on, of a trail that ends behind block `count` of file `last`.
fn ship_files<S: Site>(
    site: &mut S,
    from: u32,
    shipment: &Shipment,
    buffer: &mut [u8],
) -> Result<(), RemoteFault>
    requires size { length buffer.old ≡ 4103 }
    requires some { 1 ≤ from }
    requires high { from ≤ 9999 }
    ensures printed { OnOk result (IsTrue S.tells → IsTrue S.tells_said → EndsIn from shipment.now.total shipment.now.last shipment.now.count (S.files site.old)
        → S.said site.new ≡ S.said site.old ++ records_bytes shipment.now.total from 1 (blocks_on shipment.now.total shipment.now.last from (S.files site.old))) }
    ensures part { IsTrue S.tells → IsTrue S.tells_said → EndsIn from shipment.now.total shipment.now.last shipment.now.count (S.files site.old)
        → PrintsFirst (records_bytes shipment.now.total from 1 (blocks_on shipment.now.total shipment.now.last from (S.files site.old))) (S.said site.old) (S.said site.new) }
    ensures late { IfErr result IsLate }
    ensures files { IsTrue S.tells → S.files site.new ≡ S.files site.old }
    ensures moments { Steps PrintsSome (S.clock site.old) (S.clock site.new) }
    ensures same_site { S.same_site site.old site.new }
    ensures disk { CountedAt (IsErrOf result (RemoteFault.Audit AudFault.Disk)) (S.disk_faults site.old) (S.disk_faults site.new) }
    ensures say { CountedAt (IsErrOf result RemoteFault.Say) (S.say_faults site.old) (S.say_faults site.new) }
{
    for file in 10_000 + from..shipment.last + 1 {
        let count = shipment.count_in(file);
        match ship_file(site, file, count, buffer) {
            Ok(()) => {}
            Err(fault) => return Err(fault),
        }
    }
    Ok(())
}

/// Prints a stream: its head, the blocks of the audit files from one on, and its end.
fn ship_stream<S: Site>(
    site: &mut S,
    from: u32,
    shipment: &Shipment,
    buffer: &mut [u8],
) -> Result<(), RemoteFault>
    requires size { length buffer.old ≡ 4103 }
    requires some { 1 ≤ from }
    requires high { from ≤ 9999 }
    ensures printed { OnOk result (IsTrue S.tells → IsTrue S.tells_said → HasShipment from (S.files site.old) shipment.now.head shipment.now.total shipment.now.last shipment.now.count
        → PrintsStream from (S.files site.old) (S.said site.old) (S.said site.new)) }
    ensures part { IsTrue S.tells → IsTrue S.tells_said → HasShipment from (S.files site.old) shipment.now.head shipment.now.total shipment.now.last shipment.now.count
        → PrintsStreamFirst from (S.files site.old) (S.said site.old) (S.said site.new) }
    ensures late { IfErr result IsLate }
    ensures files { IsTrue S.tells → S.files site.new ≡ S.files site.old }
    ensures moments { Steps PrintsSome (S.clock site.old) (S.clock site.new) }
    ensures same_site { S.same_site site.old site.new }
    ensures disk { CountedAt (IsErrOf result (RemoteFault.Audit AudFault.Disk)) (S.disk_faults site.old) (S.disk_faults site.new) }
    ensures say { CountedAt (IsErrOf result RemoteFault.Say) (S.say_faults site.old) (S.say_faults site.new) }
{
    match site.say(shipment.head.as_slice()) {
        Ok(()) => {}
        Err(_) => return Err(RemoteFault::Say),
    }
    match ship_files(site, from, shipment, buffer) {
        Ok(()) => {}
        Err(fault) => return Err(fault),
    }
    match site.say(&[0]) {
        Ok(()) => Ok(()),
        Err(_) => Err(RemoteFault::Say),
    }
}

/// Prints the stream of the trail from audit file `from` on, 1 to 9,999; or answers the first refusal of scanning, then Missing where the trail begins
/// behind that file, and prints nothing.
///
/// No file changes. Answers Disk and Say where a call of the site failed, and Memory.
pub fn ship<S: Site>(alloc: Global, site: &mut S, from: u32) -> Result<(), RemoteFault>
    requires some { 1 ≤ from }
    requires high { from ≤ 9999 }
    ensures printed { OnOk result (IsTrue S.tells → IsTrue S.tells_said → PrintsStream from (S.files site.old) (S.said site.old) (S.said site.new)) }
    ensures refused { IfErr result (λ fault. IsTrue S.tells → RefusesShip from (S.files site.old) fault) }
    ensures kinds { IfErr result IsOfShipping }
    ensures silent { IfErr result (λ fault. IsTrue S.tells → (IsLate fault → ⊥) → S.said site.new ≡ S.said site.old) }
    ensures part { IsTrue S.tells → IsTrue S.tells_said → PrintsStreamPart from (S.files site.old) (S.said site.old) (S.said site.new) }
    ensures files { IsTrue S.tells → S.files site.new ≡ S.files site.old }
    ensures moments { Steps PrintsSome (S.clock site.old) (S.clock site.new) }
    ensures same_site { S.same_site site.old site.new }
    ensures disk { CountedAt (IsErrOf result (RemoteFault.Audit AudFault.Disk)) (S.disk_faults site.old) (S.disk_faults site.new) }
    ensures say { CountedAt (IsErrOf result RemoteFault.Say) (S.say_faults site.old) (S.say_faults site.new) }
{
    match site.sync() {
        Ok(()) => {}
        Err(_) => return Err(RemoteFault::Audit(AudFault::Disk)),
    }
    let shipment = match find_shipment(alloc, site, from) {
        Ok(shipment) => shipment,
        Err(fault) => return Err(RemoteFault::Audit(fault)),
    };
    let Ok(mut buffer) = Vec::from_elem(alloc, 0u8, RECORD) else {
        return Err(RemoteFault::Audit(AudFault::Memory));
    };
    ship_stream(site, from, &shipment, &mut buffer)
}
