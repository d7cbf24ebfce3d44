ghost use Rattle.std.specs.Prelude.{◌≡◌, ◌+◌, ◌≤◌, ◌<◌, ◌^◌, length, option_map, IfOk, IfSome, IsErrOf, IsTrue};
ghost use Rattle.dms_base.specs.Causes.{Rose};
ghost use Rattle.dms_moments.specs.Moments.{Steps};
ghost use Rattle.dms_site.specs.Files.{Same};
ghost use Rattle.dms_desc.specs.Shape.{as_described};
ghost use Rattle.dms_desc_bytes.specs.WellFormed.{IsWellFormed};
ghost use Rattle.dms_descfile.specs.DescriptionFile.{Holds};
ghost use Rattle.dms_descfile.specs.Contents.{Contents, ReadsFile};

use crate::FileFault;
use dms_base::Memory;
use dms_desc::Description;
use dms_desc_bytes::decode;
use dms_site::Site;
use std::alloc::Global;

/// The number of the description file.
pub const DESCRIPTION_FILE: u32 = 1;

/// Its bytes before the description: two gates, and a length in four bytes.
const HEAD_BYTES: u64 = 6;

/// The bytes that a description may have.
const DESCRIPTION_BYTES: u64 = 65_535;

/// The description's bytes in a description file whose gate is open and whose length is right.
fn content_of(file: &[u8]) -> Option<&[u8]>
    requires { length file.now < 2 ^ 32 }
    ensures { Contents file.now (option_map (λ c. c.now) result) }
{
    if file.len() < 6 {
        return None;
    }
    if file[0] != 1 {
        return None;
    }
    let content = &file[6..];
    if &file[2..6] != (content.len() as u32).to_be_bytes().as_slice() {
        return None;
    }
    Some(content)
}

/// The sealed description that these bytes are, as those of a description file.
fn description_in(alloc: Global, file: &[u8]) -> Result<Option<Description>, Memory>
    requires { length file.now < 2 ^ 32 }
    ensures holds { IfOk result (λ found. length file.now ≤ 65541 → Holds file.now found) }
    ensures sound { IfOk result (λ found. IfSome found (λ d. IsWellFormed (as_described d))) }
{
    match content_of(file) {
        None => Ok(None),
        Some(content) => decode(alloc, content),
    }
}

/// The bytes of the description file; None where its length is that of no description file.
fn file_bytes<S: Site>(alloc: Global, site: &mut S) -> Result<Option<Vec<u8>>, FileFault>
    ensures read { IfOk result (λ found. IsTrue S.tells → ReadsFile (S.files site.old 1) (option_map (λ v. v.items) found)) }
    ensures bound { IfOk result (λ found. IfSome found (λ v. length v.items ≤ 65541)) }
    ensures files { IsTrue S.tells → S.files site.new ≡ S.files site.old }
    ensures said { S.said site.new ≡ S.said site.old }
    ensures same_site { S.same_site site.old site.new }
    ensures moments { Steps Same (S.clock site.old) (S.clock site.new) }
    ensures later { S.disk_faults site.old ≤ S.disk_faults site.new }
    ensures disk { IsErrOf result FileFault.Disk → Rose (S.disk_faults site.old) (S.disk_faults site.new) }
    ensures once { S.disk_faults site.new ≤ S.disk_faults site.old + 1 }
    ensures clean { (IsErrOf result FileFault.Disk → ⊥) → S.disk_faults site.new ≡ S.disk_faults site.old }
    ensures say_faults { S.say_faults site.new ≡ S.say_faults site.old }
{
    let length = match site.length(DESCRIPTION_FILE) {
        Ok(length) => length,
        Err(_) => return Err(FileFault::Disk),
    };
    if length < HEAD_BYTES || length > HEAD_BYTES + DESCRIPTION_BYTES {
        return Ok(None);
    }
    let mut bytes = match Vec::from_elem(alloc, 0u8, length as usize) {
        Ok(bytes) => bytes,
        Err(_) => return Err(FileFault::Memory),
    };
    match site.read(DESCRIPTION_FILE, 0, &mut bytes) {
        Ok(_) => Ok(Some(bytes)),
        Err(_) => Err(FileFault::Disk),
    }
}

/// The sealed description that the description file holds; None exactly where it holds none, the site telling its files.
///
/// Nothing changes. Answers Disk where a call of the site failed, and Memory.
pub fn read_description<S: Site>(
    alloc: Global,
    site: &mut S,
) -> Result<Option<Description>, FileFault>
    ensures found { IfOk result (λ found. IsTrue S.tells → Holds (S.files site.old 1) found) }
    ensures sound { IfOk result (λ found. IfSome found (λ d. IsWellFormed (as_described d))) }
    ensures files { IsTrue S.tells → S.files site.new ≡ S.files site.old }
    ensures said { S.said site.new ≡ S.said site.old }
    ensures same_site { S.same_site site.old site.new }
    ensures moments { Steps Same (S.clock site.old) (S.clock site.new) }
    ensures later { S.disk_faults site.old ≤ S.disk_faults site.new }
    ensures disk { IsErrOf result FileFault.Disk → Rose (S.disk_faults site.old) (S.disk_faults site.new) }
    ensures once { S.disk_faults site.new ≤ S.disk_faults site.old + 1 }
    ensures clean { (IsErrOf result FileFault.Disk → ⊥) → S.disk_faults site.new ≡ S.disk_faults site.old }
    ensures say_faults { S.say_faults site.new ≡ S.say_faults site.old }
{
    match file_bytes(alloc, site) {
        Err(fault) => Err(fault),
        Ok(None) => Ok(None),
        Ok(Some(bytes)) => match description_in(alloc, bytes.as_slice()) {
            Ok(found) => Ok(found),
            Err(_) => Err(FileFault::Memory),
        },
    }
}
