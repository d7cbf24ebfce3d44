ghost use Rattle.std.specs.Prelude.{◌≡◌, ◌≢◌, ◌+◌, ◌≤◌, ◌<◌, ◌^◌, ℕ, ◌∷◌, [], length, IfOk, OnOk, IsErrOf, IsTrue};
ghost use Rattle.std.specs.Int.{to_be_bytes};
ghost use Rattle.dms_base.specs.Causes.{HasCause, Rose};
ghost use Rattle.dms_moments.specs.Moments.{Steps};
ghost use Rattle.dms_site.specs.Files.{Cut, OnDisk, Only, OnlyIn};
ghost use Rattle.dms_desc.specs.Shape.{as_described};
ghost use Rattle.dms_desc_bytes.specs.Spelling.{spelling};
ghost use Rattle.dms_descfile.specs.DescriptionFile.{sealed_file};
ghost use Rattle.dms_descfile.specs.Becoming.{Shuts, Becoming, Creates};

use crate::FileFault;
use crate::reading::DESCRIPTION_FILE;
use dms_base::{Bytes, Memory};
use dms_desc::Description;
use dms_desc_bytes::encode;
use dms_site::{Failed, Site, cut_synced, write_synced};
use std::alloc::Global;

/// Cuts the description file to nothing.
fn empty_file<S: Site>(site: &mut S) -> Result<(), Failed>
    ensures emptied { OnOk result (IsTrue S.tells → S.files site.new 1 ≡ []) }
    ensures others { IsTrue S.tells → (g : ℕ) → g ≢ 1 → S.files site.new g ≡ S.files site.old g }
    ensures durable { OnOk result (IsTrue S.tells → Only (S.files site.new) (S.clock site.new)) }
    ensures moments { Steps (OnDisk 1 (Cut 0)) (S.clock site.old) (S.clock site.new) }
    ensures said { S.said site.new ≡ S.said site.old }
    ensures same_site { S.same_site site.old site.new }
    ensures faults { HasCause (S.disk_faults site.old) (S.disk_faults site.new) result }
    ensures say_faults { S.say_faults site.new ≡ S.say_faults site.old }
{
    cut_synced(site, DESCRIPTION_FILE, 0)
}

/// Writes two closed gates into the empty description file, and what follows them.
fn fill_file<S: Site>(site: &mut S, rest: &[u8]) -> Result<(), Failed>
    requires few { length rest.now < 2 ^ 32 }
    requires empty { IsTrue S.tells → S.files site.old 1 ≡ [] }
    requires settled { IsTrue S.tells → OnlyIn 1 (S.files site.old) (S.clock site.old) }
    ensures filled { OnOk result (IsTrue S.tells → S.files site.new 1 ≡ 0 ∷ 0 ∷ rest.now) }
    ensures others { IsTrue S.tells → (g : ℕ) → g ≢ 1 → S.files site.new g ≡ S.files site.old g }
    ensures durable { OnOk result (IsTrue S.tells → Only (S.files site.new) (S.clock site.new)) }
    ensures moments { IsTrue S.tells → Steps (OnDisk 1 Shuts) (S.clock site.old) (S.clock site.new) }
    ensures said { S.said site.new ≡ S.said site.old }
    ensures same_site { S.same_site site.old site.new }
    ensures faults { HasCause (S.disk_faults site.old) (S.disk_faults site.new) result }
    ensures say_faults { S.say_faults site.new ≡ S.say_faults site.old }
{
    write_synced(site, DESCRIPTION_FILE, 0, &[0, 0])?;
    write_synced(site, DESCRIPTION_FILE, 2, rest)
}

/// Writes the description file whole behind a closed gate, and then opens the gate.
fn write_file<S: Site>(site: &mut S, rest: &[u8]) -> Result<(), Failed>
    requires { length rest.now < 2 ^ 32 }
    ensures written { OnOk result (IsTrue S.tells → S.files site.new 1 ≡ 1 ∷ 0 ∷ rest.now) }
    ensures others { IsTrue S.tells → (g : ℕ) → g ≢ 1 → S.files site.new g ≡ S.files site.old g }
    ensures durable { OnOk result (IsTrue S.tells → Only (S.files site.new) (S.clock site.new)) }
    ensures moments { IsTrue S.tells → Steps (OnDisk 1 (Becoming (1 ∷ 0 ∷ rest.now))) (S.clock site.old) (S.clock site.new) }
    ensures said { S.said site.new ≡ S.said site.old }
    ensures same_site { S.same_site site.old site.new }
    ensures faults { HasCause (S.disk_faults site.old) (S.disk_faults site.new) result }
    ensures say_faults { S.say_faults site.new ≡ S.say_faults site.old }
{
    empty_file(site)?;
    fill_file(site, rest)?;
    write_synced(site, DESCRIPTION_FILE, 0, &[1])
}

/// Makes all stable that is pending, and then writes the description file.
fn write_stable<S: Site>(site: &mut S, rest: &[u8]) -> Result<(), Failed>
    requires { length rest.now < 2 ^ 32 }
    ensures written { OnOk result (IsTrue S.tells → S.files site.new 1 ≡ 1 ∷ 0 ∷ rest.now) }
    ensures others { IsTrue S.tells → (g : ℕ) → g ≢ 1 → S.files site.new g ≡ S.files site.old g }
    ensures durable { OnOk result (IsTrue S.tells → Only (S.files site.new) (S.clock site.new)) }
    ensures moments { IsTrue S.tells → Steps (OnDisk 1 (Becoming (1 ∷ 0 ∷ rest.now))) (S.clock site.old) (S.clock site.new) }
    ensures creates { IsTrue S.tells → Creates (1 ∷ 0 ∷ rest.now) (S.files site.old) (S.clock site.old) (S.clock site.new) }
    ensures said { S.said site.new ≡ S.said site.old }
    ensures same_site { S.same_site site.old site.new }
    ensures faults { HasCause (S.disk_faults site.old) (S.disk_faults site.new) result }
    ensures say_faults { S.say_faults site.new ≡ S.say_faults site.old }
{
    site.sync()?;
    write_file(site, rest)
}

/// What stands behind the gates: the length of the description, and its bytes.
fn behind_gates(alloc: Global, desc: &Description) -> Result<Bytes, Memory>
    requires { length (spelling (as_described desc.now)) ≤ 65535 }
    ensures file { IfOk result (λ rest. 1 ∷ 0 ∷ rest ≡ sealed_file (as_described desc.now)) }
    ensures few { IfOk result (λ rest. length rest < 2 ^ 32) }
{
    let bytes = encode(alloc, desc)?;
    let mut rest = Bytes::copy_of(alloc, &(bytes.as_slice().len() as u32).to_be_bytes())?;
    rest.extend(bytes.as_slice())?;
    Ok(rest)
}

/// Writes the description file with a description, and seals it. The database's gate is closed behind it.
///
/// All memory is taken before the first call of the site, and then all that is pending is made stable. A stop at any moment
/// leaves what a stop at entry could leave, or there the description file is no sealed description, or exactly the new one,
/// and the other files are as a read gives them. After the first call of the site that fails no other is made.
pub fn seal_description<S: Site>(
    alloc: Global,
    site: &mut S,
    desc: &Description,
) -> Result<(), FileFault>
    requires { length (spelling (as_described desc.now)) ≤ 65535 }
    ensures written { OnOk result (IsTrue S.tells → S.files site.new 1 ≡ sealed_file (as_described desc.now)) }
    ensures others { IsTrue S.tells → (g : ℕ) → g ≢ 1 → S.files site.new g ≡ S.files site.old g }
    ensures durable { OnOk result (IsTrue S.tells → Only (S.files site.new) (S.clock site.new)) }
    ensures moments { IsTrue S.tells → Steps (OnDisk 1 (Becoming (sealed_file (as_described desc.now)))) (S.clock site.old) (S.clock site.new) }
    ensures creates { IsTrue S.tells → Creates (sealed_file (as_described desc.now)) (S.files site.old) (S.clock site.old) (S.clock site.new) }
    ensures memory { IsErrOf result FileFault.Memory → site.new ≡ site.old }
    ensures said { S.said site.new ≡ S.said site.old }
    ensures same_site { S.same_site site.old site.new }
    ensures later { S.disk_faults site.old ≤ S.disk_faults site.new }
    ensures disk { IsErrOf result FileFault.Disk → Rose (S.disk_faults site.old) (S.disk_faults site.new) }
    ensures once { S.disk_faults site.new ≤ S.disk_faults site.old + 1 }
    ensures clean { (IsErrOf result FileFault.Disk → ⊥) → S.disk_faults site.new ≡ S.disk_faults site.old }
    ensures say_faults { S.say_faults site.new ≡ S.say_faults site.old }
{
    let rest = match behind_gates(alloc, desc) {
        Ok(rest) => rest,
        Err(_) => return Err(FileFault::Memory),
    };
    match write_stable(site, rest.as_slice()) {
        Ok(()) => Ok(()),
        Err(_) => Err(FileFault::Disk),
    }
}
