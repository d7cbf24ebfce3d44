//! `initialize`.

ghost use Rattle.std.specs.Prelude.{◌≡◌, ◌≢◌, ◌+◌, ◌≤◌, ℕ, length, slice_index, IfOk, IfErr, OnOk, IsErrOf, IsTrue};
ghost use Rattle.dms_base.specs.Causes.{HasCause, Rose};
ghost use Rattle.dms_moments.specs.Moments.{Steps};
ghost use Rattle.dms_site.specs.Files.{Same, Only};
ghost use Rattle.dms_desc.specs.Shape.{Described, as_described};
ghost use Rattle.dms_desc_bytes.specs.WellFormed.{IsWellFormed};
ghost use Rattle.dms_descfile.specs.DescriptionFile.{IsSealed, IsUnsealed};
ghost use Rattle.dms_audrec.specs.Spelling.{pair_bytes, count_file, count_blocks};
ghost use Rattle.dms_audfile.specs.Counting.{CountedAt};
ghost use Rattle.dms_creation.specs.Clearing.{KeepsApart};
ghost use Rattle.dms_creation.specs.FirstEntries.{zero_counts};
ghost use Rattle.dms_creation.specs.Creation.{IsReadyToOpen, IsMade, InitializesSite, IsGate};
ghost use Rattle.dms_creation.specs.Plans.{IsPlanOf, HasShutDatabaseGate};

use crate::CreationFault;
use crate::clearing::clear_old;
use crate::laying::lay_trail;
use crate::planning::{Plan, make_plan};
use dms_desc::Description;
use dms_descfile::{FileFault, read_description};
use dms_site::{Failed, Site, write_synced};
use std::alloc::Global;

/// The number of the description file.
const DESCRIPTION_FILE: u32 = 1;

/// Whether the gate of the database is open.
fn has_database<S: Site>(site: &mut S) -> Result<bool, Failed>
    ensures gate { IfOk result (λ is_open. IsTrue S.tells → 2 ≤ length (S.files site.old 1) → IsGate is_open (S.files site.old 1)) }
    ensures files { IsTrue S.tells → S.files site.new ≡ S.files site.old }
    ensures moments { Steps Same (S.clock site.old) (S.clock site.new) }
    ensures said { S.said site.new ≡ S.said site.old }
    ensures same_site { S.same_site site.old site.new }
    ensures faults { HasCause (S.disk_faults site.old) (S.disk_faults site.new) result }
    ensures say_faults { S.say_faults site.new ≡ S.say_faults site.old }
{
    let mut gate = [0u8; 1];
    site.read(DESCRIPTION_FILE, 1, &mut gate)?;
    Ok(gate[0] == 1)
}

/// The description of which a database is to be made, or why none is made. Nothing changes.
fn description_without_database<S: Site>(
    alloc: Global,
    site: &mut S,
) -> Result<Description, CreationFault>
    ensures sealed { IfOk result (λ d. IsTrue S.tells → IsSealed (S.files site.old 1) (as_described d)) }
    ensures shut { IfOk result (λ d. IsTrue S.tells → slice_index (S.files site.old 1) 1 ≢ 1) }
    ensures sound { IfOk result (λ d. IsWellFormed (as_described d)) }
    ensures no_description { IsErrOf result CreationFault.NoDescription → IsTrue S.tells → IsUnsealed (S.files site.old 1) }
    ensures exists { IsErrOf result CreationFault.Exists → IsTrue S.tells → slice_index (S.files site.old 1) 1 ≡ 1 }
    ensures described { IsErrOf result CreationFault.Exists → IsTrue S.tells → (d : Described) × IsSealed (S.files site.old 1) d }
    ensures files { IsTrue S.tells → S.files site.new ≡ S.files site.old }
    ensures moments { Steps Same (S.clock site.old) (S.clock site.new) }
    ensures said { S.said site.new ≡ S.said site.old }
    ensures same_site { S.same_site site.old site.new }
    ensures disk { CountedAt (IsErrOf result CreationFault.Disk) (S.disk_faults site.old) (S.disk_faults site.new) }
    ensures say_faults { S.say_faults site.new ≡ S.say_faults site.old }
{
    match read_description(alloc, site) {
        Err(FileFault::Disk) => Err(CreationFault::Disk),
        Err(FileFault::Memory) => Err(CreationFault::Memory),
        Ok(None) => Err(CreationFault::NoDescription),
        Ok(Some(desc)) => match has_database(site) {
            Ok(false) => Ok(desc),
            Ok(true) => Err(CreationFault::Exists),
            Err(_) => Err(CreationFault::Disk),
        },
    }
}

/// Clears the files of an old database, and lays the trail of the new one.
fn prepare<S: Site>(site: &mut S, made: &mut Plan) -> Result<(), Failed>
    requires few { length made.old.bytes ≤ 65535 }
    requires low { 8 ≤ made.old.end.total }
    requires limit { made.old.end.limit ≡ 9999 }
    requires front { made.old.end.file ≡ 10001 }
    requires none { made.old.end.count ≡ 0 }
    requires empty { made.old.end.used ≡ 0 }
    requires structures { (n : ℕ) × (n ≤ 200) × (made.old.counts ≡ pair_bytes count_file count_blocks (zero_counts n 1)) }
    ensures moments { IsTrue S.tells → Steps KeepsApart (S.clock site.old) (S.clock site.new) }
    ensures ready { OnOk result (IsTrue S.tells → (d : Described) → IsPlanOf made.old d
        → IsReadyToOpen made.old.end.tag d (S.files site.old) (S.files site.new)) }
    ensures durable { OnOk result (IsTrue S.tells → Only (S.files site.new) (S.clock site.new)) }
    ensures said { S.said site.new ≡ S.said site.old }
    ensures same_site { S.same_site site.old site.new }
    ensures faults { HasCause (S.disk_faults site.old) (S.disk_faults site.new) result }
    ensures say_faults { S.say_faults site.new ≡ S.say_faults site.old }
{
    clear_old(site)?;
    site.sync()?;
    lay_trail(
        &mut made.end,
        site,
        made.bytes.as_slice(),
        made.counts.as_slice(),
    )
}

/// Makes a database, where none is.
fn make<S: Site>(site: &mut S, made: &mut Plan) -> Result<(), Failed>
    requires few { length made.old.bytes ≤ 65535 }
    requires low { 8 ≤ made.old.end.total }
    requires limit { made.old.end.limit ≡ 9999 }
    requires front { made.old.end.file ≡ 10001 }
    requires none { made.old.end.count ≡ 0 }
    requires empty { made.old.end.used ≡ 0 }
    requires structures { (n : ℕ) × (n ≤ 200) × (made.old.counts ≡ pair_bytes count_file count_blocks (zero_counts n 1)) }
    ensures moments { IsTrue S.tells → (d : Described) → IsPlanOf made.old d → HasShutDatabaseGate (S.files site.old 1) → InitializesSite S.Site made.old.end.tag d site.old site.new }
    ensures made { OnOk result (IsTrue S.tells → (d : Described) → IsPlanOf made.old d → IsMade made.old.end.tag d (S.files site.old) (S.files site.new)) }
    ensures durable { OnOk result (IsTrue S.tells → Only (S.files site.new) (S.clock site.new)) }
    ensures said { S.said site.new ≡ S.said site.old }
    ensures same_site { S.same_site site.old site.new }
    ensures faults { HasCause (S.disk_faults site.old) (S.disk_faults site.new) result }
    ensures say_faults { S.say_faults site.new ≡ S.say_faults site.old }
{
    site.sync()?;
    prepare(site, made)?;
    write_synced(site, DESCRIPTION_FILE, 1, &[1])
}

/// Makes the empty database of the description in the description file, with that tag.
///
/// All memory is taken before the first file is changed. After the first call of the site that fails no other is made.
pub fn initialize<S: Site>(alloc: Global, site: &mut S, tag: u64) -> Result<(), CreationFault>
    // a stop leaves what a stop at entry could leave, or there no database, or exactly the new one
    ensures moments { IsTrue S.tells → (d : Described) → IsSealed (S.files site.old 1) d → InitializesSite S.Site tag d site.old site.new }
    // whatever the description file is, where nothing was begun nothing changed at any moment
    ensures stays { IfErr result (λ e. e ≢ CreationFault.Disk → Steps Same (S.clock site.old) (S.clock site.new)) }
    ensures before { IfErr result (λ e. e ≢ CreationFault.Disk → IsTrue S.tells → S.files site.new ≡ S.files site.old) }
    ensures made { OnOk result (IsTrue S.tells → (d : Described) → IsSealed (S.files site.old 1) d → IsMade tag d (S.files site.old) (S.files site.new)) }
    ensures sealed { OnOk result (IsTrue S.tells → (d : Described) × IsSealed (S.files site.old 1) d) }
    ensures shut { OnOk result (IsTrue S.tells → slice_index (S.files site.old 1) 1 ≢ 1) }
    ensures durable { OnOk result (IsTrue S.tells → Only (S.files site.new) (S.clock site.new)) }
    ensures no_description { IsErrOf result CreationFault.NoDescription → IsTrue S.tells → IsUnsealed (S.files site.old 1) }
    ensures exists { IsErrOf result CreationFault.Exists → IsTrue S.tells → slice_index (S.files site.old 1) 1 ≡ 1 }
    ensures described { IsErrOf result CreationFault.Exists → IsTrue S.tells → (d : Described) × IsSealed (S.files site.old 1) d }
    ensures said { S.said site.new ≡ S.said site.old }
    ensures same_site { S.same_site site.old site.new }
    ensures later { S.disk_faults site.old ≤ S.disk_faults site.new }
    ensures disk { IsErrOf result CreationFault.Disk → Rose (S.disk_faults site.old) (S.disk_faults site.new) }
    ensures once { S.disk_faults site.new ≤ S.disk_faults site.old + 1 }
    ensures clean { (IsErrOf result CreationFault.Disk → ⊥) → S.disk_faults site.new ≡ S.disk_faults site.old }
    ensures say_faults { S.say_faults site.new ≡ S.say_faults site.old }
{
    let desc = match description_without_database(alloc, site) {
        Ok(desc) => desc,
        Err(fault) => return Err(fault),
    };
    let mut made = match make_plan(alloc, &desc, tag) {
        Ok(made) => made,
        Err(_) => return Err(CreationFault::Memory),
    };
    match make(site, &mut made) {
        Ok(()) => Ok(()),
        Err(_) => Err(CreationFault::Disk),
    }
}
