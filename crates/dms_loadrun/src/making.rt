//! The database of a load is made.

ghost use Rattle.std.specs.Prelude.{◌≡◌, ◌≤◌, length, IfErr, IsErrOf, IsTrue, OnOk};
ghost use Rattle.dms_audfile.specs.Counting.{CountedAt};
ghost use Rattle.dms_creation.specs.Clearing.{AllButDescriptionStay};
ghost use Rattle.dms_desc.specs.Shape.{as_described};
ghost use Rattle.dms_desc_bytes.specs.Spelling.{spelling};
ghost use Rattle.dms_desc_bytes.specs.WellFormed.{IsWellFormed};
ghost use Rattle.dms_loadrun.specs.Filling.{IsNew, Makes};
ghost use Rattle.dms_loadrun.specs.Statuses.{IsOfMaking, IsUnfound};

use dms_creation::{CreationFault, initialize};
use dms_desc::Description;
use dms_descfile::{FileFault, seal_description};
use dms_newdb::what_is_made_stands;
use dms_site::Site;
use dms_status::{NeedFault, Status};
use std::alloc::Global;

/// The status that a fault of a creation ends with.
fn status_of_creation(fault: CreationFault) -> Status
    ensures making { IsOfMaking result }
    ensures disk { (result ≡ Status.DiskFault → fault ≡ CreationFault.Disk) × (fault ≡ CreationFault.Disk → result ≡ Status.DiskFault) }
    ensures exists { result ≡ Status.Exists → fault ≡ CreationFault.Exists }
    ensures unfound { IsUnfound result → fault ≡ CreationFault.NoDescription }
{
    match fault {
        CreationFault::NoDescription => Status::Needed(NeedFault::NoDescription),
        CreationFault::Exists => Status::Exists,
        CreationFault::Disk => Status::DiskFault,
        CreationFault::Memory => Status::Memory,
    }
}

/// Makes the empty database of a description in files that hold none: the description is sealed, and the database is made of it, with tag 0. Nothing is
/// printed.
pub fn make_database<S: Site>(alloc: Global, site: &mut S, desc: &Description) -> Result<(), Status>
    requires short { length (spelling (as_described desc.now)) ≤ 65535 }
    requires formed { IsWellFormed (as_described desc.now) }
    ensures made { OnOk result (IsTrue S.tells → IsNew (as_described desc.now) (S.files site.old) (S.files site.new) (S.clock site.new)) }
    ensures others { IsTrue S.tells → AllButDescriptionStay (S.files site.old) (S.files site.new) }
    ensures moments { IsTrue S.tells → Makes (as_described desc.now) (S.files site.old) (S.clock site.old) (S.clock site.new) }
    ensures statuses { IfErr result IsOfMaking }
    ensures exists { IsErrOf result Status.Exists → IsTrue S.tells → ⊥ }
    ensures found { IfErr result (λ status. IsTrue S.tells → IsUnfound status → ⊥) }
    ensures disk { CountedAt (IsErrOf result Status.DiskFault) (S.disk_faults site.old) (S.disk_faults site.new) }
    ensures said { S.said site.new ≡ S.said site.old }
    ensures say_faults { S.say_faults site.new ≡ S.say_faults site.old }
    ensures same_site { S.same_site site.old site.new }
{
    what_is_made_stands();
    match seal_description(alloc, site, desc) {
        Err(FileFault::Disk) => return Err(Status::DiskFault),
        Err(FileFault::Memory) => return Err(Status::Memory),
        Ok(()) => {}
    }
    match initialize(alloc, site, 0) {
        Ok(()) => Ok(()),
        Err(fault) => Err(status_of_creation(fault)),
    }
}
