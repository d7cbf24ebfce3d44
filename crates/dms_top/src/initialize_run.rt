//! `initialize`.

ghost use Rattle.std.specs.Prelude.{◌≡◌, ◌≢◌, IsTrue};
ghost use Rattle.dms_audfile.specs.Counting.{CountedAt};
ghost use Rattle.dms_top.specs.Compiling.{IsBefore};
ghost use Rattle.dms_top.specs.Initializing.{InitializeDoes};
ghost use Rattle.dms_top.specs.Words.{IsUntouched};

use dms_creation::{CreationFault, initialize};
use dms_newdb::what_is_made_stands;
use dms_site::Site;
use dms_status::{NeedFault, Status};
use std::alloc::Global;

/// `initialize`: makes the empty database of the description in the description file, with that tag, and says so.
#[tactic(auto, unfolding(crate::specs::Initializing::initialized_text))]
pub fn initialize_database<S: Site>(alloc: Global, site: &mut S, tag: u64) -> Status
    ensures does { InitializeDoes S.Site tag site.old site.new result }
    ensures words { result ≢ Status.BadWords }
    ensures untouched { IsUntouched result → site.new ≡ site.old }
    ensures before { IsBefore result → IsTrue S.tells → S.files site.new ≡ S.files site.old }
    ensures disk { CountedAt (result ≡ Status.DiskFault) (S.disk_faults site.old) (S.disk_faults site.new) }
    ensures say { CountedAt (result ≡ Status.SayFault) (S.say_faults site.old) (S.say_faults site.new) }
    ensures input { result ≢ Status.InputFault }
    ensures same_site { S.same_site site.old site.new }
{
    what_is_made_stands();
    match initialize(alloc, site, tag) {
        Err(CreationFault::NoDescription) => return Status::Needed(NeedFault::NoDescription),
        Err(CreationFault::Exists) => return Status::Exists,
        Err(CreationFault::Disk) => return Status::DiskFault,
        Err(CreationFault::Memory) => return Status::Memory,
        Ok(()) => {}
    }
    match site.say(b"INITIALIZED AT POINT 0\n") {
        Ok(()) => Status::Ok,
        Err(_) => Status::SayFault,
    }
}
