ghost use Rattle.std.specs.Prelude.{◌≡◌, ◌+◌, ◌<◌, ◌≤◌, IsTrue, false, IfOk};
ghost use Rattle.dms_base.specs.Causes.{Rose};
ghost use Rattle.dms_calls.specs.Seen.{site_files, seen_clock};
ghost use Rattle.dms_calls.specs.Names.{name_of};
ghost use Rattle.dms_folder.specs.Kept.{KeepsFolder};

use crate::folder::Folder;
use crate::print::print_all;
use dms_base::Memory;
use dms_calls::Calls;
use dms_site::{Failed, Site};
use std::alloc::Global;

/// A site over the files of a folder and an output. It tells what its calls tell.
///
/// Once a call on the files failed, none is made again.
#[derive(Drop)]
pub struct FolderSite<C: Calls> {
    folder: Folder<C>,
    disk_faults: u64,
    say_faults: u64,
    ghost kept: { IsTrue C.tells → KeepsFolder C.file folder.opened.items folder.made folder.synced (C.world folder.calls) (C.clock folder.calls) },
    ghost sound: { disk_faults ≡ 0 → C.broken folder.calls ≡ false },
}

/// Counts a failure.
fn fail(count: &mut u64) -> Failed
    ensures rose { Rose count.old count.new }
    ensures later { count.old ≤ count.new }
    ensures once { count.new ≤ count.old + 1 }
    ensures some { 0 < count.new }
{
    *count = count.saturating_add(1);
    Failed
}

impl<C: Calls + Drop> FolderSite<C> {
    /// The site of a folder of which no call has failed.
    pub fn new(calls: C, alloc: Global) -> Result<FolderSite<C>, Memory>
        requires whole { C.broken calls ≡ false }
        ensures disk_faults { IfOk result (λ s. s.disk_faults ≡ 0) }
        ensures say_faults { IfOk result (λ s. s.say_faults ≡ 0) }
        ensures calls { IfOk result (λ s. s.folder.calls ≡ calls) }
    {
        Ok(FolderSite {
            folder: Folder::new(calls, alloc)?,
            disk_faults: 0,
            say_faults: 0,
        })
    }

    /// The calls that it makes.
    pub fn calls(&self) -> &C
        ensures { result.now ≡ self.now.folder.calls }
    {
        &self.folder.calls
    }
}

impl<C: Calls> Site for FolderSite<C> {
    ghost use Rattle.dms_folder.specs.Seeing.{seen_stays, seen_said, seen_counts};

    ghost tells = { C.tells };

    ghost tells_said = { C.tells };

    ghost files = { λ s. site_files name_of (C.world s.folder.calls) };

    ghost said = { λ s. (C.world s.folder.calls).said };

    ghost clock = { λ s. seen_clock name_of (C.clock s.folder.calls) };

    ghost same_site = { λ a b. Unit {0} };

    ghost same_again = { λ s. tt };

    ghost same_then = { λ r s t one two. tt };

    ghost disk_faults = { λ s. s.disk_faults };

    ghost say_faults = { λ s. s.say_faults };

    ghost may_stay = { λ s tells. seen_stays (C.clock s.folder.calls) (C.world s.folder.calls) (C.Calls.may_stay s.folder.calls tells) };

    ghost now_said = { λ s x tells now. seen_said (C.clock s.folder.calls) (C.world s.folder.calls) (C.Calls.now_said s.folder.calls) x now };

    ghost counts_now = { λ s t x le now. seen_counts (C.clock s.folder.calls) (C.Calls.counts_now s.folder.calls) t x le now };

    fn length(&mut self, file: u32) -> Result<u64, Failed> {
        if self.disk_faults > 0 {
            return Err(fail(&mut self.disk_faults));
        }
        match self.folder.length(file) {
            Ok(n) => Ok(n),
            Err(_) => Err(fail(&mut self.disk_faults)),
        }
    }

    fn last_present(&mut self, from: u32, upto: u32) -> Result<u32, Failed> {
        if self.disk_faults > 0 {
            return Err(fail(&mut self.disk_faults));
        }
        match self.folder.last_present(from, upto) {
            Ok(n) => Ok(n),
            Err(_) => Err(fail(&mut self.disk_faults)),
        }
    }

    fn read(&mut self, file: u32, at: u64, into: &mut [u8]) -> Result<usize, Failed> {
        if self.disk_faults > 0 {
            return Err(fail(&mut self.disk_faults));
        }
        match self.folder.read(file, at, into) {
            Ok(n) => Ok(n),
            Err(_) => Err(fail(&mut self.disk_faults)),
        }
    }

    fn write_at(&mut self, file: u32, at: u64, bytes: &[u8]) -> Result<(), Failed> {
        if self.disk_faults > 0 {
            return Err(fail(&mut self.disk_faults));
        }
        match self.folder.write(file, at, bytes) {
            Ok(()) => Ok(()),
            Err(_) => Err(fail(&mut self.disk_faults)),
        }
    }

    fn cut(&mut self, file: u32, len: u64) -> Result<(), Failed> {
        if self.disk_faults > 0 {
            return Err(fail(&mut self.disk_faults));
        }
        match self.folder.cut(file, len) {
            Ok(()) => Ok(()),
            Err(_) => Err(fail(&mut self.disk_faults)),
        }
    }

    fn sync(&mut self) -> Result<(), Failed> {
        if self.disk_faults > 0 {
            return Err(fail(&mut self.disk_faults));
        }
        match self.folder.sync() {
            Ok(()) => Ok(()),
            Err(_) => Err(fail(&mut self.disk_faults)),
        }
    }

    fn say(&mut self, bytes: &[u8]) -> Result<(), Failed> {
        match print_all(&mut self.folder.calls, bytes) {
            Ok(()) => Ok(()),
            Err(_) => Err(fail(&mut self.say_faults)),
        }
    }

    fn show(&mut self, done: u64, of: u64) {
        self.folder.calls.show(done, of)
    }
}
