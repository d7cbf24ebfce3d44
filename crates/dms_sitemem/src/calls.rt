ghost use Rattle.std.specs.Prelude.{◌≡◌, ◌+◌, ℕ, ◌++◌, not, length, take, OnOk, OnErr, IfOk, IsTrue};
ghost use Rattle.dms_moments.specs.Moments.{Steps};
ghost use Rattle.dms_site.specs.Files.{with_file, overlay_bytes, InFile, Torn, Cut, OnDisk, PrintsPartOf, Same, Only};
ghost use Rattle.dms_sitemem.specs.Keeping.{KeepsEvent, IsLookEvent, IsWrite, IsCut, IsSync, IsSaying};
ghost use Rattle.dms_sitemem.specs.Slots.{files_of};
ghost use Rattle.dms_sitemem.specs.Plans.{is_named};
ghost use Rattle.dms_sitemem.specs.Replay.{clock_of};

use crate::event::SiteEvent;
use crate::journal::Journal;
use std::alloc::AllocError;

impl Journal {
    /// Whether the next call succeeds, as far as it is planned.
    fn succeeds(&self) -> bool
        ensures { result ≡ not (is_named self.now.plan (self.now.made + 1)) }
    {
        !self.plan.names(self.made + 1)
    }

    /// Keeps that something was read. Answers Err where memory is refused.
    pub fn look(&mut self) -> Result<bool, AllocError>
        ensures done { IfOk result (λ done. done ≡ not (is_named self.old.plan (self.old.made + 1))) }
        ensures files { files_of self.new.image.files ≡ files_of self.old.image.files }
        ensures said { self.new.image.said.items ≡ self.old.image.said.items }
        ensures moments { Steps Same (clock_of self.old.events.items) (clock_of self.new.events.items) }
        ensures kept { KeepsEvent IsLookEvent self.old.events.items self.new.events.items result }
        ensures made { OnOk result (self.new.made ≡ self.old.made + 1) }
        ensures unmade { OnErr result (self.new.made ≡ self.old.made) }
        ensures plan { self.new.plan ≡ self.old.plan }
    {
        let done = self.succeeds();
        self.keep(SiteEvent::Looked(done))?;
        Ok(done)
    }

    /// Writes bytes to a file from a position on, or keeps that it failed.
    pub fn write(&mut self, file: u32, at: u64, bytes: &[u8]) -> Result<bool, AllocError>
        ensures done { IfOk result (λ done. done ≡ not (is_named self.old.plan (self.old.made + 1))) }
        ensures written { IfOk result (λ done. IsTrue done → files_of self.new.image.files ≡ with_file (files_of self.old.image.files) file (overlay_bytes at bytes.now (files_of self.old.image.files file))) }
        ensures torn { InFile file (Torn at (length bytes.now)) (files_of self.old.image.files) (files_of self.new.image.files) }
        ensures said { self.new.image.said.items ≡ self.old.image.said.items }
        ensures moments { Steps (OnDisk file (Torn at (length bytes.now))) (clock_of self.old.events.items) (clock_of self.new.events.items) }
        ensures kept { KeepsEvent (IsWrite file at bytes.now) self.old.events.items self.new.events.items result }
        ensures made { OnOk result (self.new.made ≡ self.old.made + 1) }
        ensures unmade { OnErr result (self.new.made ≡ self.old.made) }
        ensures plan { self.new.plan ≡ self.old.plan }
    {
        let done = self.succeeds();
        let kept = bytes.to_vec(self.image.alloc)?;
        self.keep(SiteEvent::Wrote(file, at, kept, done))?;
        Ok(done)
    }

    /// Cuts a file to a length, or keeps that it failed.
    pub fn cut(&mut self, file: u32, len: u64) -> Result<bool, AllocError>
        ensures done { IfOk result (λ done. done ≡ not (is_named self.old.plan (self.old.made + 1))) }
        ensures cut { IfOk result (λ done. IsTrue done → files_of self.new.image.files ≡ with_file (files_of self.old.image.files) file (take len (files_of self.old.image.files file))) }
        ensures torn { InFile file (Cut len) (files_of self.old.image.files) (files_of self.new.image.files) }
        ensures said { self.new.image.said.items ≡ self.old.image.said.items }
        ensures moments { Steps (OnDisk file (Cut len)) (clock_of self.old.events.items) (clock_of self.new.events.items) }
        ensures kept { KeepsEvent (IsCut file len) self.old.events.items self.new.events.items result }
        ensures made { OnOk result (self.new.made ≡ self.old.made + 1) }
        ensures unmade { OnErr result (self.new.made ≡ self.old.made) }
        ensures plan { self.new.plan ≡ self.old.plan }
    {
        let done = self.succeeds();
        self.keep(SiteEvent::Shortened(file, len, done))?;
        Ok(done)
    }

    /// Makes all stable, or keeps that it failed.
    pub fn sync(&mut self) -> Result<bool, AllocError>
        ensures done { IfOk result (λ done. done ≡ not (is_named self.old.plan (self.old.made + 1))) }
        ensures durable { IfOk result (λ done. IsTrue done → Only (files_of self.old.image.files) (clock_of self.new.events.items)) }
        ensures files { files_of self.new.image.files ≡ files_of self.old.image.files }
        ensures said { self.new.image.said.items ≡ self.old.image.said.items }
        ensures moments { Steps Same (clock_of self.old.events.items) (clock_of self.new.events.items) }
        ensures kept { KeepsEvent IsSync self.old.events.items self.new.events.items result }
        ensures made { OnOk result (self.new.made ≡ self.old.made + 1) }
        ensures unmade { OnErr result (self.new.made ≡ self.old.made) }
        ensures plan { self.new.plan ≡ self.old.plan }
    {
        let done = self.succeeds();
        self.keep(SiteEvent::Synced(done))?;
        Ok(done)
    }

    /// Prints bytes, or keeps that it failed.
    pub fn say(&mut self, bytes: &[u8]) -> Result<bool, AllocError>
        ensures done { IfOk result (λ done. done ≡ not (is_named self.old.plan (self.old.made + 1))) }
        ensures said { IfOk result (λ done. IsTrue done → self.new.image.said.items ≡ self.old.image.said.items ++ bytes.now) }
        ensures some_said { (k : ℕ) × (self.new.image.said.items ≡ self.old.image.said.items ++ take k bytes.now) }
        ensures files { files_of self.new.image.files ≡ files_of self.old.image.files }
        ensures moments { Steps (PrintsPartOf bytes.now) (clock_of self.old.events.items) (clock_of self.new.events.items) }
        ensures kept { KeepsEvent (IsSaying bytes.now) self.old.events.items self.new.events.items result }
        ensures made { OnOk result (self.new.made ≡ self.old.made + 1) }
        ensures unmade { OnErr result (self.new.made ≡ self.old.made) }
        ensures plan { self.new.plan ≡ self.old.plan }
    {
        let done = self.succeeds();
        let kept = bytes.to_vec(self.image.alloc)?;
        self.keep(SiteEvent::Said(kept, done))?;
        Ok(done)
    }

    /// Gives a file these bytes from outside. It is no call. Answers Err where memory is refused.
    pub fn replace(&mut self, file: u32, bytes: &[u8]) -> Result<(), AllocError>
        ensures replaced { OnOk result (files_of self.new.image.files ≡ with_file (files_of self.old.image.files) file bytes.now) }
        ensures moments { OnOk result (Steps (OnDisk file (λ old new. new ≡ bytes.now)) (clock_of self.old.events.items) (clock_of self.new.events.items)) }
        ensures same { OnErr result (files_of self.new.image.files ≡ files_of self.old.image.files) }
        ensures unkept { OnErr result (self.new.events.items ≡ self.old.events.items) }
        ensures said { self.new.image.said.items ≡ self.old.image.said.items }
        ensures made { self.new.made ≡ self.old.made }
        ensures plan { self.new.plan ≡ self.old.plan }
    {
        let kept = bytes.to_vec(self.image.alloc)?;
        self.keep(SiteEvent::Replaced(file, kept))
    }

    /// Puts text before what is printed. It is no call. Answers Err where memory is refused.
    pub fn recall(&mut self, bytes: Vec<u8>) -> Result<(), AllocError>
        ensures recalled { OnOk result (self.new.image.said.items ≡ self.old.image.said.items ++ bytes.items) }
        ensures files { files_of self.new.image.files ≡ files_of self.old.image.files }
        ensures made { self.new.made ≡ self.old.made }
        ensures plan { self.new.plan ≡ self.old.plan }
    {
        self.keep(SiteEvent::Recalled(bytes))
    }
}
