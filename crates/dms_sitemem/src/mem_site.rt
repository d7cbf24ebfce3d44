ghost use Rattle.std.specs.Prelude.{◌≡◌, ◌+◌, ◌-◌, ◌^◌, ◌<◌, ◌≤◌, ℕ, [], ◌++◌, true, None, length, take, drop, min, nat_lt, if◌then◌else◌, IfOk, OnOk, OnErr};
ghost use Rattle.dms_base.specs.Causes.{HasCause};
ghost use Rattle.dms_moments.specs.Moments.{Steps};
ghost use Rattle.dms_site.specs.Files.{with_file, range, overlay_bytes, InFile, Torn, Cut, OnDisk, PrintsPartOf, Same, Only, IsLastPresent};
ghost use Rattle.dms_sitemem.specs.Keeping.{KeptCall, IsLookEvent, IsWrite, IsCut, IsSync, IsSaying};
ghost use Rattle.dms_sitemem.specs.Slots.{files_of};
ghost use Rattle.dms_sitemem.specs.Plans.{EndsByPlan};
ghost use Rattle.dms_sitemem.specs.Events.{through};
ghost use Rattle.dms_sitemem.specs.Picks.{picked_after};
ghost use Rattle.dms_sitemem.specs.Replay.{MayLeave, state_of, clock_of};

use crate::crash::{end_of, journal_of, last_sync, replay, strike_all};
use crate::journal::Journal;
use crate::plan::FailurePlan;
use crate::tally::Tally;
use dms_base::Memory;
use dms_site::{Failed, Site};
use std::alloc::{AllocError, Global};

/// A site in memory that keeps all its calls. It tells its files, its text and what a stop may leave.
///
/// Calls are numbered from 1 over all seven kinds. A call that finds no memory fails and gets no number.
#[derive(Drop)]
pub struct MemSite {
    pub(crate) journal: Journal,
    pub(crate) tally: Tally,
}

impl MemSite {
    /// A site with no files and no text. The calls whose numbers are listed fail, and all from `stop` on.
    pub fn new(alloc: Global, fails: Vec<u64>, stop: Option<u64>) -> Result<MemSite, Memory>
        ensures files { IfOk result (λ s. (f : ℕ) → files_of s.journal.image.files f ≡ []) }
        ensures said { IfOk result (λ s. s.journal.image.said.items ≡ []) }
        ensures calls { IfOk result (λ s. s.journal.made ≡ 0) }
        ensures fails { IfOk result (λ s. s.journal.plan.fails.items ≡ fails.items) }
        ensures stop { IfOk result (λ s. s.journal.plan.stop ≡ stop) }
        ensures refused { IfOk result (λ s. s.tally.refused ≡ 0) }
        ensures given { IfOk result (λ s. s.tally.given ≡ 0) }
    {
        Ok(MemSite {
            journal: Journal::new(alloc, FailurePlan { fails, stop }),
            tally: Tally::new(),
        })
    }

    /// The bytes of a file.
    pub fn bytes(&self, file: u32) -> &[u8]
        ensures { result.now ≡ files_of self.now.journal.image.files file }
    {
        self.journal.image.bytes(file)
    }

    /// The text that was printed so far.
    pub fn text(&self) -> &[u8]
        ensures { result.now ≡ self.now.journal.image.said.items }
    {
        self.journal.image.said.as_slice()
    }

    /// How many calls were made.
    pub fn calls(&self) -> u64
        ensures { result ≡ self.now.journal.made }
    {
        self.journal.made
    }

    /// How many bytes reads of files above 30,000 gave. It stays at 2^64 - 1.
    pub fn bytes_given(&self) -> u64
        ensures { result ≡ self.now.tally.given }
    {
        self.tally.given
    }

    /// How many calls failed for want of memory. It stays at 2^64 - 1.
    pub fn refused_memory(&self) -> u64
        ensures { result ≡ self.now.tally.refused }
    {
        self.tally.refused
    }

    /// Gives a file these bytes, so that a stop leaves them and no others. With none the file is removed. It is no call.
    /// Answers Err where memory is refused.
    pub fn overwrite(&mut self, alloc: Global, file: u32, bytes: &[u8]) -> Result<(), Memory>
        ensures files { OnOk result (files_of self.new.journal.image.files ≡ with_file (files_of self.old.journal.image.files) file bytes.now) }
        ensures moments { OnOk result (Steps (OnDisk file (λ old new. new ≡ bytes.now)) (clock_of self.old.journal.events.items) (clock_of self.new.journal.events.items)) }
        ensures same { OnErr result (files_of self.new.journal.image.files ≡ files_of self.old.journal.image.files) }
        ensures unkept { OnErr result (self.new.journal.events.items ≡ self.old.journal.events.items) }
        ensures said { self.new.journal.image.said.items ≡ self.old.journal.image.said.items }
        ensures calls { self.new.journal.made ≡ self.old.journal.made }
        ensures plan { self.new.journal.plan ≡ self.old.journal.plan }
        ensures tally { self.new.tally ≡ self.old.tally }
    {
        self.journal.replace(file, bytes)?;
        Ok(())
    }

    /// A fresh site that a stop within a call may leave, the call's own writing included. The call was made.
    ///
    /// What was written since the last sync that succeeded has its old bytes and its old length for pick 0, its new bytes
    /// for pick 1, only the byte 7 for pick 7, and for another pick bytes that are drawn from that seed. Cuts have
    /// happened where the pick is odd. The text is what was printed up to the call's end.
    /// Answers Err where memory is refused, or a write since that sync reaches beyond 2^64 - 1.
    pub fn crash(&self, alloc: Global, call: u64, pick: u64) -> Result<MemSite, Memory>
        requires { (0 < call) × (call ≤ self.now.journal.made) }
        ensures files { IfOk result (λ s. files_of s.journal.image.files ≡ (picked_after pick (through call self.now.journal.events.items)).files) }
        ensures said { IfOk result (λ s. s.journal.image.said.items ≡ (state_of (through call self.now.journal.events.items)).said) }
        ensures may_leave { IfOk result (λ s. MayLeave (state_of (through call self.now.journal.events.items)) (record { files = files_of s.journal.image.files; said = s.journal.image.said.items })) }
        ensures calls { IfOk result (λ s. s.journal.made ≡ 0) }
        ensures fails { IfOk result (λ s. s.journal.plan.fails.items ≡ []) }
        ensures stop { IfOk result (λ s. s.journal.plan.stop ≡ None) }
        ensures refused { IfOk result (λ s. s.tally.refused ≡ 0) }
        ensures given { IfOk result (λ s. s.tally.given ≡ 0) }
    {
        let journal = left_by(alloc, &self.journal, call, pick)?;
        Ok(MemSite {
            journal,
            tally: Tally::new(),
        })
    }
}

/// The files and the text that a stop within a call may leave.
fn left_by(alloc: Global, journal: &Journal, call: u64, pick: u64) -> Result<Journal, AllocError>
    ensures files { IfOk result (λ j. files_of j.image.files ≡ (picked_after pick (through call journal.now.events.items)).files) }
    ensures said { IfOk result (λ j. j.image.said.items ≡ (state_of (through call journal.now.events.items)).said) }
    ensures made { IfOk result (λ j. j.made ≡ 0) }
    ensures fails { IfOk result (λ j. j.plan.fails.items ≡ []) }
    ensures stop { IfOk result (λ j. j.plan.stop ≡ None) }
{
    let upto = end_of(&journal.events, call);
    let events = &journal.events[..upto];
    let synced = last_sync(events);
    let mut image = replay(alloc, &events[..synced])?;
    strike_all(&mut image, events, synced, pick)?;
    journal_of(alloc, image)
}

impl Site for MemSite {
    ghost use Rattle.dms_sitemem.specs.Honest.{counts_since, stays, said_now};

    ghost tells = { true };

    ghost tells_said = { true };

    ghost files = { λ m. files_of m.journal.image.files };

    ghost said = { λ m. m.journal.image.said.items };

    ghost clock = { λ m. clock_of m.journal.events.items };

    ghost same_site = { λ a b. Unit {0} };

    ghost same_again = { λ s. tt };

    ghost same_then = { λ r s t one two. tt };

    ghost disk_faults = { λ m. m.tally.disk_faults };

    ghost say_faults = { λ m. m.tally.say_faults };

    ghost may_stay = { λ m tells. stays m.journal.events.items (files_of m.journal.image.files) m.journal.files_same };

    ghost now_said = { λ m x tells now. said_now m.journal.events.items m.journal.image.said.items m.journal.said_same x now };

    ghost counts_now = { λ m t x le now. counts_since m.journal.events.items t x le now };

    fn length(&mut self, file: u32) -> Result<u64, Failed>
        ensures length { IfOk result (λ n. n ≡ length (files_of self.old.journal.image.files file)) }
        ensures files { files_of self.new.journal.image.files ≡ files_of self.old.journal.image.files }
        ensures said { self.new.journal.image.said.items ≡ self.old.journal.image.said.items }
        ensures same_site { Unit {0} }
        ensures moments { Steps Same (clock_of self.old.journal.events.items) (clock_of self.new.journal.events.items) }
        ensures faults { HasCause self.old.tally.disk_faults self.new.tally.disk_faults result }
        ensures say_faults { self.new.tally.say_faults ≡ self.old.tally.say_faults }
        ensures kept { KeptCall IsLookEvent self.old.journal.events.items self.new.journal.events.items result }
        ensures ends { EndsByPlan self.old.journal.plan self.old.journal.made self.new.journal.made self.old.tally.refused self.new.tally.refused result }
        ensures plan { self.new.journal.plan ≡ self.old.journal.plan }
        ensures given { self.new.tally.given ≡ self.old.tally.given }
    {
        let kept = self.journal.look();
        self.tally.of_disk(kept)?;
        Ok(self.journal.image.bytes(file).len() as u64)
    }

    fn last_present(&mut self, from: u32, upto: u32) -> Result<u32, Failed>
        ensures bound { IfOk result (λ n. 0 < n → (from ≤ n) × (n ≤ upto)) }
        ensures found { IfOk result (λ n. IsLastPresent (files_of self.old.journal.image.files) from upto n) }
        ensures files { files_of self.new.journal.image.files ≡ files_of self.old.journal.image.files }
        ensures said { self.new.journal.image.said.items ≡ self.old.journal.image.said.items }
        ensures same_site { Unit {0} }
        ensures moments { Steps Same (clock_of self.old.journal.events.items) (clock_of self.new.journal.events.items) }
        ensures faults { HasCause self.old.tally.disk_faults self.new.tally.disk_faults result }
        ensures say_faults { self.new.tally.say_faults ≡ self.old.tally.say_faults }
        ensures kept { KeptCall IsLookEvent self.old.journal.events.items self.new.journal.events.items result }
        ensures ends { EndsByPlan self.old.journal.plan self.old.journal.made self.new.journal.made self.old.tally.refused self.new.tally.refused result }
        ensures plan { self.new.journal.plan ≡ self.old.journal.plan }
        ensures given { self.new.tally.given ≡ self.old.tally.given }
    {
        let kept = self.journal.look();
        self.tally.of_disk(kept)?;
        Ok(self.journal.image.last_present(from, upto))
    }

    fn read(&mut self, file: u32, at: u64, into: &mut [u8]) -> Result<usize, Failed>
        requires { at + length into.old < 2 ^ 40 }
        ensures count { IfOk result (λ n. n ≤ length into.old) }
        ensures bytes { IfOk result (λ n. (n ≡ length (range at (length into.old) (files_of self.old.journal.image.files file)))
            × (into.new ≡ range at (length into.old) (files_of self.old.journal.image.files file) ++ drop n into.old)) }
        ensures files { files_of self.new.journal.image.files ≡ files_of self.old.journal.image.files }
        ensures said { self.new.journal.image.said.items ≡ self.old.journal.image.said.items }
        ensures same_site { Unit {0} }
        ensures moments { Steps Same (clock_of self.old.journal.events.items) (clock_of self.new.journal.events.items) }
        ensures faults { HasCause self.old.tally.disk_faults self.new.tally.disk_faults result }
        ensures say_faults { self.new.tally.say_faults ≡ self.old.tally.say_faults }
        ensures kept { KeptCall IsLookEvent self.old.journal.events.items self.new.journal.events.items result }
        ensures ends { EndsByPlan self.old.journal.plan self.old.journal.made self.new.journal.made self.old.tally.refused self.new.tally.refused result }
        ensures plan { self.new.journal.plan ≡ self.old.journal.plan }
        ensures given { IfOk result (λ n. self.new.tally.given ≡ (if nat_lt 30000 file then min (self.old.tally.given + n) (2 ^ 64 - 1) else self.old.tally.given)) }
        ensures none_given { OnErr result (self.new.tally.given ≡ self.old.tally.given) }
    {
        let kept = self.journal.look();
        self.tally.of_disk(kept)?;
        let count = self.journal.image.read(file, at, into);
        self.tally.gave(file, count);
        Ok(count)
    }

    fn write_at(&mut self, file: u32, at: u64, bytes: &[u8]) -> Result<(), Failed>
        requires { at + length bytes.now < 2 ^ 40 }
        ensures written { OnOk result (files_of self.new.journal.image.files ≡ with_file (files_of self.old.journal.image.files) file (overlay_bytes at bytes.now (files_of self.old.journal.image.files file))) }
        ensures torn { InFile file (Torn at (length bytes.now)) (files_of self.old.journal.image.files) (files_of self.new.journal.image.files) }
        ensures said { self.new.journal.image.said.items ≡ self.old.journal.image.said.items }
        ensures same_site { Unit {0} }
        ensures moments { Steps (OnDisk file (Torn at (length bytes.now))) (clock_of self.old.journal.events.items) (clock_of self.new.journal.events.items) }
        ensures faults { HasCause self.old.tally.disk_faults self.new.tally.disk_faults result }
        ensures say_faults { self.new.tally.say_faults ≡ self.old.tally.say_faults }
        ensures kept { KeptCall (IsWrite file at bytes.now) self.old.journal.events.items self.new.journal.events.items result }
        ensures ends { EndsByPlan self.old.journal.plan self.old.journal.made self.new.journal.made self.old.tally.refused self.new.tally.refused result }
        ensures plan { self.new.journal.plan ≡ self.old.journal.plan }
        ensures given { self.new.tally.given ≡ self.old.tally.given }
    {
        let kept = self.journal.write(file, at, bytes);
        self.tally.of_disk(kept)
    }

    fn cut(&mut self, file: u32, len: u64) -> Result<(), Failed>
        ensures cut { OnOk result (files_of self.new.journal.image.files ≡ with_file (files_of self.old.journal.image.files) file (take len (files_of self.old.journal.image.files file))) }
        ensures torn { InFile file (Cut len) (files_of self.old.journal.image.files) (files_of self.new.journal.image.files) }
        ensures said { self.new.journal.image.said.items ≡ self.old.journal.image.said.items }
        ensures same_site { Unit {0} }
        ensures moments { Steps (OnDisk file (Cut len)) (clock_of self.old.journal.events.items) (clock_of self.new.journal.events.items) }
        ensures faults { HasCause self.old.tally.disk_faults self.new.tally.disk_faults result }
        ensures say_faults { self.new.tally.say_faults ≡ self.old.tally.say_faults }
        ensures kept { KeptCall (IsCut file len) self.old.journal.events.items self.new.journal.events.items result }
        ensures ends { EndsByPlan self.old.journal.plan self.old.journal.made self.new.journal.made self.old.tally.refused self.new.tally.refused result }
        ensures plan { self.new.journal.plan ≡ self.old.journal.plan }
        ensures given { self.new.tally.given ≡ self.old.tally.given }
    {
        let kept = self.journal.cut(file, len);
        self.tally.of_disk(kept)
    }

    fn sync(&mut self) -> Result<(), Failed>
        ensures durable { OnOk result (Only (files_of self.old.journal.image.files) (clock_of self.new.journal.events.items)) }
        ensures files { files_of self.new.journal.image.files ≡ files_of self.old.journal.image.files }
        ensures said { self.new.journal.image.said.items ≡ self.old.journal.image.said.items }
        ensures same_site { Unit {0} }
        ensures moments { Steps Same (clock_of self.old.journal.events.items) (clock_of self.new.journal.events.items) }
        ensures faults { HasCause self.old.tally.disk_faults self.new.tally.disk_faults result }
        ensures say_faults { self.new.tally.say_faults ≡ self.old.tally.say_faults }
        ensures kept { KeptCall IsSync self.old.journal.events.items self.new.journal.events.items result }
        ensures ends { EndsByPlan self.old.journal.plan self.old.journal.made self.new.journal.made self.old.tally.refused self.new.tally.refused result }
        ensures plan { self.new.journal.plan ≡ self.old.journal.plan }
        ensures given { self.new.tally.given ≡ self.old.tally.given }
    {
        let kept = self.journal.sync();
        self.tally.of_disk(kept)
    }

    fn say(&mut self, bytes: &[u8]) -> Result<(), Failed>
        ensures said { OnOk result (self.new.journal.image.said.items ≡ self.old.journal.image.said.items ++ bytes.now) }
        ensures some_said { (k : ℕ) × (self.new.journal.image.said.items ≡ self.old.journal.image.said.items ++ take k bytes.now) }
        ensures files { files_of self.new.journal.image.files ≡ files_of self.old.journal.image.files }
        ensures same_site { Unit {0} }
        ensures moments { Steps (PrintsPartOf bytes.now) (clock_of self.old.journal.events.items) (clock_of self.new.journal.events.items) }
        ensures faults { HasCause self.old.tally.say_faults self.new.tally.say_faults result }
        ensures disk_faults { self.new.tally.disk_faults ≡ self.old.tally.disk_faults }
        ensures kept { KeptCall (IsSaying bytes.now) self.old.journal.events.items self.new.journal.events.items result }
        ensures ends { EndsByPlan self.old.journal.plan self.old.journal.made self.new.journal.made self.old.tally.refused self.new.tally.refused result }
        ensures plan { self.new.journal.plan ≡ self.old.journal.plan }
        ensures given { self.new.tally.given ≡ self.old.tally.given }
    {
        let kept = self.journal.say(bytes);
        self.tally.of_say(kept)
    }

    fn show(&mut self, _done: u64, _of: u64)
        ensures same { self.new ≡ self.old }
    {}
}
