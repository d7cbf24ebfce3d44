ghost use Rattle.std.specs.Prelude.{◌≡◌, ◌+◌, ◌<◌, ◌≤◌, [], ◌∷◌, ◌++◌, true, false, length, take, IfOk, OnOk, IsTrue, option_map};
ghost use Rattle.std.proofs.Common.{refl};
ghost use Rattle.dms_moments.specs.Moments.{Steps};
ghost use Rattle.dms_sitemem.specs.Slots.{files_of};
ghost use Rattle.dms_calls.specs.World.{World, Unchanged};
ghost use Rattle.dms_memcalls.specs.Names.{leads};
ghost use Rattle.dms_memcalls.specs.Listings.{given_to};
ghost use Rattle.dms_memcalls.specs.Outcomes.{WorldMayBeLeft, past_of, seen_now, world_now, clock_of};
ghost use Rattle.dms_memcalls.specs.Strikes.{Shows};
ghost use Rattle.dms_memcalls.specs.Steady.{IsUpToOneMore, stays_now, fits_now, counts_since};

use crate::crash::{begin_story, left_after};
use crate::event::CallEvent;
use crate::listing::MemListing;
use crate::story::Story;
use dms_base::Memory;
use dms_calls::Calls;
use dms_site::Failed;
use std::alloc::Global;

/// An open file of a folder in memory.
#[derive(Drop)]
pub struct MemHandle {
    file: u32,
}

/// A folder and an output in memory. They tell everything, and keep all that was done to them.
///
/// Calls are numbered from 1 over all kinds. A call that finds no memory fails and gets no number.
#[derive(Drop)]
pub struct MemCalls {
    story: Story,
    /// So many of the events, the first ones, are no calls.
    found: usize,
    fails: Vec<usize>,
    broken: bool,
    ghost within: { found ≤ length story.events.items },
}

impl MemCalls {
    /// A folder with no files, and no text. The calls whose numbers are listed fail.
    pub fn new(alloc: Global, fails: Vec<usize>) -> MemCalls
        ensures events { result.story.events.items ≡ [] }
        ensures found { result.found ≡ 0 }
        ensures fails { result.fails.items ≡ fails.items }
        ensures whole { result.broken ≡ false }
    {
        MemCalls {
            story: Story::new(alloc),
            found: 0,
            fails,
            broken: false,
        }
    }

    /// How many calls were made.
    pub fn calls(&self) -> usize
        ensures { self.now.found + result ≡ length self.now.story.events.items }
    {
        self.story.events.len() - self.found
    }

    /// The bytes of the file of this name, None where there is none.
    pub fn bytes(&self, name: &[u8]) -> Option<&[u8]>
        ensures { let w = world_now self.now.story.events.items in option_map (λ b. b.now) result ≡ option_map w.bytes (w.names name.now) }
    {
        match self.story.find(name) {
            None => None,
            Some(file) => Some(self.story.bytes(file)),
        }
    }

    /// The text that was printed so far.
    pub fn text(&self) -> &[u8]
        ensures { result.now ≡ (world_now self.now.story.events.items).said }
    {
        self.story.text()
    }

    /// A fresh folder that a stop within a call may leave, the call's own work included. The call was made.
    ///
    /// What was written since the file's last fsync has its old bytes and its old length for pick 0, its new bytes for pick 1,
    /// only the byte 7 for pick 7, and for another pick bytes that are drawn from that seed. Cuts and new lengths have
    /// happened, and names that were made since the folder's last fsync are there, where the pick is odd. The text is what
    /// was printed up to the call's end. Answers Err where memory is refused, or a write up to the call's end reaches beyond 2^64 - 1.
    pub fn crash(&self, alloc: Global, call: usize, pick: u64) -> Result<MemCalls, Memory>
        requires { self.now.found + call ≤ length self.now.story.events.items }
        ensures left { IfOk result (λ s. (w : World) × WorldMayBeLeft (past_of (take (self.now.found + call) self.now.story.events.items)) w
            × Shows w (world_now s.story.events.items)) }
    {
        let left = left_after(alloc, &self.story.events, self.found + call, pick)?;
        let story = begin_story(alloc, &left)?;
        let found = story.events.len();
        Ok(MemCalls {
            story,
            found,
            fails: Vec::new(alloc),
            broken: false,
        })
    }

    /// Whether the next call is to succeed.
    fn succeeds(&self) -> bool {
        !self.fails.contains(&(self.calls() + 1))
    }

    /// Keeps a call with its success, and ends as it did.
    fn keep(&mut self, event: CallEvent, done: bool) -> Result<(), Failed>
        ensures grew { IsUpToOneMore self.old.story.events.items event self.new.story.events.items }
        ensures kept { OnOk result (IsTrue done × (self.new.story.events.items ≡ self.old.story.events.items ++ event ∷ [])) }
        ensures broken { self.new.broken ≡ self.old.broken }
    {
        if self.story.keep(event).is_err() {
            return Err(Failed);
        }
        if done { Ok(()) } else { Err(Failed) }
    }

    /// Keeps a call on the files with its success, and ends as it did.
    fn keep_disk(&mut self, event: CallEvent, done: bool) -> Result<(), Failed>
        ensures grew { IsUpToOneMore self.old.story.events.items event self.new.story.events.items }
        ensures kept { OnOk result (IsTrue done × (self.new.story.events.items ≡ self.old.story.events.items ++ event ∷ [])) }
        ensures broken { OnOk result (self.new.broken ≡ self.old.broken) }
    {
        match self.keep(event, done) {
            Ok(()) => Ok(()),
            Err(_) => Err(self.fail()),
        }
    }

    /// Keeps that a call on the files failed.
    fn fail(&mut self) -> Failed
        ensures events { self.new.story.events.items ≡ self.old.story.events.items }
    {
        self.broken = true;
        Failed
    }

    /// Keeps a call that looks.
    fn look(&mut self) -> Result<(), Failed>
        ensures seen { seen_now self.new.story.events.items ≡ seen_now self.old.story.events.items }
        ensures moments { Steps Unchanged (clock_of self.old.story.events.items) (clock_of self.new.story.events.items) }
        ensures broken { OnOk result (self.new.broken ≡ self.old.broken) }
    {
        let done = self.succeeds();
        self.keep_disk(CallEvent::Looked(done), done)
    }
}

impl Calls for MemCalls {
    type Handle = MemHandle;

    type Listing = MemListing;

    ghost tells = { true };

    ghost file = { λ h. h.file };

    ghost given = { λ l. given_to l.place (files_of l.names.files) };

    ghost listed = { λ l m. leads l.count (files_of l.names.files) m };

    ghost world = { λ s. world_now s.story.events.items };

    ghost clock = { λ s. clock_of s.story.events.items };

    ghost broken = { λ s. s.broken };

    ghost may_stay = { λ s tells. stays_now s.story.events.items };

    ghost told = { λ s w now. refl };

    ghost now_said = { λ s w now. (fits_now s.story.events.items w now).said };

    ghost counts_now = { λ s t w le now. counts_since s.story.events.items t w le now };

    ghost one_name = { λ s w m n i now is here. (fits_now s.story.events.items w now).one_name m n i is here };

    fn open(&mut self, name: &str) -> Result<Option<MemHandle>, Failed> {
        self.look()?;
        match self.story.find(name.as_bytes()) {
            None => Ok(None),
            Some(file) => Ok(Some(MemHandle { file })),
        }
    }

    fn create(&mut self, name: &str) -> Result<MemHandle, Failed> {
        let Ok(copy) = name.as_bytes().to_vec(self.story.disk.files.alloc) else {
            return Err(self.fail());
        };
        let file = self.story.disk.count;
        let done = self.succeeds();
        match self.keep_disk(CallEvent::Made(copy, done), done) {
            Ok(()) => Ok(MemHandle { file }),
            Err(_) => Err(Failed),
        }
    }

    fn size(&mut self, handle: &MemHandle) -> Result<u64, Failed> {
        self.look()?;
        Ok(self.story.bytes(handle.file).len() as u64)
    }

    fn pread(&mut self, handle: &MemHandle, at: u64, into: &mut [u8]) -> Result<usize, Failed> {
        self.look()?;
        Ok(self.story.disk.files.read(handle.file, at, into))
    }

    fn pwrite(&mut self, handle: &MemHandle, at: u64, bytes: &[u8]) -> Result<usize, Failed> {
        let Ok(copy) = bytes.to_vec(self.story.disk.files.alloc) else {
            return Err(self.fail());
        };
        let done = self.succeeds();
        self.keep_disk(CallEvent::Wrote(handle.file, at, copy, done), done)?;
        Ok(bytes.len())
    }

    fn ftruncate(&mut self, handle: &MemHandle, len: u64) -> Result<(), Failed> {
        let size = self.story.bytes(handle.file).len() as u64;
        let done = self.succeeds();
        if len < size {
            return self.keep_disk(CallEvent::Shortened(handle.file, len, done), done);
        }
        if size < len {
            return self.keep_disk(CallEvent::Lengthened(handle.file, len, done), done);
        }
        self.keep_disk(CallEvent::Looked(done), done)
    }

    fn fsync(&mut self, handle: &MemHandle) -> Result<(), Failed> {
        let done = self.succeeds();
        self.keep_disk(CallEvent::Synced(handle.file, done), done)
    }

    fn fsync_folder(&mut self) -> Result<(), Failed> {
        let done = self.succeeds();
        self.keep_disk(CallEvent::SyncedNames(done), done)
    }

    fn list(&mut self) -> Result<MemListing, Failed> {
        self.look()?;
        match MemListing::new(self.story.disk.files.alloc, &self.story.disk) {
            Ok(listing) => Ok(listing),
            Err(_) => Err(self.fail()),
        }
    }

    fn next_name(&mut self, listing: &mut MemListing, into: &mut [u8]) -> Result<usize, Failed> {
        self.look()?;
        let Some(place) = listing.upcoming() else {
            return Ok(0);
        };
        let name = listing.names.bytes(place);
        let count = name.len();
        if count > into.len() {
            return Err(self.fail());
        }
        into[..count].copy_from_slice(name);
        listing.place = place + 1;
        Ok(count)
    }

    fn print(&mut self, bytes: &[u8]) -> Result<usize, Failed> {
        let Ok(copy) = bytes.to_vec(self.story.disk.files.alloc) else {
            return Err(Failed);
        };
        let done = self.succeeds();
        self.keep(CallEvent::Printed(copy, done), done)?;
        Ok(bytes.len())
    }

    fn show(&mut self, _done: u64, _of: u64) {}
}
