ghost use Rattle.std.specs.Prelude.{◌≡◌, [], ◌∷◌, ◌++◌, OnOk, OnErr};
ghost use Rattle.dms_memcalls.specs.Folders.{AlikeFolders};
ghost use Rattle.dms_memcalls.specs.Views.{view};
ghost use Rattle.dms_memcalls.specs.Outcomes.{seen_now, world_now};

use crate::disk::MemDisk;
use crate::event::CallEvent;
use std::alloc::{AllocError, Global};

/// All that was done to a folder, and what it made of it. A want of memory changes nothing.
#[derive(Drop)]
pub struct Story {
    pub disk: MemDisk,
    pub events: Vec<CallEvent>,
    ghost alike: { AlikeFolders (view disk) (seen_now events.items) },
}

impl Story {
    /// Nothing was done.
    pub fn new(alloc: Global) -> Story
        ensures { result.events.items ≡ [] }
    {
        Story {
            disk: MemDisk::new(alloc),
            events: Vec::new(alloc),
        }
    }

    /// Keeps an event and does it. Answers Err where memory is refused, a write that is done reaches beyond 2^64 - 1, or the files would be 2^32.
    pub fn keep(&mut self, event: CallEvent) -> Result<(), AllocError>
        ensures kept { OnOk result (self.new.events.items ≡ self.old.events.items ++ event ∷ []) }
        ensures unkept { OnErr result (self.new.events.items ≡ self.old.events.items) }
    {
        self.events.reserve(1)?;
        self.disk.apply(&event)?;
        self.events.push(event)?;
        Ok(())
    }

    /// The file that a name leads to.
    pub fn find(&self, name: &[u8]) -> Option<u32>
        ensures { result ≡ (world_now self.now.events.items).names name.now }
    {
        self.disk.find(name)
    }

    /// The bytes of a file.
    pub fn bytes(&self, file: u32) -> &[u8]
        ensures { result.now ≡ (world_now self.now.events.items).bytes file }
    {
        self.disk.files.bytes(file)
    }

    /// The text that was printed.
    pub fn text(&self) -> &[u8]
        ensures { result.now ≡ (world_now self.now.events.items).said }
    {
        self.disk.files.said.as_slice()
    }
}
