ghost use Rattle.std.specs.Prelude.{◌≡◌, OnOk, OnErr};
ghost use Rattle.dms_sitemem.specs.Slots.{files_of};
ghost use Rattle.dms_memcalls.specs.Names.{is_name, leads};
ghost use Rattle.dms_memcalls.specs.Folders.{nothing, with_made, AlikeFolders};
ghost use Rattle.dms_memcalls.specs.Views.{view};
ghost use Rattle.dms_memcalls.specs.Events.{seen_after};

use crate::event::CallEvent;
use dms_sitemem::Image;
use std::alloc::{AllocError, Global};

/// The files of a folder, by numbers from 0 on: the name of each, empty where it has none, and its bytes.
#[derive(Drop)]
pub struct MemDisk {
    pub names: Image,
    /// The bytes, and the text that was printed.
    pub files: Image,
    /// How many files there are.
    pub count: u32,
}

impl MemDisk {
    /// No files and no text.
    pub fn new(alloc: Global) -> MemDisk
        ensures { view result ≡ nothing }
    {
        MemDisk {
            names: Image::new(alloc),
            files: Image::new(alloc),
            count: 0,
        }
    }

    /// Whether a file has this name.
    fn has_name(&self, file: u32, name: &[u8]) -> bool
        ensures { result ≡ is_name (files_of self.now.names.files file) name.now }
    {
        let known = self.names.bytes(file);
        !known.is_empty() && known == name
    }

    /// The file that a name leads to.
    pub fn find(&self, name: &[u8]) -> Option<u32>
        ensures { result ≡ leads self.now.count (files_of self.now.names.files) name.now }
    {
        for file in 0..self.count {
            if self.has_name(file, name) {
                return Some(file);
            }
        }
        None
    }

    /// Adds a file. A want of memory changes nothing.
    pub fn make(&mut self, name: &[u8], bytes: &[u8]) -> Result<(), AllocError>
        ensures made { OnOk result (view self.new ≡ with_made (view self.old) name.now bytes.now) }
        ensures same { OnErr result (AlikeFolders (view self.new) (view self.old)) }
    {
        let Some(count) = self.count.checked_add(1) else {
            return Err(AllocError);
        };
        self.names.set(self.count, name)?;
        self.files.set(self.count, bytes)?;
        self.count = count;
        Ok(())
    }

    /// Does what an event does. A call that failed changes nothing that is seen, but a file that was to be made has none of
    /// the names.
    pub fn apply(&mut self, event: &CallEvent) -> Result<(), AllocError>
        ensures done { OnOk result (view self.new ≡ seen_after event.now (view self.old)) }
        ensures same { OnErr result (AlikeFolders (view self.new) (view self.old)) }
    {
        match event {
            CallEvent::Made(name, true) => self.make(name, &[]),
            CallEvent::Made(_, false) => self.make(&[], &[]),
            CallEvent::Wrote(file, at, bytes, true) => self.files.write(*file, *at, bytes),
            CallEvent::Shortened(file, len, true) => {
                self.files.cut(*file, *len);
                Ok(())
            }
            CallEvent::Lengthened(file, len, true) => self.files.write(*file, *len, &[]),
            CallEvent::Printed(bytes, true) => self.files.say(bytes),
            CallEvent::Found(name, bytes) => self.make(name, bytes),
            CallEvent::Recalled(bytes) => self.files.say(bytes),
            _ => Ok(()),
        }
    }
}
