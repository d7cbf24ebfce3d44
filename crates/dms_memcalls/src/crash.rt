ghost use Rattle.std.specs.Prelude.{◌≡◌, ◌<◌, ◌≤◌, ℕ, length, take, IfOk, OnOk};
ghost use Rattle.dms_site.specs.Files.{Torn, Cut};
ghost use Rattle.dms_sitemem.specs.Slots.{files_of};
ghost use Rattle.dms_memcalls.specs.Folders.{with_bytes, world_of};
ghost use Rattle.dms_memcalls.specs.Views.{view};
ghost use Rattle.dms_memcalls.specs.Events.{seen_after};
ghost use Rattle.dms_memcalls.specs.Outcomes.{past_of, world_now};
ghost use Rattle.dms_memcalls.specs.Strikes.{Added, FileChanged, NamedFile, Strikes, IsLeft, Shows};

use crate::disk::MemDisk;
use crate::event::CallEvent;
use crate::story::Story;
use dms_sitemem::{Fill, Image, fill_of, strike_write};
use std::alloc::{AllocError, Global};

/// A folder as it is seen, and as a stop leaves it by a pick.
#[derive(Drop)]
struct CallStop {
    shown: MemDisk,
    left: MemDisk,
    fill: Fill,
    /// Whether cuts and new lengths have happened, and new names are there.
    odd: bool,
    seed: u64,
}

impl CallStop {
    /// What a stop makes of an event.
    fn strike(&mut self, event: &CallEvent) -> Result<(), AllocError>
        ensures struck { OnOk result (Strikes event.now (view self.old.shown) (view self.old.left) (view self.new.left)) }
        ensures shown { self.new.shown ≡ self.old.shown }
    {
        let left = &mut self.left;
        match event {
            CallEvent::Made(name, _) => strike_name(left, name, self.odd),
            CallEvent::Wrote(file, at, bytes, _) => {
                strike_bytes(left, *file, *at, bytes, self.fill, &mut self.seed)
            }
            CallEvent::Shortened(file, len, _) => {
                strike_cut(left, *file, *len, self.odd);
                Ok(())
            }
            CallEvent::Lengthened(file, len, _) => strike_growth(left, *file, *len, self.odd),
            CallEvent::Synced(file, true) => settle_file(left, *file, &self.shown),
            CallEvent::SyncedNames(true) => settle_names(left, &self.shown),
            _ => left.apply(event),
        }
    }

    /// One more event.
    fn pass(&mut self, event: &CallEvent) -> Result<(), AllocError>
        ensures struck { OnOk result (Strikes event.now (view self.old.shown) (view self.old.left) (view self.new.left)) }
        ensures shown { OnOk result (view self.new.shown ≡ seen_after event.now (view self.old.shown)) }
    {
        self.strike(event)?;
        self.shown.apply(event)
    }
}

/// A made name is there or not.
fn strike_name(left: &mut MemDisk, name: &[u8], odd: bool) -> Result<(), AllocError>
    ensures { OnOk result (Added name.now (view left.old) (view left.new)) }
{
    if odd {
        left.make(name, &[])
    } else {
        left.make(&[], &[])
    }
}

/// Written bytes are there, or the old ones, or others.
fn strike_bytes(
    left: &mut MemDisk,
    file: u32,
    at: u64,
    bytes: &[u8],
    fill: Fill,
    seed: &mut u64,
) -> Result<(), AllocError>
    ensures { OnOk result (FileChanged file (Torn at (length bytes.now)) (view left.old) (view left.new)) }
{
    strike_write(&mut left.files, file, at, bytes, fill, seed)
}

/// A cut happened or not.
fn strike_cut(left: &mut MemDisk, file: u32, len: u64, odd: bool)
    ensures { FileChanged file (Cut len) (view left.old) (view left.new) }
{
    if odd {
        left.files.cut(file, len);
    }
}

/// Zeros were added or not.
fn strike_growth(left: &mut MemDisk, file: u32, len: u64, odd: bool) -> Result<(), AllocError>
    ensures { OnOk result (FileChanged file (Torn len 0) (view left.old) (view left.new)) }
{
    if odd {
        return left.files.write(file, len, &[]);
    }
    Ok(())
}

/// A file is as it is seen.
fn settle_file(left: &mut MemDisk, file: u32, shown: &MemDisk) -> Result<(), AllocError>
    ensures { OnOk result (view left.new ≡ with_bytes (view left.old) file (files_of shown.now.files.files file)) }
{
    left.files.set(file, shown.files.bytes(file))
}

/// The names are as they are seen.
fn settle_names(left: &mut MemDisk, shown: &MemDisk) -> Result<(), AllocError>
    ensures { OnOk result (NamedFile (view shown.now) (view left.old) (view left.new)) }
{
    left.names = names_of(left.names.alloc, shown)?;
    Ok(())
}

/// The names of the files of a disk. Answers Err where memory is refused.
pub fn names_of(alloc: Global, disk: &MemDisk) -> Result<Image, AllocError>
    ensures { IfOk result (λ names. (k : ℕ) → k < disk.now.count → files_of names.files k ≡ files_of disk.now.names.files k) }
{
    let mut names = Image::new(alloc);
    for file in 0..disk.count {
        names.set(file, disk.names.bytes(file))?;
    }
    Ok(names)
}

/// What a stop leaves by a pick after the first of these events, so many of them.
pub fn left_after(
    alloc: Global,
    events: &[CallEvent],
    count: usize,
    pick: u64,
) -> Result<MemDisk, AllocError>
    requires { count ≤ length events.now }
    ensures { IfOk result (λ disk. IsLeft (past_of (take count events.now)) (view disk)) }
{
    let mut stop = CallStop {
        shown: MemDisk::new(alloc),
        left: MemDisk::new(alloc),
        fill: fill_of(pick),
        odd: pick % 2 == 1,
        seed: pick,
    };
    for place in 0..count {
        stop.pass(&events[place])?;
    }
    Ok(stop.left)
}

/// The story of a folder that begins with the files of a disk and its text. Answers Err where memory is refused.
pub fn begin_story(alloc: Global, disk: &MemDisk) -> Result<Story, AllocError>
    ensures { IfOk result (λ story. Shows (world_of (view disk.now)) (world_now story.events.items)) }
{
    let mut story = Story::new(alloc);
    for file in 0..disk.count {
        let name = disk.names.bytes(file).to_vec(alloc)?;
        let bytes = disk.files.bytes(file).to_vec(alloc)?;
        story.keep(CallEvent::Found(name, bytes))?;
    }
    let said = disk.files.said.as_slice().to_vec(alloc)?;
    story.keep(CallEvent::Recalled(said))?;
    Ok(story)
}
