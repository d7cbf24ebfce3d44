ghost use Rattle.std.specs.Prelude.{◌≡◌, ◌+◌, ◌<◌, ◌≤◌, ℕ, List, [], ◌++◌, length, vec_len, take, drop, OnOk, OnErr, IsSome, if◌then◌else◌, ◌==◌};
ghost use Rattle.std.specs.Ordering.{nat_cmp};
ghost use Rattle.std.specs.BTreeMap.{get};
ghost use Rattle.dms_site.specs.Files.{with_file, range, pad_zeros, overlay_bytes, IsLastPresent};
ghost use Rattle.dms_sitemem.specs.Slots.{files_of};
ghost use Rattle.dms_sitemem.specs.Events.{files_after, said_after};

use crate::event::SiteEvent;
use std::alloc::{AllocError, Global};
use std::collections::BTreeMap;

/// Files and text.
#[derive(Drop)]
pub struct Image {
    pub alloc: Global,
    pub files: BTreeMap<u32, Vec<u8>>,
    pub said: Vec<u8>,
}

/// Puts bytes over others.
#[tactic(auto, using(std::proofs::lemmas::Grind::common_steps))]
fn lay_over(file: &mut Vec<u8>, at: usize, bytes: &[u8])
    requires { at + length bytes.now ≤ vec_len file.old }
    ensures { file.new.items ≡ take at file.old.items ++ bytes.now ++ drop (at + length bytes.now) file.old.items }
{
    file[at..at + bytes.len()].copy_from_slice(bytes);
}

/// Adds zeros up to a length.
#[tactic(auto, using(std::proofs::lemmas::Grind::common_steps), unfolding(dms_site::specs::Files::pad_zeros))]
fn grow(file: &mut Vec<u8>, len: usize) -> Result<(), AllocError>
    ensures grown { OnOk result (file.new.items ≡ pad_zeros file.old.items len) }
    ensures long { OnOk result (len ≤ vec_len file.new) }
    ensures same { OnErr result (file.new.items ≡ file.old.items) }
{
    if file.len() < len {
        file.resize(len, 0)?;
    }
    Ok(())
}

/// Puts bytes over what is there, with zeros in a gap.
#[tactic(auto, using(crate::proofs::Laid::laid_padded))]
fn lay(file: &mut Vec<u8>, at: usize, bytes: &[u8]) -> Result<(), AllocError>
    ensures laid { OnOk result (file.new.items ≡ overlay_bytes at bytes.now file.old.items) }
    ensures same { OnErr result (file.new.items ≡ file.old.items) }
{
    let Some(end) = at.checked_add(bytes.len()) else {
        return Err(AllocError);
    };
    grow(file, end)?;
    lay_over(file, at, bytes);
    Ok(())
}

impl Image {
    /// No files and no text.
    pub fn new(alloc: Global) -> Image
        ensures files { files_of result.files ≡ (λ f. []) }
        ensures said { result.said.items ≡ [] }
    {
        Image {
            alloc,
            files: BTreeMap::new(alloc),
            said: Vec::new(alloc),
        }
    }

    /// The bytes of a file.
    pub fn bytes(&self, file: u32) -> &[u8]
        ensures { result.now ≡ files_of self.now.files file }
    {
        match self.files.get(&file) {
            Some(bytes) => bytes.as_slice(),
            None => &[],
        }
    }

    /// Gives a file an entry.
    fn ensure_entry(&mut self, file: u32) -> Result<(), AllocError>
        ensures same { (f : ℕ) → files_of self.new.files f ≡ files_of self.old.files f }
        ensures present { OnOk result (IsSome (get nat_cmp self.new.files file)) }
        ensures said { self.new.said.items ≡ self.old.said.items }
    {
        if !self.files.contains_key(&file) {
            self.files.insert(file, Vec::new(self.alloc))?;
        }
        Ok(())
    }

    /// Writes over a file that has an entry.
    fn lay_in(&mut self, file: u32, at: usize, bytes: &[u8]) -> Result<(), AllocError>
        requires { IsSome (get nat_cmp self.old.files file) }
        ensures laid { OnOk result ((f : ℕ) → files_of self.new.files f ≡ (if f == file then overlay_bytes at bytes.now (files_of self.old.files file) else files_of self.old.files f)) }
        ensures same { OnErr result ((f : ℕ) → files_of self.new.files f ≡ files_of self.old.files f) }
        ensures said { self.new.said.items ≡ self.old.said.items }
    {
        match self.files.get_mut(&file) {
            Some(place) => lay(place, at, bytes),
            None => Ok(()),
        }
    }

    /// Cuts a file that may have an entry.
    fn cut_in(&mut self, file: u32, len: usize)
        ensures cut { (f : ℕ) → files_of self.new.files f ≡ (if f == file then take len (files_of self.old.files file) else files_of self.old.files f) }
        ensures said { self.new.said.items ≡ self.old.said.items }
    {
        if let Some(place) = self.files.get_mut(&file) {
            place.truncate(len);
        }
    }

    /// Puts a file in.
    fn set_in(&mut self, file: u32, bytes: Vec<u8>) -> Result<(), AllocError>
        ensures set { OnOk result ((f : ℕ) → files_of self.new.files f ≡ (if f == file then bytes.items else files_of self.old.files f)) }
        ensures same { OnErr result ((f : ℕ) → files_of self.new.files f ≡ files_of self.old.files f) }
        ensures said { self.new.said.items ≡ self.old.said.items }
    {
        self.files.insert(file, bytes)?;
        Ok(())
    }

    /// Writes bytes from a position on. A gap before them is filled with zeros.
    /// Answers Err where memory is refused, or the bytes reach beyond 2^64 - 1.
    pub fn write(&mut self, file: u32, at: u64, bytes: &[u8]) -> Result<(), AllocError>
        ensures written { OnOk result (files_of self.new.files ≡ with_file (files_of self.old.files) file (overlay_bytes at bytes.now (files_of self.old.files file))) }
        ensures same { OnErr result (files_of self.new.files ≡ files_of self.old.files) }
        ensures said { self.new.said.items ≡ self.old.said.items }
    {
        self.ensure_entry(file)?;
        self.lay_in(file, at as usize, bytes)
    }

    /// Cuts a file to a length.
    pub fn cut(&mut self, file: u32, len: u64)
        ensures cut { files_of self.new.files ≡ with_file (files_of self.old.files) file (take len (files_of self.old.files file)) }
        ensures said { self.new.said.items ≡ self.old.said.items }
    {
        self.cut_in(file, len as usize);
    }

    /// Gives a file these bytes and no others. Answers Err where memory is refused.
    pub fn set(&mut self, file: u32, bytes: &[u8]) -> Result<(), AllocError>
        ensures set { OnOk result (files_of self.new.files ≡ with_file (files_of self.old.files) file bytes.now) }
        ensures same { OnErr result (files_of self.new.files ≡ files_of self.old.files) }
        ensures said { self.new.said.items ≡ self.old.said.items }
    {
        let kept = bytes.to_vec(self.alloc)?;
        self.set_in(file, kept)
    }

    /// Adds text. Answers Err where memory is refused.
    pub fn say(&mut self, bytes: &[u8]) -> Result<(), AllocError>
        ensures said { OnOk result (self.new.said.items ≡ self.old.said.items ++ bytes.now) }
        ensures unsaid { OnErr result (self.new.said.items ≡ self.old.said.items) }
        ensures files { files_of self.new.files ≡ files_of self.old.files }
    {
        self.said.extend_from_slice(bytes)
    }

    /// Does what an event does. A call that failed changes nothing that is read.
    pub(crate) fn apply(&mut self, event: &SiteEvent) -> Result<(), AllocError>
        ensures files { OnOk result (files_of self.new.files ≡ files_after event.now (files_of self.old.files)) }
        ensures said { OnOk result (self.new.said.items ≡ said_after event.now self.old.said.items) }
        ensures same { OnErr result (files_of self.new.files ≡ files_of self.old.files) }
        ensures unsaid { OnErr result (self.new.said.items ≡ self.old.said.items) }
    {
        match event {
            SiteEvent::Wrote(file, at, bytes, true) => self.write(*file, *at, bytes),
            SiteEvent::Shortened(file, len, true) => {
                self.cut(*file, *len);
                Ok(())
            }
            SiteEvent::Said(bytes, true) => self.say(bytes),
            SiteEvent::Replaced(file, bytes) => self.set(*file, bytes),
            SiteEvent::Recalled(bytes) => self.say(bytes),
            _ => Ok(()),
        }
    }

    /// The greatest number of a file that isn't empty from `from` to `upto`, or 0.
    pub fn last_present(&self, from: u32, upto: u32) -> u32
        ensures { IsLastPresent (files_of self.now.files) from upto result }
    {
        let mut last = 0;
        for file in from..=upto {
            if !self.bytes(file).is_empty() {
                last = file;
            }
        }
        last
    }

    /// Reads from a position on, and answers how many bytes it gave.
    #[tactic(auto, using(std::proofs::lemmas::List::places), unfolding(dms_site::specs::Files::range))]
    pub fn read(&self, file: u32, at: u64, into: &mut [u8]) -> usize
        ensures count { result ≡ length (range at (length into.old) (files_of self.now.files file)) }
        ensures room { result ≤ length into.old }
        ensures bytes { into.new ≡ range at (length into.old) (files_of self.now.files file) ++ drop result into.old }
    {
        let bytes = self.bytes(file);
        let start = (at as usize).min(bytes.len());
        let count = (bytes.len() - start).min(into.len());
        into[..count].copy_from_slice(&bytes[start..start + count]);
        count
    }
}
