ghost use Rattle.std.specs.Prelude.{◌≡◌, ◌≢◌, ◌<◌, ◌≤◌, ℕ, [], IfOk, MatchOption};
ghost use Rattle.dms_sitemem.specs.Slots.{files_of};
ghost use Rattle.dms_memcalls.specs.Listings.{given_to};

use crate::crash::names_of;
use crate::disk::MemDisk;
use dms_sitemem::Image;
use std::alloc::{AllocError, Global};

/// A listing of a folder in memory: the names when it began, and how many of its files were passed.
#[derive(Drop)]
pub struct MemListing {
    pub(crate) names: Image,
    pub(crate) count: u32,
    pub(crate) place: u32,
    ghost within: { place ≤ count },
}

impl MemListing {
    /// A listing that has given no name.
    pub(crate) fn new(alloc: Global, disk: &MemDisk) -> Result<MemListing, AllocError>
        ensures place { IfOk result (λ l. l.place ≡ 0) }
        ensures count { IfOk result (λ l. l.count ≡ disk.now.count) }
        ensures names { IfOk result (λ l. (k : ℕ) → k < disk.now.count → files_of l.names.files k ≡ files_of disk.now.names.files k) }
    {
        Ok(MemListing {
            names: names_of(alloc, disk)?,
            count: disk.count,
            place: 0,
        })
    }

    /// The next file that has a name.
    pub(crate) fn upcoming(&self) -> Option<u32>
        ensures { let names = files_of self.now.names.files in MatchOption result
            (given_to self.now.count names ≡ given_to self.now.place names)
            (λ p. (p < self.now.count) × (names p ≢ []) × (given_to p names ≡ given_to self.now.place names)) }
    {
        for place in self.place..self.count {
            if !self.names.bytes(place).is_empty() {
                return Some(place);
            }
        }
        None
    }
}
