//! The blocks with an Image since the last Control, and where that stands.

ghost use Rattle.std.specs.Prelude.{◌≡◌, ◌≤◌, ◌<◌, ◌+◌, true, OnOk};
ghost use Rattle.dms_wal.specs.ImagedSets.{AddsImage, has_block, HasNone, room_of, SameImages};

use dms_base::Memory;
use dms_block::BlockId;
use dms_pool::FrameKey;
use dms_restore::AuditBlock;
use std::alloc::Global;
use std::collections::HashSet;

/// The blocks with an Image since the last Control, where that stands, and whether each block was there as at its point. Nothing is promised
/// of the place: who reads there looks whether it is right.
#[derive(Drop)]
pub struct ImagedBlocks {
    pub keys: HashSet<FrameKey>,
    /// The block of the audit with the last Control.
    pub control: AuditBlock,
    /// The number of that Control.
    pub number: u64,
    /// Whether each block was there as at the point of that number.
    pub at_point: bool,
}

impl ImagedBlocks {
    /// No block, behind a Control of this number, where each block was as at the point of that number.
    pub fn new(alloc: Global, control: AuditBlock, number: u64) -> ImagedBlocks
        ensures none { HasNone result }
        ensures control { (result.number ≡ number) × (result.at_point ≡ true) }
    {
        ImagedBlocks {
            keys: HashSet::new(alloc),
            control,
            number,
            at_point: true,
        }
    }

    /// Whether each block was at the last Control as at the point of this number.
    pub fn is_at(&self, number: u64) -> bool
        ensures { result ≡ true → (self.now.at_point ≡ true) × (self.now.number ≡ number) }
    {
        self.at_point && self.number == number
    }

    /// Whether a block is among them.
    pub fn has(&self, id: BlockId) -> bool
        ensures { result ≡ has_block self.now id.file id.block }
    {
        self.keys.contains(&FrameKey::of(id))
    }

    /// Makes room for so many blocks more. Want of memory is its only error.
    pub fn reserve(&mut self, more: usize) -> Result<(), Memory>
        ensures same { SameImages self.old self.new }
        ensures room { OnOk result (more ≤ room_of self.new) }
    {
        self.keys.reserve(more)?;
        Ok(())
    }

    /// Adds a block, for which there is room.
    pub fn add(&mut self, id: BlockId)
        requires { 0 < room_of self.old }
        ensures added { AddsImage id.file id.block self.old self.new }
        ensures room { room_of self.old ≤ room_of self.new + 1 }
    {
        let _added = self.keys.insert(FrameKey::of(id));
    }

    /// Leaves no block, behind a Control of this number, where each block was as at the point of that number or was not.
    pub fn clear(&mut self, control: AuditBlock, number: u64, at_point: bool)
        ensures none { HasNone self.new }
        ensures control { (self.new.number ≡ number) × (self.new.at_point ≡ at_point) }
    {
        self.keys.clear();
        self.control = control;
        self.number = number;
        self.at_point = at_point;
    }
}
