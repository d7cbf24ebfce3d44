ghost use Rattle.std.specs.List.{IsDistinct-prop};
ghost use Rattle.std.proofs.Props.{props};
ghost use Rattle.dms_pool.specs.Entries.{IsSoundPool};

use crate::{BufferFrame, FrameKey};
use dms_base::Memory;
use dms_block::{Block, BlockId};
use lru::LruCache;
use std::alloc::Global;
use std::num::NonZeroUsize;

/// At most so many blocks in memory. None is held twice.
#[derive(Drop)]
pub struct Pool {
    pub frames: LruCache<FrameKey, BufferFrame>,
    pub ghost sound: { IsSoundPool frames } by { Prim.hlevel (props, IsDistinct-prop) },
}

impl Pool {
    ghost use Rattle.std.specs.Prelude.{◌≡◌, ◌<◌, [], IfNone, IfOk, IfSome, IsOk, IsSome, OnErr, OnOk, false, find, length, nat_lt, option_map, reverse, true};
    ghost use Rattle.dms_pool.specs.Calls.{Cleans, GivesUp, HasFrameFor, IsEmpty, FrameUsed, PutsFrame, SamePool};
    ghost use Rattle.dms_pool.specs.Held.{frame_of, as_frame, is_dirty, most, order};

    /// A pool for so many blocks, of which none is held yet. The table takes its memory here, and a frame when its block
    /// is put.
    pub fn new(alloc: Global, frames: u32) -> Result<Pool, Memory>
        requires { 0 < frames }
        ensures { IfOk result (IsEmpty frames) }
    {
        match NonZeroUsize::new(frames as usize) {
            None => Err(Memory),
            Some(most) => Ok(Pool {
                frames: LruCache::new(alloc, most)?,
            }),
        }
    }

    /// The block, where it is held. It is then the most recently used.
    pub fn get(&mut self, id: BlockId) -> Option<Block>
        ensures value { result ≡ option_map (λ f. f.block) (frame_of id self.old) }
        ensures looked { FrameUsed id self.old self.new }
    {
        let key = FrameKey::of(id);
        let found = self.frames.peek(&key).map(|frame| frame.block);
        let _was_held = self.frames.promote(&key);
        found
    }

    /// The block, where it is held. That doesn't count as a use.
    pub fn peek(&self, id: BlockId) -> Option<Block>
        ensures { result ≡ option_map (λ f. f.block) (frame_of id self.now) }
    {
        self.frames.peek(&FrameKey::of(id)).map(|frame| frame.block)
    }

    /// Holds a block, in place of what was held of it. It is then the most recently used. Fails only for a block that
    /// wasn't held, and then changes nothing. Want of memory is its only error.
    pub fn put(&mut self, id: BlockId, block: &Block, dirty: bool) -> Result<(), Memory>
        requires { HasFrameFor id self.old }
        ensures ok { OnOk result (PutsFrame id (as_frame block.now dirty) self.old self.new) }
        ensures err { OnErr result (SamePool self.old self.new) }
        ensures again { IsSome (frame_of id self.old) → IsOk result }
    {
        let frame = BufferFrame {
            block: *block,
            dirty,
        };
        self.frames.put(FrameKey::of(id), frame)?;
        Ok(())
    }

    /// Gives up the least recently used block, and says whether it is still to be written.
    pub fn evict(&mut self) -> Option<(BlockId, Block, bool)>
        ensures gives { IfSome result (λ e. GivesUp e.0 (as_frame e.1 e.2) self.old self.new) }
        ensures none { IfNone result ((order self.old ≡ []) × SamePool self.old self.new) }
    {
        let (key, frame) = self.frames.pop_lru()?;
        Some((key.id(), frame.block, frame.dirty))
    }

    /// Gives up all blocks, also those that are still to be written.
    pub fn clear(&mut self)
        ensures { IsEmpty (most self.old) self.new }
    {
        self.frames.clear();
    }

    /// Of the blocks that are to be written, the most recently used.
    pub fn dirty(&self) -> Option<BlockId>
        ensures which { result ≡ find (λ id. is_dirty id self.now) (reverse (order self.now)) }
        ensures found { IfSome result (λ id. is_dirty id self.now ≡ true) }
        ensures none { IfNone result ((id : _) → is_dirty id self.now ≡ false) }
    {
        for (key, frame) in self.frames.iter() {
            if frame.dirty {
                return Some(key.id());
            }
        }
        None
    }

    /// Says that a block was written. That doesn't count as a use.
    pub fn clean(&mut self, id: BlockId)
        ensures { Cleans id self.old self.new }
    {
        if let Some(frame) = self.frames.peek_mut(&FrameKey::of(id)) {
            frame.dirty = false;
        }
    }

    /// Whether one more block can be held.
    pub fn room(&self) -> bool
        ensures { result ≡ nat_lt (length (order self.now)) (most self.now) }
    {
        self.frames.len() < self.frames.cap().get()
    }
}
