ghost use Rattle.std.specs.Prelude.{◌≡◌, ◌+◌, ◌*◌, ◌≤◌, [], ◌∷◌, IfOk, length, take, drop, option_map, Some};
ghost use Rattle.std.specs.Int.{w16, w32, from_be_bytes};
ghost use Rattle.std.specs.Str.{bytes_eq};
ghost use Rattle.dms_chain.specs.ListBlocks.{entry_chunks, flat, free_bytes, free_in, head_bytes, head_in, leaf_bytes, leaf_in};
ghost use Rattle.dms_chain.specs.InPlace.{is_laid_to};
ghost use Rattle.dms_chain.specs.Spelled.{leaf_opt};

use crate::order::is_rising;
use dms_base::{Bytes, Memory};
use dms_block::Block;
use dms_fields::{put_bytes, put_u8, put_u16, put_u32};
use std::alloc::Global;

/// The head of a list: the number of the first block of entries and that of the first free one, 0 for none.
#[derive(Clone, Copy)]
pub struct ListHead {
    pub first: u32,
    pub free: u32,
}

/// A block of the list: the number of the next one, 0 for none, and its entries.
#[derive(Drop)]
pub struct LeafBlock {
    pub next: u32,
    pub entries: Vec<Bytes>,
}

pub fn u16_in(block: &Block, at: usize) -> u16
    requires { at + 2 ≤ 1024 }
    ensures { result ≡ from_be_bytes w16 (take 2 (drop at block.now.0)) }
{
    let field = &block.0[at..at + 2];
    u16::from_be_bytes([field[0], field[1]])
}

pub fn u32_in(block: &Block, at: usize) -> u32
    requires { at + 4 ≤ 1024 }
    ensures { result ≡ from_be_bytes w32 (take 4 (drop at block.now.0)) }
{
    let field = &block.0[at..at + 4];
    u32::from_be_bytes([field[0], field[1], field[2], field[3]])
}

/// The block of a head.
pub fn head_block(head: ListHead) -> Block
    ensures { result.0 ≡ head_bytes head.first head.free }
{
    let mut block = [0; 1024];
    put_u8(&mut block, 0, 3);
    put_u8(&mut block, 1, 2);
    put_u32(&mut block, 2, head.first);
    put_u32(&mut block, 6, head.free);
    Block(block)
}

/// A free block, before this one.
pub fn free_block(next: u32) -> Block
    ensures { result.0 ≡ free_bytes next }
{
    let mut block = [0; 1024];
    put_u8(&mut block, 0, 0);
    put_u32(&mut block, 1, next);
    Block(block)
}

/// The head that a block spells; none where it is no head.
pub fn head_of(block: &Block) -> Option<ListHead>
    ensures { option_map (λ h. (h.first, h.free)) result ≡ head_in block.now.0 }
{
    let head = ListHead {
        first: u32_in(block, 2),
        free: u32_in(block, 6),
    };
    if *block != head_block(head) {
        return None;
    }
    Some(head)
}

/// The number that a free block spells; none where it is no free block.
pub fn free_of(block: &Block) -> Option<u32>
    ensures { option_map (λ n. (n, tt)) result ≡ free_in block.now.0 }
{
    let next = u32_in(block, 1);
    if *block != free_block(next) {
        return None;
    }
    Some(next)
}

/// The block of entries. They are at most 1,017 and fit behind the block's first seven bytes.
pub fn leaf_block(leaf: &LeafBlock) -> Block
    requires count { length leaf.now.entries.items ≤ 1017 }
    requires room { length (flat leaf.now.entries.items) ≤ 1017 }
    ensures { result.0 ≡ leaf_bytes leaf.now.next leaf.now.entries.items }
{
    let mut block = [0; 1024];
    put_u8(&mut block, 0, 1);
    put_u16(&mut block, 1, leaf.entries.len() as u16);
    put_u32(&mut block, 3, leaf.next);
    let mut at = 7;
    for entry in &leaf.entries {
        put_bytes(&mut block, at, entry.as_slice());
        at += entry.as_slice().len();
    }
    Block(block)
}

/// The bytes of a block behind the first seven.
fn entries_in(block: &Block) -> &[u8]
    ensures bytes { result.now ≡ drop 7 block.now.0 }
    ensures long { length result.now ≡ 1017 }
{
    let bytes: &[u8] = &block.0;
    &bytes[7..]
}

/// So many entries of one width, from the first byte on.
pub fn cut(alloc: Global, width: usize, count: usize, bytes: &[u8]) -> Result<Vec<Bytes>, Memory>
    requires { count * width ≤ length bytes.now }
    ensures { IfOk result (λ entries. entries.items ≡ entry_chunks width count bytes.now) }
{
    let mut entries = Vec::new(alloc);
    let mut rest = bytes;
    for _turn in 0..count {
        let (entry, behind) = rest.split_at(width);
        entries.push(Bytes::copy_of(alloc, entry)?)?;
        rest = behind;
    }
    Ok(entries)
}

const ZEROS: [u8; 1024] = [0; 1024];

/// Whether the bytes of a block say that it has entries, and are zeros from a place on.
fn is_laid_to(bytes: &[u8], end: usize) -> bool
    requires long { length bytes.now ≡ 1024 }
    requires end { end ≤ 1024 }
    ensures { result ≡ is_laid_to end bytes.now }
{
    let zeros: &[u8] = &ZEROS;
    bytes[0] == 1 && bytes[end..] == zeros[end..]
}

/// Whether the bytes of a block are the spelling of so many entries that are read from it.
fn is_spelled(bytes: &[u8], width: usize, count: usize) -> bool
    requires long { length bytes.now ≡ 1024 }
    requires room { count * width ≤ 1017 }
    requires count { count ≡ from_be_bytes w16 (take 2 (drop 1 bytes.now)) }
    ensures { result ≡ bytes_eq bytes.now (leaf_bytes (from_be_bytes w32 (take 4 (drop 3 bytes.now))) (entry_chunks width count (drop 7 bytes.now))) }
{
    is_laid_to(bytes, 7 + count * width)
}

/// The entries of one width that a block spells, with the number of the next block; none where it is no such block.
/// Answers Err where memory is refused.
pub fn leaf_of(alloc: Global, width: usize, block: &Block) -> Result<Option<LeafBlock>, Memory>
    requires low { 8 ≤ width }
    requires most { width ≤ 104 }
    ensures { IfOk result (λ o. leaf_opt o ≡ leaf_in width block.now.0) }
{
    let count = usize::from(u16_in(block, 1));
    if count == 0 {
        return Ok(None);
    }
    if count * width > 1017 {
        return Ok(None);
    }
    let bytes: &[u8] = &block.0;
    if !is_spelled(bytes, width, count) {
        return Ok(None);
    }
    let leaf = LeafBlock {
        next: u32_in(block, 3),
        entries: cut(alloc, width, count, entries_in(block))?,
    };
    if !is_rising(&leaf.entries) {
        return Ok(None);
    }
    Ok(Some(leaf))
}

/// The block of one entry, the last one of a chain.
pub fn leaf_with(alloc: Global, entry: &[u8]) -> Result<LeafBlock, Memory>
    ensures next { IfOk result (λ leaf. leaf.next ≡ 0) }
    ensures entries { IfOk result (λ leaf. leaf.entries.items ≡ entry.now ∷ []) }
{
    let mut entries = Vec::new(alloc);
    entries.push(Bytes::copy_of(alloc, entry)?)?;
    Ok(LeafBlock { next: 0, entries })
}
