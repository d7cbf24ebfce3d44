//! Entries of the audit, lent from where they were read.

/// How a restore goes, as its Begin says it. The numbers are those of dumps, from 1 to 9,999.
#[derive(Clone, Copy)]
pub enum BeginHow<'a> {
    HaltLoad,
    BackOut,
    Rollback,
    Rebuild(u16),
    /// The bytes are those of the rows: a structure file and a row, four bytes each, rising.
    Reconstruct(u16, &'a [u8]),
}

/// An entry of the audit, whose bytes lie where it was read. A list is its bytes after its count.
#[derive(Clone, Copy)]
pub enum Entry<'a> {
    /// A part of a description, from 1, of so many parts, and its bytes.
    Schema(u16, u16, &'a [u8]),
    /// A block of a structure file: the file, the block, its 1,024 bytes before a change, none where it is new, and after it.
    Image(u32, u32, Option<&'a [u8]>, &'a [u8]),
    /// Changed bytes of a block of a structure file: the file, the block, the place of the first in it, and the bytes after the change.
    Range(u32, u32, u16, &'a [u8]),
    /// A quiet point with its number.
    Quiet(u64),
    /// A control point: its number, the next number, and the counts of blocks: a structure file and its count, four bytes
    /// each, rising by file.
    Control(u64, u64, &'a [u8]),
    /// A restore to a point begins.
    Begin(u64, BeginHow<'a>),
}
