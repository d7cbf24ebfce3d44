//! Parts of events, as programs hold them.

/// How many blocks one structure file has.
#[derive(Clone, Copy)]
pub struct FileCount {
    pub file: u32,
    pub blocks: u32,
}

/// A row of a structure file: row `r` is its blocks 16 r to 16 r + 15.
#[derive(Clone, Copy)]
pub struct Row {
    pub file: u32,
    pub row: u32,
}
