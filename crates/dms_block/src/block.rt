/// The bytes of one block.
#[derive(Clone, Copy, Debug, PartialEq, Eq)]
pub struct Block(pub [u8; 1024]);

/// Which block of which structure file, blocks being counted from 0.
#[derive(Clone, Copy, Debug, PartialEq, Eq)]
pub struct BlockId {
    pub file: u32,
    pub block: u32,
}
