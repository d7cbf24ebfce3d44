use crate::Structures;

/// A compiled schema: its parameters, and its structures.
#[derive(Drop)]
pub struct Description {
    /// A syncpoint each so many transactions, 1 to 10,000.
    pub syncpoint: u16,
    /// A control point each so many syncpoints, 1 to 10,000.
    pub controlpoint: u16,
    /// Frames of the buffer pool, 8 to 4,096.
    pub buffers: u16,
    /// Blocks of an audit file, 8 to 512.
    pub blocks: u16,
    /// The last audit file that script lines may fill, 2 to 9,999.
    pub files: u16,
    pub structures: Structures,
}
