use crate::lists::Declarations;

/// A schema as it was written, with the defaults put in.
#[derive(Debug, Drop)]
pub struct Schema {
    pub parameters: Parameters,
    pub declarations: Declarations,
}

/// The numbers that a schema may set.
#[derive(Clone, Copy, Debug, PartialEq, Eq)]
pub struct Parameters {
    /// Transactions to a syncpoint, 1 to 10,000.
    pub syncpoint: u16,
    /// Syncpoints to a control point, 1 to 10,000.
    pub controlpoint: u16,
    /// Blocks that are kept in memory, 8 to 4,096.
    pub buffers: u16,
    /// Blocks of an audit file, 8 to 512.
    pub blocks: u16,
    /// Audit files at most, 2 to 9,999.
    pub files: u16,
}
