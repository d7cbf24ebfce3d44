use crate::{Run, Told};

/// What a restore writes: runs of blocks from the file of its dump first, and the blocks of a table behind them. A restore by the audit has no
/// runs.
#[derive(Drop)]
pub struct RestoreTable {
    pub runs: Vec<Run>,
    /// The blocks that the audit tells, each with the place of its bytes.
    pub told: Vec<Told>,
}
