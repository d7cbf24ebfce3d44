/// Blocks of a structure file that stand one behind another in the file of a dump.
#[derive(Clone, Copy, Debug, PartialEq, Eq)]
pub struct Run {
    pub file: u32,
    /// The first of them.
    pub block: u32,
    pub blocks: u32,
    /// The dump, by its number as a file.
    pub dump: u32,
    /// The position of the first one's bytes in it.
    pub at: u64,
}
