/// What a command does to the files of the folder.
#[derive(Clone, Copy, Debug, PartialEq, Eq)]
pub enum Access {
    /// It reads and writes, alone in the folder.
    Writing,
    /// It reads alone. Others may read beside it, and it needs no right to write.
    Reading,
}
