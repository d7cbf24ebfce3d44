/// Why the description file can't be read or written.
#[derive(Clone, Copy, Debug, PartialEq, Eq)]
pub enum FileFault {
    /// A call on the file failed.
    Disk,
    /// Memory was refused. No call on the file was made that changes it.
    Memory,
}
