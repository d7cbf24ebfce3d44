/// Why a stream can't be read on.
#[derive(Clone, Copy, Debug, PartialEq, Eq)]
pub enum StreamFault {
    /// Taking from the input failed.
    Input,
    /// The input has more than 2,147,483,648 bytes.
    Bytes,
    /// No stream goes on so: the first bad byte, counted from 1.
    Bad(u64),
    Memory,
}
