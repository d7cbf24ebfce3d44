use dms_audfile::AudFault;

/// Why a trail isn't shipped, or not to its end, or a stream isn't followed to its end.
#[derive(Clone, Copy, Debug, PartialEq, Eq)]
pub enum RemoteFault {
    /// The audit can't be read or written.
    Audit(AudFault),
    /// Taking from the input failed.
    Input,
    /// The input has more than 2,147,483,648 bytes.
    Bytes,
    /// Printing failed.
    Say,
    /// The input is no stream; this is its first bad byte, counted from 1.
    BadStream(u64),
    /// A block of the stream, by its file's number as a file, isn't the one that is sealed here, nor the next; of file 1 the head isn't that of this
    /// database.
    Diverged(u32, u32),
}
