/// What was done to a folder. A flag says whether the call succeeded.
#[derive(Drop)]
pub enum CallEvent {
    /// A name, a length, bytes or a listing were asked for.
    Looked(bool),
    /// A file of this name was made.
    Made(Vec<u8>, bool),
    /// Bytes were written to a file from a position on.
    Wrote(u32, u64, Vec<u8>, bool),
    /// A file was cut to a smaller length.
    Shortened(u32, u64, bool),
    /// A file was given zeros up to a length.
    Lengthened(u32, u64, bool),
    /// The bytes of a file were to be made stable.
    Synced(u32, bool),
    /// The names of the folder were to be made stable.
    SyncedNames(bool),
    /// Bytes were printed.
    Printed(Vec<u8>, bool),
    /// A file of this name, or of none, with these bytes stood there before the first call. It isn't a call.
    Found(Vec<u8>, Vec<u8>),
    /// This text stood there before the first call. It isn't a call.
    Recalled(Vec<u8>),
}
