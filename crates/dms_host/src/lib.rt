//! The outside as it is: the system calls on the current folder, its lock, the standard streams and standard input.
//!
//! Each method of `Host` makes the call that it names, and before it opens a file it looks whether that is a regular file without
//! another name. What the system does with it is trusted: no clause tells
//! what a file holds or what an input gives. Beside it they keep what a user is shown: why a call failed, and how far a run is.
#![tactic(auto)]

mod access;
mod answers;
mod descriptors;
mod host;
mod listing;
mod lock;
mod places;
mod progress;
mod stdin_source;
#[cfg(test)]
mod tests;
mod trouble;

pub use access::Access;
pub use descriptors::{HeldStreams, Stream, hold_streams, reaches_database, twice_named};
pub use host::{Host, NumberedFile};
pub use listing::Listing;
pub use lock::{FolderLock, LockFault, lock_folder};
pub use progress::{Measure, Progress};
pub use stdin_source::StdinSource;
pub use trouble::{Subject, Trouble};
