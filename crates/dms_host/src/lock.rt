//! Who works in a folder.

use crate::access::Access;
use crate::trouble::{Subject, Trouble};
use std::fs::{self, File, TryLockError};

/// Why the folder wasn't locked.
#[derive(Clone, Copy)]
pub enum LockFault {
    /// Another program holds it.
    InUse,
    /// A call on the folder failed.
    Failed(Trouble),
}

/// The current folder, which no other program locks in a way that excludes this one's while this is kept.
#[derive(Drop)]
pub struct FolderLock {
    folder: File,
}

/// Locks the current folder, for this program alone where it writes and together with others that read where it reads. It
/// doesn't wait where another one holds it. The system frees the lock where the program ends, however it ends. Answers InUse
/// where another program holds it, and Failed where a call on the folder failed.
pub fn lock_folder(rt: &HostRuntime, access: Access) -> Result<FolderLock, LockFault> {
    let folder = match fs::open(rt, ".") {
        Ok(folder) => folder,
        Err(e) => return Err(LockFault::Failed(Trouble::new(Subject::Folder, e))),
    };
    let locked = match access {
        Access::Writing => folder.try_lock(),
        Access::Reading => folder.try_lock_shared(),
    };
    match locked {
        Ok(()) => Ok(FolderLock { folder }),
        Err(TryLockError::WouldBlock) => Err(LockFault::InUse),
        Err(TryLockError::Error(e)) => Err(LockFault::Failed(Trouble::new(Subject::Folder, e))),
    }
}
