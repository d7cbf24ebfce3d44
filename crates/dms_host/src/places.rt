//! Which part of a database a command is at.

use crate::progress::percent;

/// Audit file k is file 10,000 + k, and dump d file 20,000 + d, each from 1 on.
const AUDIT: u32 = 10_000;

/// The dumps are behind the audit files.
const DUMPS: u32 = 20_000;

/// There are fewer than so many audit files, and fewer than so many dumps.
const MANY: u32 = 10_000;

/// A dump that is written or read: its number, the end of the last call on it, and how long it is or becomes.
#[derive(Clone, Copy, Debug, PartialEq, Eq)]
pub(crate) struct Copied {
    pub(crate) dump: u32,
    at: u64,
    whole: u64,
}

impl Copied {
    /// How much of it was written or read, in percent.
    pub(crate) fn percent(&self) -> u64 {
        percent(self.at, self.whole)
    }
}

/// What part of a database the last calls were on.
#[derive(Clone, Copy, Debug, PartialEq, Eq)]
pub(crate) enum Part {
    /// No audit file and no dump yet.
    Beginning,
    /// The audit file of this number.
    Audit(u32),
    Dump(Copied),
}

/// The number of a dump whose file this is.
pub(crate) fn dump_of(file: u32) -> Option<u32> {
    match file.checked_sub(DUMPS) {
        Some(dump) if dump > 0 && dump < MANY => Some(dump),
        _ => None,
    }
}

impl Part {
    /// A call on this file ended at this place. Calls on structure files change nothing.
    pub(crate) fn pass(&mut self, file: u32, at: u64, whole: u64) {
        if let Some(dump) = dump_of(file) {
            *self = Part::Dump(Copied { dump, at, whole });
        } else if file > AUDIT && file < AUDIT + MANY {
            *self = Part::Audit(file - AUDIT);
        }
    }

    /// How long the dump is or becomes, where it is the last that a call was on.
    pub(crate) fn whole_of(&self, file: u32) -> Option<u64> {
        match *self {
            Part::Dump(copied) if dump_of(file) == Some(copied.dump) => Some(copied.whole),
            _ => None,
        }
    }
}
