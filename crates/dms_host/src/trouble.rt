//! What the system said of a call that failed. No contract speaks of it: it is there to be shown.

use arrayvec::ArrayString;
use std::fmt::{self, Write};
use std::io;

/// Room for a message of the system, which the C library keeps below 256 bytes, and for its number.
const LONGEST: usize = 300;

/// What a call was made on.
#[derive(Clone, Copy, Debug, PartialEq, Eq)]
pub enum Subject {
    /// The database file of this number.
    File(u32),
    /// The current folder.
    Folder,
    Input,
    Output,
}

impl Subject {
    /// The database file of this name.
    pub(crate) fn of_name(name: &str) -> Subject {
        let number = name
            .strip_prefix('F')
            .and_then(|rest| rest.strip_suffix(".DMS"));
        match number {
            None => Subject::Folder,
            Some(digits) => match digits.parse::<u32>() {
                Ok(number) => Subject::File(number),
                Err(_) => Subject::Folder,
            },
        }
    }
}

impl fmt::Display for Subject {
    fn fmt<W: fmt::Write>(&self, f: &mut fmt::Formatter<W>) -> fmt::Result {
        match *self {
            Subject::File(number) => write!(f, "F{number:05}.DMS"),
            Subject::Folder => f.write_str("the folder"),
            Subject::Input => f.write_str("standard input"),
            Subject::Output => f.write_str("standard output"),
        }
    }
}

/// A call that failed: what it was made on, and why, as the system says.
#[derive(Clone, Copy)]
pub struct Trouble {
    on: Subject,
    error: io::Error,
}

impl Trouble {
    /// A call on this failed so.
    pub fn new(on: Subject, error: io::Error) -> Trouble {
        Trouble { on, error }
    }
}

/// `F10001.DMS: No space left on device`: the system's message without its number.
impl fmt::Display for Trouble {
    fn fmt<W: fmt::Write>(&self, f: &mut fmt::Formatter<W>) -> fmt::Result {
        let on = self.on;
        let error = self.error;
        let mut text: ArrayString<LONGEST> = ArrayString::new();
        write!(text, "{error}")?;
        match text.as_str().split_once(" (os error ") {
            None => write!(f, "{on}: {text}"),
            Some((message, _)) => write!(f, "{on}: {message}"),
        }
    }
}
