//! The three standard streams, and the files of the folder that they may end in.

use crate::trouble::Subject;
use std::alloc::Global;
use std::fs::{self, File, OpenOptions};
use std::io::{self, ErrorKind};
use std::os::fd::AsFd;
use std::os::unix::fs::MetadataExt;

const NULL_DEVICE: &str = "/dev/null";

/// Devices that stand where a standard stream was closed when the program began. They are to be kept until it ends.
#[derive(Drop)]
pub struct HeldStreams {
    input: Option<File>,
    output: Option<File>,
    errors: Option<File>,
}

/// Makes sure that descriptors 0 to 2 are taken, so that no file that is opened later gets one of them. Where one is closed
/// the null device takes it: reading from the input fails then, and so does writing to the output or the errors. To be called
/// before anything else is opened.
///
/// An error comes where the device can't be opened. No file may be opened then.
pub fn hold_streams(rt: &HostRuntime) -> io::Result<HeldStreams> {
    // A new descriptor is the lowest that is free, so they are taken in this order.
    let input = unless_open(rt, &rt.stdin(), OpenOptions::new().write(true))?;
    let output = unless_open(rt, &rt.stdout(), OpenOptions::new().read(true))?;
    let errors = unless_open(rt, &rt.stderr(), OpenOptions::new().read(true))?;
    Ok(HeldStreams {
        input,
        output,
        errors,
    })
}

/// The null device where a stream is closed.
fn unless_open<S: AsFd>(
    rt: &HostRuntime,
    stream: &S,
    how: &OpenOptions,
) -> io::Result<Option<File>> {
    if stream.as_fd().try_clone_to_owned().is_ok() {
        return Ok(None);
    }
    Ok(Some(how.open(rt, NULL_DEVICE)?))
}

/// A stream that the program writes to.
#[derive(Clone, Copy, Debug, PartialEq, Eq)]
pub enum Stream {
    Output,
    Errors,
}

/// Whether a stream ends in one of the database files of the current folder, also through a link or another name of the file.
///
/// It asks the system for the stream's file by its name below `/proc`. Where that isn't mounted the answer is no.
/// An error comes where the folder can't be read, or where the stream's file or a database file is there and can't be looked at.
pub fn reaches_database(rt: &HostRuntime, stream: Stream) -> io::Result<bool> {
    let name = match stream {
        Stream::Output => "/proc/self/fd/1",
        Stream::Errors => "/proc/self/fd/2",
    };
    let Some(target) = regular_file(rt, name)? else {
        return Ok(false);
    };
    for entry in fs::read_dir(rt, ".")? {
        match entry {
            Ok(entry) => {
                let name = entry.file_name();
                if is_database_name(name) && regular_file(rt, name)? == Some(target) {
                    return Ok(true);
                }
            }
            Err(e) if e.kind() == ErrorKind::InvalidFilename => {}
            Err(e) => return Err(e),
        }
    }
    Ok(false)
}

/// The database file of the current folder that is also one of a lesser number, by links: None where each is a file of its own.
///
/// An error comes where the folder can't be read, or a database file is there and can't be looked at, and where memory is refused.
pub fn twice_named(rt: &HostRuntime, alloc: Global) -> io::Result<Option<Subject>> {
    let mut files = Vec::new(alloc);
    for entry in fs::read_dir(rt, ".")? {
        match entry {
            Ok(entry) => {
                let name = entry.file_name();
                if let Subject::File(number) = Subject::of_name(name) {
                    if let Some((device, place)) = regular_file(rt, name)? {
                        files.push((device, place, number))?;
                    }
                }
            }
            Err(e) if e.kind() == ErrorKind::InvalidFilename => {}
            Err(e) => return Err(e),
        }
    }
    files.sort()?;
    for pair in files.as_slice().windows(2) {
        if (pair[0].0, pair[0].1) == (pair[1].0, pair[1].1) {
            return Ok(Some(Subject::File(pair[1].2)));
        }
    }
    Ok(None)
}

/// The device of the regular file of this name and its number there, which no other file has. None where there is none.
fn regular_file(rt: &HostRuntime, name: &str) -> io::Result<Option<(u64, u64)>> {
    match fs::metadata(rt, name) {
        Ok(found) if found.is_file() => Ok(Some((found.dev(), found.ino()))),
        Ok(_) => Ok(None),
        Err(e) if e.kind() == ErrorKind::NotFound => Ok(None),
        Err(e) => Err(e),
    }
}

/// Whether a file of this name belongs to a database: `F`, at least five digits, `.DMS`.
fn is_database_name(name: &str) -> bool {
    let Some(rest) = name.strip_prefix('F') else {
        return false;
    };
    let Some(digits) = rest.strip_suffix(".DMS") else {
        return false;
    };
    digits.len() >= 5 && digits.bytes().all(|digit| digit.is_ascii_digit())
}
