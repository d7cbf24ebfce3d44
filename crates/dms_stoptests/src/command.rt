use dms_sitemem::{MemSite, MemSource};
use dms_top::{Status, dms};
use std::alloc::Global;
use std::test::Fail;

/// A command: its words, and what stands on its input.
#[derive(Clone, Copy)]
pub struct Command {
    pub words: &'static [&'static str],
    pub input: &'static [u8],
}

/// How a command ended.
#[derive(Clone, Copy, Debug, PartialEq)]
pub enum End {
    /// It did its work.
    Done,
    /// What it was to make is there.
    Exists,
    /// A call on a file failed.
    DiskFault,
    /// Printing failed.
    SayFault,
    /// Taking from its input failed.
    InputFault,
    /// Something else is wrong.
    Other,
}

fn end_of(status: Status) -> End {
    match status {
        Status::Ok => End::Done,
        Status::Exists => End::Exists,
        Status::DiskFault => End::DiskFault,
        Status::SayFault => End::SayFault,
        Status::InputFault => End::InputFault,
        _ => End::Other,
    }
}

/// Does a command over a site. The takes of its input whose numbers are listed fail.
pub fn perform(
    alloc: Global,
    site: &mut MemSite,
    command: Command,
    fails: Vec<u64>,
) -> Result<End, Fail> {
    perform_words(alloc, site, command.words, command.input, fails)
}

/// The same, with an input that may have been made meanwhile.
pub fn perform_words(
    alloc: Global,
    site: &mut MemSite,
    command: &[&'static str],
    input: &[u8],
    fails: Vec<u64>,
) -> Result<End, Fail> {
    let mut words = Vec::new(alloc);
    for word in command {
        words.push(String::from_str(alloc, word)?)?;
    }
    let input = Vec::from_slice(alloc, input)?;
    let mut source = MemSource::new(input, fails, 256);
    Ok(end_of(dms(alloc, words.as_slice(), site, &mut source)))
}

/// The files that a test may find: the description, 40 audit files, two dumps and eight structures.
const FILES: [(u32, u32); 4] = [(1, 2), (10_001, 10_041), (20_001, 20_003), (30_001, 30_009)];

/// A site with the files of another, and without its text. The calls whose numbers are listed fail.
pub fn with_files_of(alloc: Global, other: &MemSite, fails: Vec<u64>) -> Result<MemSite, Fail> {
    let mut site = MemSite::new(alloc, fails, None)?;
    for (from, upto) in FILES {
        for file in from..upto {
            let bytes = other.bytes(file);
            if !bytes.is_empty() {
                site.overwrite(alloc, file, bytes)?;
            }
        }
    }
    Ok(site)
}
