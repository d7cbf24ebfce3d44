ghost use Rattle.std.specs.Prelude.{false, Ok, Err, None, [], ◌≡◌, MatchResult};
ghost use Rattle.std.proofs.lemmas.Bool.{false≢true};
ghost use Rattle.dms_calls.specs.Untold.{no_world, untold_clock};

use crate::access::Access;
use crate::listing::Listing;
use crate::places::dump_of;
use crate::progress::Progress;
use crate::trouble::{Subject, Trouble};
use arrayvec::ArrayString;
use dms_calls::Calls;
use dms_site::Failed;
use std::fmt::Write as WriteText;
use std::fs::{self, Files, OpenFile, OpenOptions};
use std::io::{self, ErrorKind, Write};
use std::ops::Range;
use std::os::unix::fs::{FileExt, MetadataExt};
use std::rt::{Clock, Runtime};

/// The numbers of the structure files.
const STRUCTURES: Range<u32> = 30_001..30_201;

/// A dump that is shut has at most so many bytes.
const SHUT: u64 = 1;

/// Room for the name of a file.
const LONGEST_NAME: usize = 15;

/// The current folder and standard output.
#[derive(Drop)]
pub struct Host<R: Files> {
    rt: R,
    access: Access,
    /// Why the last call that failed did so.
    trouble: Option<Trouble>,
    progress: Option<Progress>,
}

/// An open file of the folder, and which it is.
#[derive(Drop)]
pub struct NumberedFile<F> {
    on: Subject,
    file: F,
}

impl<R: Files> Host<R> {
    /// The folder in which the program runs, for a command of this kind, with what shows how far it is.
    pub fn new(rt: R, access: Access, progress: Option<Progress>) -> Host<R>
        ensures { result.rt ≡ rt }
    {
        Host {
            rt,
            access,
            trouble: None,
            progress,
        }
    }

    /// Why the last call that failed did so, where one did.
    pub fn trouble(&self) -> Option<Trouble> {
        self.trouble
    }

    /// Its value, or that the call on this failed, which is kept.
    fn keep<T: Drop>(&mut self, on: Subject, outcome: io::Result<T>) -> Result<T, Failed>
        ensures { MatchResult outcome (λ value. result ≡ Ok value) (λ e. result ≡ Err (record {})) }
    {
        match outcome {
            Ok(value) => Ok(value),
            Err(e) => {
                self.trouble = Some(Trouble::new(on, e));
                Err(Failed)
            }
        }
    }
}

impl<R: Files + Clock + Eprint> Host<R> {
    /// Shows how far the command is, where it is time.
    fn turn(&mut self) {
        if let Some(progress) = &mut self.progress {
            progress.turn(&self.rt);
        }
    }

    /// Something is about to be printed.
    fn make_way(&mut self) {
        if let Some(progress) = &mut self.progress {
            progress.make_way(&self.rt);
        }
    }

    /// A call on this file of the folder ended at this place: shows it, where it is time.
    fn pass(&mut self, file: &NumberedFile<R::File>, at: u64) {
        let Subject::File(number) = file.on else {
            return;
        };
        if let Some(progress) = &mut self.progress
            && let Some(part) = progress.part()
        {
            let whole = match part.whole_of(number) {
                Some(whole) => whole,
                None => whole_dump(&self.rt, file, number),
            };
            part.pass(number, at, whole);
        }
    }

    /// Ends what shows how far the command is.
    pub fn end_progress(&self) {
        if let Some(progress) = &self.progress {
            progress.end(&self.rt);
        }
    }
}

/// How long a dump is, or where it isn't written yet, becomes: as long as the structure files. 0 for another file, and where it can't be seen.
fn whole_dump<R: Files>(rt: &R, file: &NumberedFile<R::File>, number: u32) -> u64 {
    if dump_of(number).is_none() {
        return 0;
    }
    let mut whole = match file.file.metadata() {
        Ok(found) => found.len(),
        Err(_) => 0,
    };
    if whole > SHUT {
        return whole;
    }
    for structure in STRUCTURES {
        let mut name: ArrayString<LONGEST_NAME> = ArrayString::new();
        let on = Subject::File(structure);
        if write!(name, "{on}").is_ok()
            && let Ok(found) = fs::metadata(rt, name.as_str())
        {
            whole = whole.saturating_add(found.len());
        }
    }
    whole
}

/// Opens a file of the folder, where it is a regular file without another name. It is looked at before it is opened, since the opening of a FIFO may wait
/// for ever.
fn open_own<R: Files>(rt: &R, name: &str, access: Access) -> io::Result<R::File> {
    let found = fs::metadata(rt, name)?;
    if !found.is_file() {
        return Err(io::Error::other("not a regular file"));
    }
    if found.nlink() > 1 {
        return Err(io::Error::other("the file has another name"));
    }
    OpenOptions::new()
        .read(true)
        .write(access == Access::Writing)
        .open(rt, name)
}

/// Its value, or that the call failed.
pub(crate) fn or_failed<T: Drop>(outcome: io::Result<T>) -> Result<T, Failed>
    ensures { MatchResult outcome (λ value. result ≡ Ok value) (λ e. result ≡ Err (record {})) }
{
    match outcome {
        Ok(value) => Ok(value),
        Err(_) => Err(Failed),
    }
}

impl<R: Runtime + AllocGlobal> Calls for Host<R>
where
    R::File: FileExt,
{
    type Handle = NumberedFile<R::File>;

    type Listing = Listing<R::Dir>;

    ghost tells = { false };

    ghost file = { λ h. 0 };

    ghost given = { λ l. [] };

    ghost listed = { λ l m. None };

    ghost world = { λ s. no_world };

    ghost clock = { λ s. untold_clock };

    ghost broken = { λ s. false };

    ghost may_stay = { λ s tells. absurd (false≢true tells) };

    ghost told = { λ s w now. absurd now };

    ghost now_said = { λ s w now. absurd now };

    ghost counts_now = { λ s t w le now. absurd now };

    ghost one_name = { λ s w m n i now. absurd now };

    fn open(&mut self, name: &str) -> Result<Option<NumberedFile<R::File>>, Failed> {
        self.turn();
        let on = Subject::of_name(name);
        match open_own(&self.rt, name, self.access) {
            Ok(file) => Ok(Some(NumberedFile { on, file })),
            Err(e) if e.kind() == ErrorKind::NotFound => Ok(None),
            Err(e) => {
                self.trouble = Some(Trouble::new(on, e));
                Err(Failed)
            }
        }
    }

    fn create(&mut self, name: &str) -> Result<NumberedFile<R::File>, Failed> {
        let on = Subject::of_name(name);
        let made = OpenOptions::new()
            .read(true)
            .write(true)
            .create_new(true)
            .open(&self.rt, name);
        let file = self.keep(on, made)?;
        Ok(NumberedFile { on, file })
    }

    fn size(&mut self, handle: &NumberedFile<R::File>) -> Result<u64, Failed> {
        let found = handle.file.metadata();
        Ok(self.keep(handle.on, found)?.len())
    }

    fn pread(
        &mut self,
        handle: &NumberedFile<R::File>,
        at: u64,
        into: &mut [u8],
    ) -> Result<usize, Failed> {
        self.turn();
        let read = handle.file.read_at(into, at);
        let count = self.keep(handle.on, read)?;
        self.pass(handle, at.saturating_add(count as u64));
        Ok(count)
    }

    fn pwrite(
        &mut self,
        handle: &NumberedFile<R::File>,
        at: u64,
        bytes: &[u8],
    ) -> Result<usize, Failed> {
        self.turn();
        let written = handle.file.write_at(bytes, at);
        let count = self.keep(handle.on, written)?;
        self.pass(handle, at.saturating_add(count as u64));
        Ok(count)
    }

    fn ftruncate(&mut self, handle: &NumberedFile<R::File>, len: u64) -> Result<(), Failed> {
        self.keep(handle.on, handle.file.set_len(len))
    }

    fn fsync(&mut self, handle: &NumberedFile<R::File>) -> Result<(), Failed> {
        self.turn();
        self.keep(handle.on, handle.file.sync_all())
    }

    fn fsync_folder(&mut self) -> Result<(), Failed> {
        let opened = fs::open(&self.rt, ".");
        let folder = self.keep(Subject::Folder, opened)?;
        let synced = folder.sync_all();
        self.keep(Subject::Folder, synced)
    }

    fn list(&mut self) -> Result<Listing<R::Dir>, Failed> {
        let opened = self.rt.open_dir(".");
        Ok(Listing::new(self.keep(Subject::Folder, opened)?))
    }

    fn next_name(
        &mut self,
        listing: &mut Listing<R::Dir>,
        into: &mut [u8],
    ) -> Result<usize, Failed> {
        listing.fill()?;
        listing.take(into)
    }

    fn print(&mut self, bytes: &[u8]) -> Result<usize, Failed> {
        self.make_way();
        let written = io::writer(&self.rt).write(bytes);
        let count = self.keep(Subject::Output, written)?;
        if let Some(progress) = &mut self.progress {
            progress.read(&bytes[..count]);
        }
        Ok(count)
    }

    fn show(&mut self, done: u64, of: u64) {
        if let Some(progress) = &mut self.progress {
            progress.pass_lines(done, of);
        }
        self.turn();
    }
}
