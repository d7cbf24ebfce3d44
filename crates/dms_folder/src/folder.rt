ghost use Rattle.std.specs.Prelude.{◌≡◌, ◌≢◌, ◌+◌, ◌^◌, ◌<◌, ◌≤◌, ◌⊎◌, ℕ, [], take, false, length, slice_get, OnOk, IfOk, IfSome, IsTrue, MatchOption, Some, None};
ghost use Rattle.dms_moments.specs.Moments.{Steps};
ghost use Rattle.dms_site.specs.Files.{with_file, overlay_bytes, range, InFile, Torn, Cut, OnDisk, Same, Only, IsLastPresent};
ghost use Rattle.dms_calls.specs.World.{Unchanged};
ghost use Rattle.dms_calls.specs.Seen.{site_files, seen_clock};
ghost use Rattle.dms_calls.specs.Names.{name_of};
ghost use Rattle.dms_folder.specs.Kept.{KeepsFolder, StableAt, GoesOn, IsAt, touch_file};
ghost use Rattle.dms_folder.specs.Listings.{IsLater};
ghost use Rattle.dms_folder.specs.Reads.{IsReadInto};

use crate::listing::{MOST_NAMES, next_number};
use crate::name::file_name;
use crate::opened::OpenedFile;
use crate::read::read_full;
use crate::write::write_all;
use dms_calls::Calls;
use dms_site::Failed;
use std::alloc::{AllocError, Global};

/// So many files stay open.
const MOST_OPEN: usize = 64;

/// The files of a folder.
#[derive(Drop)]
pub struct Folder<C: Calls> {
    pub calls: C,
    /// The files that are open, the first opened first.
    pub opened: Vec<OpenedFile<C::Handle>>,
    /// Whether a file was made since the last sync, by this program or by one before it.
    pub made: bool,
    /// Whether each file was synced once. Before it an earlier program may have left files that are not stable.
    pub synced: bool,
}

impl<C: Calls + Drop> Folder<C> {
    /// The files of a folder, none of them open. Nothing is known to be stable. Answers Err where memory is refused.
    pub fn new(calls: C, alloc: Global) -> Result<Folder<C>, AllocError>
        ensures kept { IfOk result (λ s. IsTrue C.tells → KeepsFolder C.file s.opened.items s.made s.synced (C.world s.calls) (C.clock s.calls)) }
        ensures calls { IfOk result (λ s. s.calls ≡ calls) }
    {
        Ok(Folder {
            calls,
            opened: Vec::with_capacity(alloc, MOST_OPEN)?,
            made: true,
            synced: false,
        })
    }
}

impl<C: Calls> Folder<C> {
    /// Makes the bytes of an open file stable.
    fn sync_opened(&mut self, place: usize) -> Result<(), Failed>
        requires broken { C.broken self.old.calls ≡ false }
        requires kept { IsTrue C.tells → KeepsFolder C.file self.old.opened.items self.old.made self.old.synced (C.world self.old.calls) (C.clock self.old.calls) }
        requires place { place < length self.old.opened.items }
        ensures kept { IsTrue C.tells → KeepsFolder C.file self.new.opened.items self.new.made self.new.synced (C.world self.new.calls) (C.clock self.new.calls) }
        ensures untouched { OnOk result ((o : OpenedFile C.Handle) → slice_get self.new.opened.items place ≡ Some o → o.touched ≡ false) }
        ensures others { (k : ℕ) → k ≢ place → slice_get self.new.opened.items k ≡ slice_get self.old.opened.items k }
        ensures len { length self.new.opened.items ≡ length self.old.opened.items }
        ensures made { self.new.made ≡ self.old.made }
        ensures synced { self.new.synced ≡ self.old.synced }
        ensures world { C.world self.new.calls ≡ C.world self.old.calls }
        ensures moments { Steps Unchanged (C.clock self.old.calls) (C.clock self.new.calls) }
        ensures broken { OnOk result (C.broken self.new.calls ≡ false) }
    {
        if self.opened[place].touched {
            self.calls.fsync(&self.opened[place].file)?;
            self.opened[place].touched = false;
        }
        Ok(())
    }

    /// Makes the bytes of each open file stable.
    fn sync_all_opened(&mut self) -> Result<(), Failed>
        requires broken { C.broken self.old.calls ≡ false }
        requires kept { IsTrue C.tells → KeepsFolder C.file self.old.opened.items self.old.made self.old.synced (C.world self.old.calls) (C.clock self.old.calls) }
        ensures kept { IsTrue C.tells → KeepsFolder C.file self.new.opened.items self.new.made self.new.synced (C.world self.new.calls) (C.clock self.new.calls) }
        ensures untouched { OnOk result ((k : ℕ) (o : OpenedFile C.Handle) → slice_get self.new.opened.items k ≡ Some o → o.touched ≡ false) }
        ensures made { self.new.made ≡ self.old.made }
        ensures synced { self.new.synced ≡ self.old.synced }
        ensures world { C.world self.new.calls ≡ C.world self.old.calls }
        ensures moments { Steps Unchanged (C.clock self.old.calls) (C.clock self.new.calls) }
        ensures broken { OnOk result (C.broken self.new.calls ≡ false) }
    {
        for place in 0..self.opened.len() {
            self.sync_opened(place)?;
        }
        Ok(())
    }

    /// Makes the names of the folder stable, where one was made.
    fn sync_names(&mut self) -> Result<(), Failed>
        requires broken { C.broken self.old.calls ≡ false }
        requires kept { IsTrue C.tells → KeepsFolder C.file self.old.opened.items self.old.made self.old.synced (C.world self.old.calls) (C.clock self.old.calls) }
        ensures kept { IsTrue C.tells → KeepsFolder C.file self.new.opened.items self.new.made self.new.synced (C.world self.new.calls) (C.clock self.new.calls) }
        ensures opened { self.new.opened.items ≡ self.old.opened.items }
        ensures made { OnOk result (self.new.made ≡ false) }
        ensures synced { self.new.synced ≡ self.old.synced }
        ensures world { C.world self.new.calls ≡ C.world self.old.calls }
        ensures moments { Steps Unchanged (C.clock self.old.calls) (C.clock self.new.calls) }
        ensures broken { OnOk result (C.broken self.new.calls ≡ false) }
    {
        if self.made {
            self.calls.fsync_folder()?;
            self.made = false;
        }
        Ok(())
    }

    /// Where a file stands among the open ones.
    fn place_of(&self, file: u32) -> Option<usize>
        ensures { IfSome result (λ i. IsAt self.now.opened.items i file) }
    {
        for place in 0..self.opened.len() {
            if self.opened[place].number == file {
                return Some(place);
            }
        }
        None
    }

    /// Keeps a file open, and shuts the first opened one where there are too many.
    fn keep(&mut self, number: u32, file: C::Handle) -> Result<usize, Failed>
        requires broken { C.broken self.old.calls ≡ false }
        requires kept { IsTrue C.tells → KeepsFolder C.file self.old.opened.items self.old.made self.old.synced (C.world self.old.calls) (C.clock self.old.calls) }
        requires named { IsTrue C.tells → (C.world self.old.calls).names (name_of number) ≡ Some (C.file file) }
        ensures kept { IsTrue C.tells → KeepsFolder C.file self.new.opened.items self.new.made self.new.synced (C.world self.new.calls) (C.clock self.new.calls) }
        ensures place { IfOk result (λ i. IsAt self.new.opened.items i number) }
        ensures made { self.new.made ≡ self.old.made }
        ensures synced { self.new.synced ≡ self.old.synced }
        ensures world { C.world self.new.calls ≡ C.world self.old.calls }
        ensures moments { Steps Unchanged (C.clock self.old.calls) (C.clock self.new.calls) }
        ensures broken { OnOk result (C.broken self.new.calls ≡ false) }
    {
        if self.opened.len() >= MOST_OPEN {
            self.sync_opened(0)?;
            self.drop_first();
        }
        self.push(number, file)
    }

    /// Shuts the first opened file.
    fn drop_first(&mut self)
        requires some { 0 < length self.old.opened.items }
        requires kept { IsTrue C.tells → KeepsFolder C.file self.old.opened.items self.old.made self.old.synced (C.world self.old.calls) (C.clock self.old.calls) }
        requires untouched { (o : OpenedFile C.Handle) → slice_get self.old.opened.items 0 ≡ Some o → o.touched ≡ false }
        ensures kept { IsTrue C.tells → KeepsFolder C.file self.new.opened.items self.new.made self.new.synced (C.world self.new.calls) (C.clock self.new.calls) }
        ensures calls { self.new.calls ≡ self.old.calls }
        ensures made { self.new.made ≡ self.old.made }
        ensures synced { self.new.synced ≡ self.old.synced }
    {
        self.opened.remove(0);
    }

    /// Puts a file behind the open ones.
    fn push(&mut self, number: u32, file: C::Handle) -> Result<usize, Failed>
        requires kept { IsTrue C.tells → KeepsFolder C.file self.old.opened.items self.old.made self.old.synced (C.world self.old.calls) (C.clock self.old.calls) }
        requires named { IsTrue C.tells → (C.world self.old.calls).names (name_of number) ≡ Some (C.file file) }
        ensures kept { IsTrue C.tells → KeepsFolder C.file self.new.opened.items self.new.made self.new.synced (C.world self.new.calls) (C.clock self.new.calls) }
        ensures place { IfOk result (λ i. IsAt self.new.opened.items i number) }
        ensures calls { self.new.calls ≡ self.old.calls }
        ensures made { self.new.made ≡ self.old.made }
        ensures synced { self.new.synced ≡ self.old.synced }
    {
        let place = self.opened.len();
        match self.opened.push(OpenedFile {
            number,
            file,
            touched: false,
        }) {
            Ok(()) => Ok(place),
            Err(_) => Err(Failed),
        }
    }

    /// Finds a file among the open ones, or opens it. None where there is none.
    fn find(&mut self, file: u32) -> Result<Option<usize>, Failed>
        requires broken { C.broken self.old.calls ≡ false }
        requires kept { IsTrue C.tells → KeepsFolder C.file self.old.opened.items self.old.made self.old.synced (C.world self.old.calls) (C.clock self.old.calls) }
        ensures kept { IsTrue C.tells → KeepsFolder C.file self.new.opened.items self.new.made self.new.synced (C.world self.new.calls) (C.clock self.new.calls) }
        ensures found { IfOk result (λ found. MatchOption found (IsTrue C.tells → (C.world self.old.calls).names (name_of file) ≡ None) (λ i. IsAt self.new.opened.items i file)) }
        ensures made { self.new.made ≡ self.old.made }
        ensures synced { self.new.synced ≡ self.old.synced }
        ensures world { C.world self.new.calls ≡ C.world self.old.calls }
        ensures moments { Steps Unchanged (C.clock self.old.calls) (C.clock self.new.calls) }
        ensures broken { OnOk result (C.broken self.new.calls ≡ false) }
    {
        if let Some(place) = self.place_of(file) {
            return Ok(Some(place));
        }
        let name = file_name(file);
        match self.calls.open(name.as_str())? {
            None => Ok(None),
            Some(handle) => Ok(Some(self.keep(file, handle)?)),
        }
    }

    /// Makes a file that isn't there.
    fn make(&mut self, file: u32) -> Result<usize, Failed>
        requires broken { C.broken self.old.calls ≡ false }
        requires kept { IsTrue C.tells → KeepsFolder C.file self.old.opened.items self.old.made self.old.synced (C.world self.old.calls) (C.clock self.old.calls) }
        requires absent { IsTrue C.tells → (C.world self.old.calls).names (name_of file) ≡ None }
        ensures kept { IsTrue C.tells → KeepsFolder C.file self.new.opened.items self.new.made self.new.synced (C.world self.new.calls) (C.clock self.new.calls) }
        ensures place { IfOk result (λ i. IsAt self.new.opened.items i file) }
        ensures files { IsTrue C.tells → site_files name_of (C.world self.new.calls) ≡ site_files name_of (C.world self.old.calls) }
        ensures said { (C.world self.new.calls).said ≡ (C.world self.old.calls).said }
        ensures moments { Steps Same (seen_clock name_of (C.clock self.old.calls)) (seen_clock name_of (C.clock self.new.calls)) }
        ensures broken { OnOk result (C.broken self.new.calls ≡ false) }
    {
        let name = file_name(file);
        self.made = true;
        let handle = self.calls.create(name.as_str())?;
        self.keep(file, handle)
    }

    /// Finds or opens a file, and makes it where there is none.
    fn find_or_make(&mut self, file: u32) -> Result<usize, Failed>
        requires broken { C.broken self.old.calls ≡ false }
        requires kept { IsTrue C.tells → KeepsFolder C.file self.old.opened.items self.old.made self.old.synced (C.world self.old.calls) (C.clock self.old.calls) }
        ensures kept { IsTrue C.tells → KeepsFolder C.file self.new.opened.items self.new.made self.new.synced (C.world self.new.calls) (C.clock self.new.calls) }
        ensures place { IfOk result (λ i. IsAt self.new.opened.items i file) }
        ensures files { IsTrue C.tells → site_files name_of (C.world self.new.calls) ≡ site_files name_of (C.world self.old.calls) }
        ensures said { (C.world self.new.calls).said ≡ (C.world self.old.calls).said }
        ensures moments { Steps Same (seen_clock name_of (C.clock self.old.calls)) (seen_clock name_of (C.clock self.new.calls)) }
        ensures broken { OnOk result (C.broken self.new.calls ≡ false) }
    {
        if let Some(place) = self.find(file)? {
            return Ok(place);
        }
        self.make(file)
    }

    /// Writes bytes from a position on. A gap before them is filled with zeros. With nothing to write and no gap it makes no
    /// call, and no file. Answers Err where a call on the folder failed, or wrote nothing of bytes that are left.
    pub fn write(&mut self, file: u32, at: u64, bytes: &[u8]) -> Result<(), Failed>
        requires broken { C.broken self.old.calls ≡ false }
        requires kept { IsTrue C.tells → KeepsFolder C.file self.old.opened.items self.old.made self.old.synced (C.world self.old.calls) (C.clock self.old.calls) }
        requires bound { at + length bytes.now < 2 ^ 40 }
        ensures kept { IsTrue C.tells → KeepsFolder C.file self.new.opened.items self.new.made self.new.synced (C.world self.new.calls) (C.clock self.new.calls) }
        ensures written { OnOk result (IsTrue C.tells → site_files name_of (C.world self.new.calls)
            ≡ with_file (site_files name_of (C.world self.old.calls)) file (overlay_bytes at bytes.now (site_files name_of (C.world self.old.calls) file))) }
        ensures torn { IsTrue C.tells → InFile file (Torn at (length bytes.now)) (site_files name_of (C.world self.old.calls)) (site_files name_of (C.world self.new.calls)) }
        ensures said { (C.world self.new.calls).said ≡ (C.world self.old.calls).said }
        ensures moments { Steps (OnDisk file (Torn at (length bytes.now))) (seen_clock name_of (C.clock self.old.calls)) (seen_clock name_of (C.clock self.new.calls)) }
        ensures nothing { at ≡ 0 → bytes.now ≡ [] → self.new ≡ self.old }
        ensures broken { OnOk result (C.broken self.new.calls ≡ false) }
    {
        if at == 0 && bytes.is_empty() {
            return Ok(());
        }
        let place = self.find_or_make(file)?;
        self.touch(place);
        write_all(&mut self.calls, &self.opened[place].file, at, bytes)
    }

    /// Keeps that a file is written or cut.
    fn touch(&mut self, place: usize)
        requires place { place < length self.old.opened.items }
        requires kept { IsTrue C.tells → KeepsFolder C.file self.old.opened.items self.old.made self.old.synced (C.world self.old.calls) (C.clock self.old.calls) }
        ensures kept { IsTrue C.tells → KeepsFolder C.file self.new.opened.items self.new.made self.new.synced (C.world self.new.calls) (C.clock self.new.calls) }
        ensures marked { (o : OpenedFile C.Handle) → slice_get self.old.opened.items place ≡ Some o → slice_get self.new.opened.items place ≡ Some (touch_file o) }
        ensures calls { self.new.calls ≡ self.old.calls }
        ensures made { self.new.made ≡ self.old.made }
        ensures synced { self.new.synced ≡ self.old.synced }
    {
        self.opened[place].touched = true;
    }

    /// Makes what was written and cut stable, and the names of the folder where files were made. The first sync takes all files.
    /// Answers Err where a call on the folder failed, or its listing doesn't end within `MOST_NAMES` turns.
    pub fn sync(&mut self) -> Result<(), Failed>
        requires broken { C.broken self.old.calls ≡ false }
        requires kept { IsTrue C.tells → KeepsFolder C.file self.old.opened.items self.old.made self.old.synced (C.world self.old.calls) (C.clock self.old.calls) }
        ensures kept { IsTrue C.tells → KeepsFolder C.file self.new.opened.items self.new.made self.new.synced (C.world self.new.calls) (C.clock self.new.calls) }
        ensures durable { OnOk result (IsTrue C.tells → Only (site_files name_of (C.world self.old.calls)) (seen_clock name_of (C.clock self.new.calls))) }
        ensures world { C.world self.new.calls ≡ C.world self.old.calls }
        ensures moments { Steps Unchanged (C.clock self.old.calls) (C.clock self.new.calls) }
        ensures broken { OnOk result (C.broken self.new.calls ≡ false) }
    {
        self.sync_present()?;
        self.sync_all_opened()?;
        self.sync_names()
    }

    /// Makes the bytes of each file of the folder stable, at the first sync.
    fn sync_present(&mut self) -> Result<(), Failed>
        requires broken { C.broken self.old.calls ≡ false }
        requires kept { IsTrue C.tells → KeepsFolder C.file self.old.opened.items self.old.made self.old.synced (C.world self.old.calls) (C.clock self.old.calls) }
        ensures kept { IsTrue C.tells → KeepsFolder C.file self.new.opened.items self.new.made self.new.synced (C.world self.new.calls) (C.clock self.new.calls) }
        ensures synced { OnOk result (IsTrue self.new.synced) }
        ensures world { C.world self.new.calls ≡ C.world self.old.calls }
        ensures moments { Steps Unchanged (C.clock self.old.calls) (C.clock self.new.calls) }
        ensures broken { OnOk result (C.broken self.new.calls ≡ false) }
    {
        if self.synced {
            return Ok(());
        }
        let mut names = self.calls.list()?;
        for _turn in 0..MOST_NAMES {
            if !self.sync_next(&mut names)? {
                self.synced = true;
                return Ok(());
            }
        }
        Err(Failed)
    }

    /// Takes the next name of a listing, and makes the bytes of its file stable where it is a database file's. False at the end.
    fn sync_next(&mut self, names: &mut C::Listing) -> Result<bool, Failed>
        requires broken { C.broken self.old.calls ≡ false }
        requires kept { IsTrue C.tells → KeepsFolder C.file self.old.opened.items self.old.made self.old.synced (C.world self.old.calls) (C.clock self.old.calls) }
        ensures kept { IsTrue C.tells → KeepsFolder C.file self.new.opened.items self.new.made self.new.synced (C.world self.new.calls) (C.clock self.new.calls) }
        ensures next { IfOk result (λ more. GoesOn more C.tells (C.listed names.old) (C.given names.old) (C.given names.new) (C.world self.old.calls) (C.world self.new.calls) (C.clock self.new.calls)) }
        ensures listed { IsTrue C.tells → C.listed names.new ≡ C.listed names.old }
        ensures opened { self.new.opened.items ≡ self.old.opened.items }
        ensures made { self.new.made ≡ self.old.made }
        ensures synced { self.new.synced ≡ self.old.synced }
        ensures world { C.world self.new.calls ≡ C.world self.old.calls }
        ensures moments { Steps Unchanged (C.clock self.old.calls) (C.clock self.new.calls) }
        ensures broken { OnOk result (C.broken self.new.calls ≡ false) }
    {
        match next_number(&mut self.calls, names)? {
            None => Ok(false),
            Some(None) => Ok(true),
            Some(Some(number)) => {
                self.sync_number(number)?;
                Ok(true)
            }
        }
    }

    /// Makes the bytes of a file stable, open or not.
    fn sync_number(&mut self, file: u32) -> Result<(), Failed>
        requires broken { C.broken self.old.calls ≡ false }
        requires kept { IsTrue C.tells → KeepsFolder C.file self.old.opened.items self.old.made self.old.synced (C.world self.old.calls) (C.clock self.old.calls) }
        ensures kept { IsTrue C.tells → KeepsFolder C.file self.new.opened.items self.new.made self.new.synced (C.world self.new.calls) (C.clock self.new.calls) }
        ensures stable { OnOk result (IsTrue C.tells → StableAt (C.world self.new.calls) (C.clock self.new.calls) file) }
        ensures opened { self.new.opened.items ≡ self.old.opened.items }
        ensures made { self.new.made ≡ self.old.made }
        ensures synced { self.new.synced ≡ self.old.synced }
        ensures world { C.world self.new.calls ≡ C.world self.old.calls }
        ensures moments { Steps Unchanged (C.clock self.old.calls) (C.clock self.new.calls) }
        ensures broken { OnOk result (C.broken self.new.calls ≡ false) }
    {
        let name = file_name(file);
        if let Some(handle) = self.calls.open(name.as_str())? {
            self.calls.fsync(&handle)?;
        }
        Ok(())
    }

    /// The greatest number of a file that isn't empty from `from` to `upto`, or 0.
    /// Answers Err where a call on the folder failed, or its listing doesn't end within `MOST_NAMES` turns.
    pub fn last_present(&mut self, from: u32, upto: u32) -> Result<u32, Failed>
        requires broken { C.broken self.old.calls ≡ false }
        requires kept { IsTrue C.tells → KeepsFolder C.file self.old.opened.items self.old.made self.old.synced (C.world self.old.calls) (C.clock self.old.calls) }
        ensures kept { IsTrue C.tells → KeepsFolder C.file self.new.opened.items self.new.made self.new.synced (C.world self.new.calls) (C.clock self.new.calls) }
        ensures bound { IfOk result (λ n. 0 < n → (from ≤ n) × (n ≤ upto)) }
        ensures found { IfOk result (λ n. IsTrue C.tells → IsLastPresent (site_files name_of (C.world self.old.calls)) from upto n) }
        ensures world { C.world self.new.calls ≡ C.world self.old.calls }
        ensures moments { Steps Unchanged (C.clock self.old.calls) (C.clock self.new.calls) }
        ensures broken { OnOk result (C.broken self.new.calls ≡ false) }
    {
        let mut names = self.calls.list()?;
        let mut last = 0;
        for _turn in 0..MOST_NAMES {
            match next_number(&mut self.calls, &mut names)? {
                None => return Ok(last),
                Some(found) => last = self.later(last, found, from, upto)?,
            }
        }
        Err(Failed)
    }

    /// The number found, where it is in the range, greater than the last one, and its file isn't empty, and else the last one.
    fn later(&mut self, last: u32, found: Option<u32>, from: u32, upto: u32) -> Result<u32, Failed>
        requires broken { C.broken self.old.calls ≡ false }
        requires kept { IsTrue C.tells → KeepsFolder C.file self.old.opened.items self.old.made self.old.synced (C.world self.old.calls) (C.clock self.old.calls) }
        ensures kept { IsTrue C.tells → KeepsFolder C.file self.new.opened.items self.new.made self.new.synced (C.world self.new.calls) (C.clock self.new.calls) }
        ensures bound { IfOk result (λ n. (n ≡ last) ⊎ ((from ≤ n) × (n ≤ upto))) }
        ensures later { IfOk result (λ n. IsTrue C.tells → MatchOption found (n ≡ last) (λ number. IsLater (site_files name_of (C.world self.old.calls)) from upto last number n)) }
        ensures world { C.world self.new.calls ≡ C.world self.old.calls }
        ensures moments { Steps Unchanged (C.clock self.old.calls) (C.clock self.new.calls) }
        ensures broken { OnOk result (C.broken self.new.calls ≡ false) }
    {
        let Some(number) = found else {
            return Ok(last);
        };
        if last < number && from <= number && number <= upto && self.length(number)? > 0 {
            return Ok(number);
        }
        Ok(last)
    }

    /// The length of a file in bytes, 0 where there is none. Answers Err where a call on the folder failed.
    pub fn length(&mut self, file: u32) -> Result<u64, Failed>
        requires broken { C.broken self.old.calls ≡ false }
        requires kept { IsTrue C.tells → KeepsFolder C.file self.old.opened.items self.old.made self.old.synced (C.world self.old.calls) (C.clock self.old.calls) }
        ensures kept { IsTrue C.tells → KeepsFolder C.file self.new.opened.items self.new.made self.new.synced (C.world self.new.calls) (C.clock self.new.calls) }
        ensures length { IfOk result (λ n. IsTrue C.tells → n ≡ length (site_files name_of (C.world self.old.calls) file)) }
        ensures world { C.world self.new.calls ≡ C.world self.old.calls }
        ensures moments { Steps Unchanged (C.clock self.old.calls) (C.clock self.new.calls) }
        ensures broken { OnOk result (C.broken self.new.calls ≡ false) }
    {
        match self.find(file)? {
            None => Ok(0),
            Some(place) => self.calls.size(&self.opened[place].file),
        }
    }

    /// Reads from a position on until the slice is full or the file ends. Answers Err where a call on the folder failed.
    pub fn read(&mut self, file: u32, at: u64, into: &mut [u8]) -> Result<usize, Failed>
        requires broken { C.broken self.old.calls ≡ false }
        requires kept { IsTrue C.tells → KeepsFolder C.file self.old.opened.items self.old.made self.old.synced (C.world self.old.calls) (C.clock self.old.calls) }
        requires bound { at + length into.old < 2 ^ 40 }
        ensures kept { IsTrue C.tells → KeepsFolder C.file self.new.opened.items self.new.made self.new.synced (C.world self.new.calls) (C.clock self.new.calls) }
        ensures bytes { IfOk result (λ n. IsTrue C.tells → IsReadInto at (site_files name_of (C.world self.old.calls) file) into.old into.new n) }
        ensures count { IfOk result (λ n. n ≤ length into.old) }
        ensures world { C.world self.new.calls ≡ C.world self.old.calls }
        ensures moments { Steps Unchanged (C.clock self.old.calls) (C.clock self.new.calls) }
        ensures broken { OnOk result (C.broken self.new.calls ≡ false) }
    {
        match self.find(file)? {
            None => Ok(0),
            Some(place) => read_full(&mut self.calls, &self.opened[place].file, at, into),
        }
    }

    /// Cuts a file to a length. Answers Err where a call on the folder failed.
    pub fn cut(&mut self, file: u32, len: u64) -> Result<(), Failed>
        requires broken { C.broken self.old.calls ≡ false }
        requires kept { IsTrue C.tells → KeepsFolder C.file self.old.opened.items self.old.made self.old.synced (C.world self.old.calls) (C.clock self.old.calls) }
        ensures kept { IsTrue C.tells → KeepsFolder C.file self.new.opened.items self.new.made self.new.synced (C.world self.new.calls) (C.clock self.new.calls) }
        ensures cut { OnOk result (IsTrue C.tells → site_files name_of (C.world self.new.calls)
            ≡ with_file (site_files name_of (C.world self.old.calls)) file (take len (site_files name_of (C.world self.old.calls) file))) }
        ensures torn { IsTrue C.tells → InFile file (Cut len) (site_files name_of (C.world self.old.calls)) (site_files name_of (C.world self.new.calls)) }
        ensures said { (C.world self.new.calls).said ≡ (C.world self.old.calls).said }
        ensures moments { Steps (OnDisk file (Cut len)) (seen_clock name_of (C.clock self.old.calls)) (seen_clock name_of (C.clock self.new.calls)) }
        ensures broken { OnOk result (C.broken self.new.calls ≡ false) }
    {
        match self.find(file)? {
            None => Ok(()),
            Some(place) => self.cut_opened(file, place, len),
        }
    }

    /// Cuts an open file to a length.
    fn cut_opened(&mut self, file: u32, place: usize, len: u64) -> Result<(), Failed>
        requires broken { C.broken self.old.calls ≡ false }
        requires kept { IsTrue C.tells → KeepsFolder C.file self.old.opened.items self.old.made self.old.synced (C.world self.old.calls) (C.clock self.old.calls) }
        requires place { IsAt self.old.opened.items place file }
        ensures kept { IsTrue C.tells → KeepsFolder C.file self.new.opened.items self.new.made self.new.synced (C.world self.new.calls) (C.clock self.new.calls) }
        ensures cut { OnOk result (IsTrue C.tells → site_files name_of (C.world self.new.calls)
            ≡ with_file (site_files name_of (C.world self.old.calls)) file (take len (site_files name_of (C.world self.old.calls) file))) }
        ensures torn { IsTrue C.tells → InFile file (Cut len) (site_files name_of (C.world self.old.calls)) (site_files name_of (C.world self.new.calls)) }
        ensures said { (C.world self.new.calls).said ≡ (C.world self.old.calls).said }
        ensures moments { Steps (OnDisk file (Cut len)) (seen_clock name_of (C.clock self.old.calls)) (seen_clock name_of (C.clock self.new.calls)) }
        ensures broken { OnOk result (C.broken self.new.calls ≡ false) }
    {
        if self.calls.size(&self.opened[place].file)? <= len {
            return Ok(());
        }
        self.touch(place);
        self.calls.ftruncate(&self.opened[place].file, len)
    }
}
