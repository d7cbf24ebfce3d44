ghost use Rattle.std.specs.Prelude.{IsTrue, ◌≡◌, ◌+◌, ◌^◌, ◌<◌, ◌≤◌, ℕ, Bool, false, List, [], ◌∷◌, ◌++◌, length, take, drop, IfOk, OnOk, Some, None, MatchOption};
ghost use Rattle.std.specs.declared.option.Option.{Option};
ghost use Rattle.dms_moments.specs.Moments.{Clock, Now, Steps};
ghost use Rattle.dms_site.specs.Files.{range, overlay_bytes, pad_zeros, Torn, Cut};
ghost use Rattle.dms_calls.specs.Names.{IsFileName};
ghost use Rattle.dms_calls.specs.World.{World, Unchanged, OnFile, MakesSome, Speaks, StableFile, StableNames, AllGiven};

use dms_site::Failed;

/// The system calls on the files of one folder, and on an output.
///
/// Once a call on the files failed nothing more is promised of them, and none may be made.
pub trait Calls {
    /// An open file.
    type Handle: Drop;

    /// A listing of the folder that is under way.
    type Listing: Drop;

    /// Whether this kind of calls tells its files.
    ghost tells: { Bool };

    /// The file that is open.
    ghost file: { Self.Handle → ℕ };

    /// The names that a listing has given so far.
    ghost given: { Self.Listing → List (List ℕ) };

    /// The names of the folder when a listing began.
    ghost listed: { Self.Listing → List ℕ → Option ℕ };

    /// What calls see.
    ghost world: { Self → World };

    /// What a stop may leave.
    ghost clock: { Self → Clock World };

    /// Whether a call on the files has failed.
    ghost broken: { Self → Bool };

    /// Opens the file of a name, None where there is none.
    fn open(&mut self, name: &str) -> Result<Option<Self::Handle>, Failed>
        requires broken { broken self.old ≡ false }
        requires file { IsFileName name.now }
        ensures found { IfOk result (λ o. IsTrue tells → MatchOption o ((world self.old).names name.now ≡ None) (λ h. (world self.old).names name.now ≡ Some (file h))) }
        ensures world { world self.new ≡ world self.old }
        ensures moments { Steps Unchanged (clock self.old) (clock self.new) }
        ensures broken { OnOk result (broken self.new ≡ false) };

    /// Makes the file of a name that has none, and opens it. The name is stable only after the folder's sync.
    fn create(&mut self, name: &str) -> Result<Self::Handle, Failed>
        requires broken { broken self.old ≡ false }
        requires file { IsFileName name.now }
        requires absent { IsTrue tells → (world self.old).names name.now ≡ None }
        ensures made { MakesSome tells name.now (world self.old) (world self.new) (clock self.old) (clock self.new) (λ i.
            IfOk result (λ h. IsTrue tells → (file h ≡ i) × ((world self.new).names name.now ≡ Some i))) }
        ensures said { (world self.new).said ≡ (world self.old).said }
        ensures broken { OnOk result (broken self.new ≡ false) };

    /// The length of a file.
    fn size(&mut self, handle: &Self::Handle) -> Result<u64, Failed>
        requires broken { broken self.old ≡ false }
        ensures size { IfOk result (λ n. IsTrue tells → n ≡ length ((world self.old).bytes (file handle.now))) }
        ensures world { world self.new ≡ world self.old }
        ensures moments { Steps Unchanged (clock self.old) (clock self.new) }
        ensures broken { OnOk result (broken self.new ≡ false) };

    /// Reads some of the bytes from a position on, none only at the end or where there is no room.
    fn pread(&mut self, handle: &Self::Handle, at: u64, into: &mut [u8]) -> Result<usize, Failed>
        requires broken { broken self.old ≡ false }
        requires bound { at + length into.old < 2 ^ 63 }
        ensures count { IfOk result (λ n. n ≤ length into.old) }
        ensures within { IfOk result (λ n. IsTrue tells → n ≤ length (range at (length into.old) ((world self.old).bytes (file handle.now)))) }
        ensures some { IfOk result (λ n. IsTrue tells → n ≡ 0 → range at (length into.old) ((world self.old).bytes (file handle.now)) ≡ []) }
        ensures bytes { IfOk result (λ n. IsTrue tells → into.new ≡ range at n ((world self.old).bytes (file handle.now)) ++ drop n into.old) }
        ensures world { world self.new ≡ world self.old }
        ensures moments { Steps Unchanged (clock self.old) (clock self.new) }
        ensures broken { OnOk result (broken self.new ≡ false) };

    /// Writes some of the bytes from a position on, from the first on. A gap before them is filled with zeros.
    fn pwrite(&mut self, handle: &Self::Handle, at: u64, bytes: &[u8]) -> Result<usize, Failed>
        requires broken { broken self.old ≡ false }
        requires bound { at + length bytes.now < 2 ^ 63 }
        ensures count { IfOk result (λ n. n ≤ length bytes.now) }
        ensures written { IfOk result (λ n. IsTrue tells → 0 < n → (world self.new).bytes (file handle.now) ≡ overlay_bytes at (take n bytes.now) ((world self.old).bytes (file handle.now))) }
        ensures torn { OnFile (file handle.now) (Torn at (length bytes.now)) (world self.old) (world self.new) }
        ensures moments { Steps (OnFile (file handle.now) (Torn at (length bytes.now))) (clock self.old) (clock self.new) }
        ensures broken { OnOk result (broken self.new ≡ false) };

    /// Gives a file a length: cuts off what is behind it, or adds zeros, of which a stop may leave a part or other bytes.
    fn ftruncate(&mut self, handle: &Self::Handle, len: u64) -> Result<(), Failed>
        requires broken { broken self.old ≡ false }
        ensures resized { OnOk result (IsTrue tells → (world self.new).bytes (file handle.now) ≡ take len (pad_zeros ((world self.old).bytes (file handle.now)) len)) }
        ensures cut { (IsTrue tells → len ≤ length ((world self.old).bytes (file handle.now))) → OnFile (file handle.now) (Cut len) (world self.old) (world self.new) }
        ensures cut_moments { (IsTrue tells → len ≤ length ((world self.old).bytes (file handle.now))) → Steps (OnFile (file handle.now) (Cut len)) (clock self.old) (clock self.new) }
        ensures grown { (IsTrue tells → length ((world self.old).bytes (file handle.now)) ≤ len) → OnFile (file handle.now) (Torn len 0) (world self.old) (world self.new) }
        ensures grown_moments { (IsTrue tells → length ((world self.old).bytes (file handle.now)) ≤ len) → Steps (OnFile (file handle.now) (Torn len 0)) (clock self.old) (clock self.new) }
        ensures broken { OnOk result (broken self.new ≡ false) };

    /// Makes the bytes of a file stable, and not its name.
    fn fsync(&mut self, handle: &Self::Handle) -> Result<(), Failed>
        requires broken { broken self.old ≡ false }
        ensures stable { OnOk result (StableFile (file handle.now) ((world self.old).bytes (file handle.now)) (clock self.new)) }
        ensures world { world self.new ≡ world self.old }
        ensures moments { Steps Unchanged (clock self.old) (clock self.new) }
        ensures broken { OnOk result (broken self.new ≡ false) };

    /// Makes the names of the folder stable, and not the bytes of their files.
    fn fsync_folder(&mut self) -> Result<(), Failed>
        requires broken { broken self.old ≡ false }
        ensures stable { OnOk result (StableNames (world self.old).names (clock self.new)) }
        ensures world { world self.new ≡ world self.old }
        ensures moments { Steps Unchanged (clock self.old) (clock self.new) }
        ensures broken { OnOk result (broken self.new ≡ false) };

    /// Begins to list the names of the folder.
    fn list(&mut self) -> Result<Self::Listing, Failed>
        requires broken { broken self.old ≡ false }
        ensures begun { IfOk result (λ l. IsTrue tells → (given l ≡ []) × (listed l ≡ (world self.old).names)) }
        ensures world { world self.new ≡ world self.old }
        ensures moments { Steps Unchanged (clock self.old) (clock self.new) }
        ensures broken { OnOk result (broken self.new ≡ false) };

    /// Gives the next name of a listing, in any order, and its length in bytes, 0 at the end. No name is empty, and none has
    /// more than 255 bytes.
    fn next_name(&mut self, listing: &mut Self::Listing, into: &mut [u8]) -> Result<usize, Failed>
        requires broken { broken self.old ≡ false }
        requires room { 255 ≤ length into.old }
        ensures count { IfOk result (λ n. n ≤ length into.new) }
        ensures next { IfOk result (λ n. IsTrue tells → 0 < n → given listing.new ≡ given listing.old ++ take n into.new ∷ []) }
        ensures all { IfOk result (λ n. IsTrue tells → n ≡ 0 → AllGiven (listed listing.old) (world self.old).names (given listing.old)) }
        ensures listed { IsTrue tells → listed listing.new ≡ listed listing.old }
        ensures world { world self.new ≡ world self.old }
        ensures moments { Steps Unchanged (clock self.old) (clock self.new) }
        ensures broken { OnOk result (broken self.new ≡ false) };

    /// Prints some of the bytes, from the first on.
    fn print(&mut self, bytes: &[u8]) -> Result<usize, Failed>
        ensures count { IfOk result (λ n. n ≤ length bytes.now) }
        ensures said { IfOk result (λ n. IsTrue tells → (world self.new).said ≡ (world self.old).said ++ take n bytes.now) }
        ensures some { Speaks bytes.now (world self.old) (world self.new) }
        ensures moments { Steps (Speaks bytes.now) (clock self.old) (clock self.new) }
        ensures broken { broken self.new ≡ broken self.old };

    /// Shows a person how far a long command is: so many lines of so many.
    fn show(&mut self, done: u64, of: u64)
        ensures world { world self.new ≡ world self.old }
        ensures moments { Steps Unchanged (clock self.old) (clock self.new) }
        ensures broken { broken self.new ≡ broken self.old };

    /// What calls see is one of the things that a stop may leave.
    ghost may_stay: { (s : Self) → IsTrue tells → Now (clock s) (world s) };

    /// What a stop may leave is told by calls that tell alone.
    ghost told: { (s : Self) (w : World) → Now (clock s) w → IsTrue tells };

    /// A stop now leaves the text that was printed so far.
    ghost now_said: { (s : Self) (w : World) → Now (clock s) w → w.said ≡ (world s).said };

    /// What a stop now may leave counts among what a stop since an earlier moment may leave.
    ghost counts_now: { (s : Self) (t : ℕ) (w : World) → t ≤ (clock s).now → Now (clock s) w → (clock s).left t w };

    /// A file that has a name has no second one, also where a stop leaves it.
    ghost one_name: { (s : Self) (w : World) (m n : List ℕ) (i : ℕ) → Now (clock s) w → w.names m ≡ Some i → (world s).names n ≡ Some i → m ≡ n };
}
