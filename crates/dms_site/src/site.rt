ghost use Rattle.std.specs.Prelude.{◌≡◌, ◌+◌, ◌^◌, ◌<◌, ◌≤◌, ℕ, Bool, List, ◌++◌, length, take, drop, IfOk, OnOk, IsTrue};
ghost use Rattle.dms_base.specs.Causes.{HasCause};
ghost use Rattle.dms_moments.specs.Moments.{Clock, Now, Steps};
ghost use Rattle.dms_site.specs.Files.{Files, Left, with_file, range, overlay_bytes, InFile, Torn, Cut, OnDisk, PrintsPartOf, Same, Only, IsLastPresent};

/// A call of the outside failed.
#[derive(Clone, Copy, Debug, PartialEq, Eq)]
pub struct Failed;

/// Files named by a number, and a text output.
///
/// A file that doesn't exist has length 0, and a file is present where its length isn't 0. Positions and lengths are in
/// bytes and stay below 2^40.
pub trait Site {
    /// Whether this kind of site tells its files.
    ghost tells: { Bool };

    /// Whether this kind of site tells what was printed.
    ghost tells_said: { Bool };

    /// What a read gives.
    ghost files: { Self → Files };

    /// The text that was printed so far.
    ghost said: { Self → List ℕ };

    /// What a stop may leave. One clock serves files and text.
    ghost clock: { Self → Clock Left };

    /// The same site, whatever it holds: for a site that is lent, the same reference.
    ghost same_site: { Self → Self → Type 0 };

    /// How often a call on the files has failed. It stays at 2^64 - 1.
    ghost disk_faults: { Self → ℕ };

    /// How often printing has failed. It stays at 2^64 - 1.
    ghost say_faults: { Self → ℕ };

    /// The length of a file.
    fn length(&mut self, file: u32) -> Result<u64, Failed>
        ensures length { IfOk result (λ n. IsTrue tells → n ≡ length (files self.old file)) }
        ensures files { IsTrue tells → files self.new ≡ files self.old }
        ensures said { said self.new ≡ said self.old }
        ensures same_site { same_site self.old self.new }
        ensures moments { Steps Same (clock self.old) (clock self.new) }
        ensures faults { HasCause (disk_faults self.old) (disk_faults self.new) result }
        ensures say_faults { say_faults self.new ≡ say_faults self.old };

    /// The greatest number of a present file from `from` to `upto`, both included, or 0 where none is present there.
    fn last_present(&mut self, from: u32, upto: u32) -> Result<u32, Failed>
        ensures bound { IfOk result (λ n. 0 < n → (from ≤ n) × (n ≤ upto)) }
        ensures found { IfOk result (λ n. IsTrue tells → IsLastPresent (files self.old) from upto n) }
        ensures files { IsTrue tells → files self.new ≡ files self.old }
        ensures said { said self.new ≡ said self.old }
        ensures same_site { same_site self.old self.new }
        ensures moments { Steps Same (clock self.old) (clock self.new) }
        ensures faults { HasCause (disk_faults self.old) (disk_faults self.new) result }
        ensures say_faults { say_faults self.new ≡ say_faults self.old };

    /// Reads from a position on as many bytes as stand there, at most those that `into` has room for, and answers how many.
    fn read(&mut self, file: u32, at: u64, into: &mut [u8]) -> Result<usize, Failed>
        requires { at + length into.old < 2 ^ 40 }
        ensures count { IfOk result (λ n. n ≤ length into.old) }
        ensures bytes { IfOk result (λ n. IsTrue tells → (n ≡ length (range at (length into.old) (files self.old file)))
            × (into.new ≡ range at (length into.old) (files self.old file) ++ drop n into.old)) }
        ensures files { IsTrue tells → files self.new ≡ files self.old }
        ensures said { said self.new ≡ said self.old }
        ensures same_site { same_site self.old self.new }
        ensures moments { Steps Same (clock self.old) (clock self.new) }
        ensures faults { HasCause (disk_faults self.old) (disk_faults self.new) result }
        ensures say_faults { say_faults self.new ≡ say_faults self.old };

    /// Writes bytes from a position on. A gap before them is filled with zeros.
    ///
    /// Until the next sync a stop may leave any bytes in the range and past the old end. A failed write counts as one that
    /// wrote any bytes.
    fn write_at(&mut self, file: u32, at: u64, bytes: &[u8]) -> Result<(), Failed>
        requires { at + length bytes.now < 2 ^ 40 }
        ensures written { OnOk result (IsTrue tells → files self.new ≡ with_file (files self.old) file (overlay_bytes at bytes.now (files self.old file))) }
        ensures torn { IsTrue tells → InFile file (Torn at (length bytes.now)) (files self.old) (files self.new) }
        ensures said { said self.new ≡ said self.old }
        ensures same_site { same_site self.old self.new }
        ensures moments { Steps (OnDisk file (Torn at (length bytes.now))) (clock self.old) (clock self.new) }
        ensures faults { HasCause (disk_faults self.old) (disk_faults self.new) result }
        ensures say_faults { say_faults self.new ≡ say_faults self.old };

    /// Cuts a file to a length. A cut to a greater length does nothing.
    ///
    /// Until the next sync a stop may leave the file cut or not. A failed cut may have happened or not.
    fn cut(&mut self, file: u32, len: u64) -> Result<(), Failed>
        ensures cut { OnOk result (IsTrue tells → files self.new ≡ with_file (files self.old) file (take len (files self.old file))) }
        ensures torn { IsTrue tells → InFile file (Cut len) (files self.old) (files self.new) }
        ensures said { said self.new ≡ said self.old }
        ensures same_site { same_site self.old self.new }
        ensures moments { Steps (OnDisk file (Cut len)) (clock self.old) (clock self.new) }
        ensures faults { HasCause (disk_faults self.old) (disk_faults self.new) result }
        ensures say_faults { say_faults self.new ≡ say_faults self.old };

    /// Makes all that was written and cut stable: after it a stop leaves what a read gives. A failed sync makes nothing stable.
    fn sync(&mut self) -> Result<(), Failed>
        ensures durable { OnOk result (IsTrue tells → Only (files self.old) (clock self.new)) }
        ensures files { IsTrue tells → files self.new ≡ files self.old }
        ensures said { said self.new ≡ said self.old }
        ensures same_site { same_site self.old self.new }
        ensures moments { Steps Same (clock self.old) (clock self.new) }
        ensures faults { HasCause (disk_faults self.old) (disk_faults self.new) result }
        ensures say_faults { say_faults self.new ≡ say_faults self.old };

    /// Prints bytes. Where it fails the first of them may have been printed.
    fn say(&mut self, bytes: &[u8]) -> Result<(), Failed>
        ensures said { OnOk result (IsTrue tells_said → said self.new ≡ said self.old ++ bytes.now) }
        ensures some_said { IsTrue tells_said → (k : ℕ) × (said self.new ≡ said self.old ++ take k bytes.now) }
        ensures files { IsTrue tells → files self.new ≡ files self.old }
        ensures same_site { same_site self.old self.new }
        ensures moments { Steps (PrintsPartOf bytes.now) (clock self.old) (clock self.new) }
        ensures faults { HasCause (say_faults self.old) (say_faults self.new) result }
        ensures disk_faults { disk_faults self.new ≡ disk_faults self.old };

    /// Shows a person how far a long command is: so many lines of so many. Nothing else changes by it.
    fn show(&mut self, done: u64, of: u64)
        ensures files { IsTrue tells → files self.new ≡ files self.old }
        ensures said { said self.new ≡ said self.old }
        ensures same_site { same_site self.old self.new }
        ensures moments { Steps Same (clock self.old) (clock self.new) }
        ensures disk_faults { disk_faults self.new ≡ disk_faults self.old }
        ensures say_faults { say_faults self.new ≡ say_faults self.old };

    ghost same_again: { (s : Self) → same_site s s };

    ghost same_then: { (r s t : Self) → same_site r s → same_site s t → same_site r t };

    /// What is read is one of the things that a stop may leave.
    ghost may_stay: { (s : Self) → IsTrue tells → (x : Left) × Now (clock s) x × (x.files ≡ files s) };

    /// A stop now leaves the text that was printed so far.
    ghost now_said: { (s : Self) (x : Left) → IsTrue tells_said → Now (clock s) x → x.said ≡ said s };

    /// What a stop now may leave counts among what a stop since an earlier moment may leave.
    ghost counts_now: { (s : Self) (t : ℕ) (x : Left) → t ≤ (clock s).now → Now (clock s) x → (clock s).left t x };
}
