//! The site of a load: nothing is printed on it, and the answers show how far the load is.

ghost use Rattle.std.specs.Prelude.{◌≡◌, [], false};
ghost use Rattle.dms_load.specs.Muting.{SameMuted};

use dms_site::{Failed, Site};

/// A site on which nothing is printed: each other call is that of the site. It tells no text. What is said is dropped, but the number
/// with which an answer begins is shown as that of the line that is done.
#[derive(Drop)]
pub struct MuteSite<S: Site> {
    pub site: S,
    /// How many lines the script has.
    pub lines: u64,
}

/// The number with which a text begins, 0 where it begins with none. It stays at 2^64 - 1.
fn first_number(bytes: &[u8]) -> u64 {
    let mut number: u64 = 0;
    for byte in bytes {
        if !byte.is_ascii_digit() {
            return number;
        }
        let digit = byte.saturating_sub(b'0');
        number = number.saturating_mul(10).saturating_add(u64::from(digit));
    }
    number
}

impl<S: Site> Site for MuteSite<S> {
    ghost use Rattle.dms_load.specs.MutingLaws.{muted_again, muted_then, untold};

    ghost tells = { S.Site.tells };

    ghost tells_said = { false };

    ghost files = { λ s. S.Site.files s.site };

    ghost said = { λ s. [] };

    ghost clock = { λ s. S.Site.clock s.site };

    ghost same_site = { λ a b. SameMuted S.Site a.site b.site };

    ghost same_again = { λ s. muted_again S.Site.same_again s.site };

    ghost same_then = { λ r s t one two. muted_then S.Site.same_then r.site s.site t.site one two };

    ghost disk_faults = { λ s. S.Site.disk_faults s.site };

    ghost say_faults = { λ s. 0 };

    ghost may_stay = { λ s tells. S.Site.may_stay s.site tells };

    ghost now_said = { λ s x tells now. untold tells };

    ghost counts_now = { λ s t x le now. S.Site.counts_now s.site t x le now };

    fn length(&mut self, file: u32) -> Result<u64, Failed> {
        self.site.length(file)
    }

    fn last_present(&mut self, from: u32, upto: u32) -> Result<u32, Failed> {
        self.site.last_present(from, upto)
    }

    fn read(&mut self, file: u32, at: u64, into: &mut [u8]) -> Result<usize, Failed> {
        self.site.read(file, at, into)
    }

    fn write_at(&mut self, file: u32, at: u64, bytes: &[u8]) -> Result<(), Failed> {
        self.site.write_at(file, at, bytes)
    }

    fn cut(&mut self, file: u32, len: u64) -> Result<(), Failed> {
        self.site.cut(file, len)
    }

    fn sync(&mut self) -> Result<(), Failed> {
        self.site.sync()
    }

    fn say(&mut self, bytes: &[u8]) -> Result<(), Failed> {
        let line = first_number(bytes);
        if line > 0 {
            self.site.show(line, self.lines);
        }
        Ok(())
    }

    fn show(&mut self, done: u64, of: u64) {
        self.site.show(done, of)
    }
}
