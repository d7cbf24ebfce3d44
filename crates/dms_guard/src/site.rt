//! The site of a command: of it only audit files and the files of its structures are written, and its files are told only where it is known what they stand for.

ghost use Rattle.std.specs.Prelude.{◌↔◌, ◌+◌, ◌&&◌, Bool, true, IsTrue};
ghost use Rattle.dms_guard.specs.Both.{second_of};
ghost use Rattle.dms_guard.specs.Guard.{IsBeside, SameGuarded};

use dms_site::{Failed, Site};
use std::marker::{Brand, PhantomData};

/// Whether what the files stand for is known.
pub trait Knows {
    ghost known: { Bool };
}

impl Knows for Brand {
    ghost known = { true };
}

/// Whether a file is neither an audit file nor one of so many structure files.
fn is_beside(file: u32, structures: u8) -> bool
    ensures { IsTrue result ↔ IsBeside structures file }
{
    file <= 10_000 || (file > 20_000 && file <= 30_000) || file > 30_000 + u32::from(structures)
}

/// A site of which only audit files are written, and the files of so many structures: a write or a cut of another file is refused and makes no call, and
/// counts as one that failed. Each other call is that of the site. Its files are told only where it is known what they stand for.
#[derive(Drop)]
pub struct RunSite<S: Site, K: Knows> {
    pub site: S,
    /// How many structure files are written, from 30,001 on; at most 200.
    pub structures: u8,
    /// How many calls were refused. It stays at 2^64 - 1.
    pub refused: u64,
    pub by: PhantomData<K>,
}

impl<S: Site, K: Knows> Site for RunSite<S, K> {
    ghost use Rattle.dms_guard.specs.GuardLaws.{guarded_again, guarded_then};

    ghost tells = { K.known && S.Site.tells };

    ghost tells_said = { S.Site.tells_said };

    ghost files = { λ s. S.Site.files s.site };

    ghost said = { λ s. S.Site.said s.site };

    ghost clock = { λ s. S.Site.clock s.site };

    ghost same_site = { λ a b. SameGuarded S.Site a.structures a.site b.structures b.site };

    ghost same_again = { λ s. guarded_again S.Site.same_again s.structures s.site };

    ghost same_then = { λ r s t one two. guarded_then S.Site.same_then r.structures r.site s.structures s.site t.structures t.site one two };

    ghost disk_faults = { λ s. S.Site.disk_faults s.site + s.refused };

    ghost say_faults = { λ s. S.Site.say_faults s.site };

    ghost may_stay = { λ s tells. S.Site.may_stay s.site (second_of K.known S.Site.tells tells) };

    ghost now_said = { λ s x tells now. S.Site.now_said s.site x tells now };

    ghost counts_now = { λ s t x le now. S.Site.counts_now s.site t x le now };

    fn length(&mut self, file: u32) -> Result<u64, Failed> {
        self.site.length(file)
    }

    fn last_present(&mut self, from: u32, upto: u32) -> Result<u32, Failed> {
        self.site.last_present(from, upto)
    }

    fn read(&mut self, file: u32, at: u64, into: &mut [u8]) -> Result<usize, Failed> {
        self.site.read(file, at, into)
    }

    fn write_at(&mut self, file: u32, at: u64, bytes: &[u8]) -> Result<(), Failed> {
        if is_beside(file, self.structures) {
            self.refused = self.refused.saturating_add(1);
            return Err(Failed);
        }
        self.site.write_at(file, at, bytes)
    }

    fn cut(&mut self, file: u32, len: u64) -> Result<(), Failed> {
        if is_beside(file, self.structures) {
            self.refused = self.refused.saturating_add(1);
            return Err(Failed);
        }
        self.site.cut(file, len)
    }

    fn sync(&mut self) -> Result<(), Failed> {
        self.site.sync()
    }

    fn say(&mut self, bytes: &[u8]) -> Result<(), Failed> {
        self.site.say(bytes)
    }

    fn show(&mut self, done: u64, of: u64) {
        self.site.show(done, of)
    }
}
