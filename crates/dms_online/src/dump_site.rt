//! A site of which the file of a dump is let be.

ghost use Rattle.std.specs.Prelude.{◌≡◌, ◌≢◌, ◌+◌, ◌↔◌, ℕ, IsTrue};
ghost use Rattle.dms_online.specs.Sites.{SameBut};

use dms_site::{Failed, Site};

/// A site that lets one file be: a write or a cut of it is refused, makes no call, and counts as one that failed. Each other call is that of the
/// site.
#[derive(Drop)]
pub struct DumpSite<S: Site> {
    pub site: S,
    /// The file that is let be, 0 for none.
    pub file: u32,
    /// How many calls were refused. It stays at 2^64 - 1.
    pub refused: u64,
}

impl<S: Site> Site for DumpSite<S> {
    ghost use Rattle.dms_online.specs.Sites.{but_again, but_then};

    ghost tells = { S.Site.tells };

    ghost tells_said = { S.Site.tells_said };

    ghost files = { λ s. S.Site.files s.site };

    ghost said = { λ s. S.Site.said s.site };

    ghost clock = { λ s. S.Site.clock s.site };

    ghost same_site = { λ a b. SameBut S.Site a.file a.site b.file b.site };

    ghost same_again = { λ s. but_again S.Site.same_again s.file s.site };

    ghost same_then = { λ r s t one two. but_then S.Site.same_then r.file r.site s.file s.site t.file t.site one two };

    ghost disk_faults = { λ s. S.Site.disk_faults s.site + s.refused };

    ghost say_faults = { λ s. S.Site.say_faults s.site };

    ghost may_stay = { λ s tells. S.Site.may_stay s.site tells };

    ghost now_said = { λ s x tells now. S.Site.now_said s.site x tells now };

    ghost counts_now = { λ s t x le now. S.Site.counts_now s.site t x le now };

    fn length(&mut self, file: u32) -> Result<u64, Failed> {
        self.site.length(file)
    }

    fn last_present(&mut self, from: u32, upto: u32) -> Result<u32, Failed> {
        self.site.last_present(from, upto)
    }

    fn read(&mut self, file: u32, at: u64, into: &mut [u8]) -> Result<usize, Failed> {
        self.site.read(file, at, into)
    }

    fn write_at(&mut self, file: u32, at: u64, bytes: &[u8]) -> Result<(), Failed> {
        if file == self.file {
            self.refused = self.refused.saturating_add(1);
            return Err(Failed);
        }
        self.site.write_at(file, at, bytes)
    }

    fn cut(&mut self, file: u32, len: u64) -> Result<(), Failed> {
        if file == self.file {
            self.refused = self.refused.saturating_add(1);
            return Err(Failed);
        }
        self.site.cut(file, len)
    }

    fn sync(&mut self) -> Result<(), Failed> {
        self.site.sync()
    }

    fn say(&mut self, bytes: &[u8]) -> Result<(), Failed> {
        self.site.say(bytes)
    }

    fn show(&mut self, done: u64, of: u64) {
        self.site.show(done, of)
    }
}
