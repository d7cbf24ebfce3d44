ghost use Rattle.std.specs.Prelude.{◌≡◌, refl};
ghost use Rattle.std.proofs.Common.{◌∙◌};

use crate::{Failed, Site, Source};

impl<S: Site> Site for &mut S {
    ghost tells = { S.Site.tells };

    ghost tells_said = { S.Site.tells_said };

    ghost files = { λ s. S.Site.files s.now };

    ghost said = { λ s. S.Site.said s.now };

    ghost clock = { λ s. S.Site.clock s.now };

    ghost same_site = { λ a b. (a.ghost_name ≡ b.ghost_name) × S.Site.same_site a.now b.now };

    ghost same_again = { λ s. (refl, S.Site.same_again s.now) };

    ghost same_then = { λ r s t one two. (one.0 ∙ two.0, S.Site.same_then r.now s.now t.now one.1 two.1) };

    ghost disk_faults = { λ s. S.Site.disk_faults s.now };

    ghost say_faults = { λ s. S.Site.say_faults s.now };

    ghost may_stay = { λ s tells. S.Site.may_stay s.now tells };

    ghost now_said = { λ s x tells now. S.Site.now_said s.now x tells now };

    ghost counts_now = { λ s t x le now. S.Site.counts_now s.now t x le now };

    fn length(&mut self, file: u32) -> Result<u64, Failed> {
        (**self).length(file)
    }

    fn last_present(&mut self, from: u32, upto: u32) -> Result<u32, Failed> {
        (**self).last_present(from, upto)
    }

    fn read(&mut self, file: u32, at: u64, into: &mut [u8]) -> Result<usize, Failed> {
        (**self).read(file, at, into)
    }

    fn write_at(&mut self, file: u32, at: u64, bytes: &[u8]) -> Result<(), Failed> {
        (**self).write_at(file, at, bytes)
    }

    fn cut(&mut self, file: u32, len: u64) -> Result<(), Failed> {
        (**self).cut(file, len)
    }

    fn sync(&mut self) -> Result<(), Failed> {
        (**self).sync()
    }

    fn say(&mut self, bytes: &[u8]) -> Result<(), Failed> {
        (**self).say(bytes)
    }

    fn show(&mut self, done: u64, of: u64) {
        (**self).show(done, of)
    }
}

impl<I: Source> Source for &mut I {
    ghost left = { λ s. I.Source.left s.now };

    ghost same_source = { λ a b. (a.ghost_name ≡ b.ghost_name) × I.Source.same_source a.now b.now };

    ghost same_again = { λ s. (refl, I.Source.same_again s.now) };

    ghost same_then = { λ r s t one two. (one.0 ∙ two.0, I.Source.same_then r.now s.now t.now one.1 two.1) };

    ghost faults = { λ s. I.Source.faults s.now };

    fn take(&mut self, into: &mut [u8]) -> Result<usize, Failed> {
        (**self).take(into)
    }
}
