ghost use Rattle.std.specs.Prelude.{◌≡◌, ◌⊎◌, ◌<◌, Some, length};
ghost use Rattle.dms_load.specs.Left.{left_of};
ghost use Rattle.dms_load.specs.Script.{script_lines};

use crate::source::LoadSource;
use crate::state::LoadState;
use arrayvec::ArrayString;
use dms_site::{Failed, Source};

impl LoadSource {
    /// The first so many lines of the script of a seed, the four among them that open the database.
    pub fn new(seed: u64, lines: u32) -> LoadSource
        ensures left { left_of result ≡ script_lines seed lines }
    {
        LoadSource {
            state: LoadState::new(seed),
            behind: lines,
            line: ArrayString::new(),
            place: 0,
        }
    }

    /// Writes the next line where the one that is held was taken whole, and there is one.
    fn refill(&mut self)
        ensures left { left_of self.new ≡ left_of self.old }
        ensures some { (self.new.place < length self.new.line.bytes) ⊎ (self.new.behind ≡ 0) }
    {
        if self.place == self.line.len() && self.behind > 0 {
            let line = self.state.next_line();
            self.place = 0;
            self.line = line;
            self.behind -= 1;
        }
    }
}

impl Source for LoadSource {
    ghost left = { λ s. Some (left_of s) };

    ghost same_source = { λ a b. Unit {0} };

    ghost same_again = { λ s. tt };

    ghost same_then = { λ r s t one two. tt };

    ghost faults = { λ s. 0 };

    fn take(&mut self, into: &mut [u8]) -> Result<usize, Failed> {
        self.refill();
        let rest = &self.line.as_str().as_bytes()[self.place..];
        let count = rest.len().min(into.len());
        into[..count].copy_from_slice(&rest[..count]);
        self.place += count;
        Ok(count)
    }
}
