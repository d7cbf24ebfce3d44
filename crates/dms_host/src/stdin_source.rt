ghost use Rattle.std.specs.Prelude.{◌≡◌, None};

use crate::trouble::{Subject, Trouble};
use dms_site::{Failed, Source};
use std::alloc::Global;
use std::io::Read;
use std::rt::Runtime;

/// So many bytes of an input are kept at most: a schema has no more.
const MOST_KEPT: usize = 1_000_000;

/// Standard input. It tells how often taking failed, and nothing of what is left.
#[derive(Drop)]
pub struct StdinSource<R> {
    rt: R,
    faults: u64,
    /// The first bytes that were taken, where they are kept and memory was there.
    kept: Option<Vec<u8>>,
    trouble: Option<Trouble>,
}

impl<R: Runtime> StdinSource<R> {
    /// The input of the program.
    pub fn new(rt: R) -> StdinSource<R>
        ensures faults { result.faults ≡ 0 }
    {
        StdinSource {
            rt,
            faults: 0,
            kept: None,
            trouble: None,
        }
    }

    /// The input of the program, whose first 1,000,000 bytes are kept as they are taken, unless memory is refused.
    pub fn keeping(rt: R, alloc: Global) -> StdinSource<R>
        ensures faults { result.faults ≡ 0 }
    {
        StdinSource {
            rt,
            faults: 0,
            kept: Some(Vec::new(alloc)),
            trouble: None,
        }
    }

    /// The bytes that were kept, and why taking failed, where it did.
    pub fn end(self) -> (Option<Vec<u8>>, Option<Trouble>) {
        (self.kept, self.trouble)
    }

    /// Keeps bytes, as far as there is room for them.
    fn keep(&mut self, bytes: &[u8])
        ensures faults { self.new.faults ≡ self.old.faults }
    {
        let refused = match &mut self.kept {
            None => false,
            Some(kept) => {
                let room = MOST_KEPT.saturating_sub(kept.len());
                let count = bytes.len().min(room);
                kept.extend_from_slice(&bytes[..count]).is_err()
            }
        };
        if refused {
            self.kept = None;
        }
    }
}

impl<R: Runtime> Source for StdinSource<R> {
    ghost left = { λ s. None };

    ghost same_source = { λ a b. Unit {0} };

    ghost same_again = { λ s. tt };

    ghost same_then = { λ r s t one two. tt };

    ghost faults = { λ s. s.faults };

    fn take(&mut self, into: &mut [u8]) -> Result<usize, Failed> {
        match self.rt.reader().read(into) {
            Ok(count) => {
                self.keep(&into[..count]);
                Ok(count)
            }
            Err(e) => {
                self.trouble = Some(Trouble::new(Subject::Input, e));
                self.faults = self.faults.saturating_add(1);
                Err(Failed)
            }
        }
    }
}
