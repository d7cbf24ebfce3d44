ghost use Rattle.std.specs.Prelude.{◌≡◌, ◌≢◌, ◌+◌, ◌-◌, ◌^◌, ◌≤◌, ◌<◌, ◌↔◌, ◌==◌, length, Some, drop, min, IsTrue, IsErr, IfOk};
ghost use Rattle.std.specs.List.{list_any};
ghost use Rattle.std.specs.Io.KnownBytes.{ReadConsumes};
ghost use Rattle.dms_base.specs.Causes.{HasCause};

use dms_site::{Failed, Source};

/// A source over bytes in memory, which tells what is left. Takes are numbered from 1.
#[derive(Drop)]
pub struct MemSource {
    bytes: Vec<u8>,
    place: usize,
    fails: Vec<u64>,
    piece: usize,
    /// How many takes there were. It stays at 2^64 - 1.
    takes: u64,
    faults: u64,
    ghost within: { place ≤ length bytes.items },
    ghost some_piece: { 0 < piece },
}

impl MemSource {
    /// A source that gives at most `piece` bytes in one take. The takes whose numbers are listed fail, and no others.
    pub fn new(bytes: Vec<u8>, fails: Vec<u64>, piece: usize) -> MemSource
        requires { piece ≢ 0 }
        ensures bytes { result.bytes.items ≡ bytes.items }
        ensures place { result.place ≡ 0 }
        ensures fails { result.fails.items ≡ fails.items }
        ensures piece { result.piece ≡ piece }
        ensures takes { result.takes ≡ 0 }
        ensures faults { result.faults ≡ 0 }
    {
        MemSource {
            bytes,
            place: 0,
            fails,
            piece,
            takes: 0,
            faults: 0,
        }
    }
}

impl Source for MemSource {
    ghost left = { λ s. Some (drop s.place s.bytes.items) };

    ghost same_source = { λ a b. Unit {0} };

    ghost same_again = { λ s. tt };

    ghost same_then = { λ r s t one two. tt };

    ghost faults = { λ s. s.faults };

    fn take(&mut self, into: &mut [u8]) -> Result<usize, Failed>
        requires { 0 < length into.old }
        ensures bound { IfOk result (λ n. n ≤ length into.new) }
        ensures bytes { ReadConsumes (Some (drop self.old.place self.old.bytes.items)) (Some (drop self.new.place self.new.bytes.items)) result into.new }
        ensures same { Unit {0} }
        ensures cause { HasCause self.old.faults self.new.faults result }
        ensures count { IfOk result (λ n. n ≡ min (min (length self.old.bytes.items - self.old.place) (length into.old)) self.old.piece) }
        ensures fails { IsErr result ↔ IsTrue (list_any (λ n. n == self.new.takes) self.old.fails.items) }
        ensures takes { self.new.takes ≡ min (self.old.takes + 1) (2 ^ 64 - 1) }
        ensures plan { (self.new.fails ≡ self.old.fails) × (self.new.piece ≡ self.old.piece) }
    {
        self.takes = self.takes.saturating_add(1);
        if self.fails.contains(&self.takes) {
            self.faults = self.faults.saturating_add(1);
            return Err(Failed);
        }
        let rest = &self.bytes[self.place..];
        let count = rest.len().min(into.len()).min(self.piece);
        into[..count].copy_from_slice(&rest[..count]);
        self.place += count;
        Ok(count)
    }
}
