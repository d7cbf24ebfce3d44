ghost use Rattle.std.specs.Prelude.{◌<◌, ◌≤◌, ℕ, List, length, IfOk};
ghost use Rattle.std.specs.declared.option.Option.{Option};
ghost use Rattle.std.specs.Io.KnownBytes.{ReadConsumes};
ghost use Rattle.dms_base.specs.Causes.{HasCause};

use crate::Failed;

/// Bytes that are taken from the first on.
pub trait Source {
    /// The bytes that are left, where the source tells them.
    ghost left: { Self → Option (List ℕ) };

    /// The same source, whatever it has left: for a source that is lent, the same reference.
    ghost same_source: { Self → Self → Type 0 };

    /// How often taking has failed. It stays at 2^64 - 1.
    ghost faults: { Self → ℕ };

    /// Takes the next bytes, at most those that `into` has room for, and answers how many.
    ///
    /// Taking 0 bytes is the end: where the bytes left are told it comes only where none is left. A failed call takes
    /// nothing.
    fn take(&mut self, into: &mut [u8]) -> Result<usize, Failed>
        requires { 0 < length into.old }
        ensures bound { IfOk result (λ n. n ≤ length into.new) }
        ensures bytes { ReadConsumes (left self.old) (left self.new) result into.new }
        ensures same { same_source self.old self.new }
        ensures cause { HasCause (faults self.old) (faults self.new) result };

    ghost same_again: { (s : Self) → same_source s s };

    ghost same_then: { (r s t : Self) → same_source r s → same_source s t → same_source r t };
}
