//! Laws of the entries' bytes. Each stands on a function with an empty body, so that the check proves it.

ghost use Rattle.std.specs.Prelude.{◌≡◌, ◌++◌, ℕ, List};
ghost use Rattle.dms_history.specs.Entries.{Entry};
ghost use Rattle.dms_audrec.specs.Spelling.{spelling, IsEntry};

/// No entry is a prefix of another, and no two have one spelling.
pub fn spellings_are_apart()
    ensures { (e f : Entry) (more rest : List ℕ) → IsEntry e → IsEntry f → spelling e ++ more ≡ spelling f ++ rest → e ≡ f }
{}
