ghost use Rattle.std.specs.Prelude.{◌≡◌, IfOk};

use crate::Values;
use dms_base::Memory;
use std::alloc::Global;

/// Where a search in a path begins or ends: before all members, after all, at a key with a record
/// number, or before the first member whose leading key values are these.
#[derive(Debug, Drop)]
pub enum Bound {
    Start,
    End,
    At(Values, u64),
    From(Values),
}

impl Bound {
    /// A copy of a bound. Answers Err where memory is refused.
    pub fn copy(&self, alloc: Global) -> Result<Bound, Memory>
        ensures { IfOk result (λ b. b ≡ self.now) }
    {
        match self {
            Bound::Start => Ok(Bound::Start),
            Bound::End => Ok(Bound::End),
            Bound::At(key, number) => Ok(Bound::At(key.copy(alloc)?, *number)),
            Bound::From(key) => Ok(Bound::From(key.copy(alloc)?)),
        }
    }
}
