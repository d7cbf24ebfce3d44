ghost use Rattle.std.specs.Prelude.{◌≡◌, IfOk};

use crate::Values;
use dms_base::Memory;
use std::alloc::Global;

/// A record: the number of its owner's record, 0 where its data set is disjoint, and the values of
/// its items and links.
#[derive(Debug, Drop)]
pub struct Record {
    pub owner: u64,
    pub values: Values,
}

impl Record {
    /// A copy of a record. Answers Err where memory is refused.
    pub fn copy(&self, alloc: Global) -> Result<Record, Memory>
        ensures { IfOk result (λ r. r ≡ self.now) }
    {
        Ok(Record {
            owner: self.owner,
            values: self.values.copy(alloc)?,
        })
    }
}
