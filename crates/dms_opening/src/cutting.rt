//! The counts of a plan, cut to the structures of its description.

ghost use Rattle.std.specs.Prelude.{◌≡◌, ◌≤◌, ◌<◌, ◌-◌, ℕ, slice_index_or, length, OnOk};
ghost use Rattle.dms_restore.specs.Counts.{count_of};
ghost use Rattle.dms_opening.specs.Openings.{NamesStructures};

use crate::OpeningPlan;
use dms_base::Memory;
use dms_desc_bytes::{decode, spelling_law};
use std::alloc::Global;

/// How many counts there are up to the last one that isn't 0.
fn used_counts(counts: &[u32]) -> usize
    ensures within { result ≤ length counts.now }
    ensures rest { (i : ℕ) → result ≤ i → slice_index_or counts.now i 0 ≡ 0 }
    ensures last { 0 < result → 0 < slice_index_or counts.now (result - 1) 0 }
{
    let mut used = 0;
    for number in 0..counts.len() {
        if counts[number] != 0 {
            used = number + 1;
        }
    }
    used
}

impl OpeningPlan {
    /// Leaves of the counts those of the structures of the description, and those of files behind them up to the last that has a block.
    /// Where the bytes are those of no description all are left.
    pub fn cut_counts(&mut self, alloc: Global) -> Result<(), Memory>
        requires size { length self.old.counts.items ≡ 200 }
        ensures named { OnOk result (NamesStructures self.new.schema.items self.new.counts.items) }
        ensures same { OnOk result ((f : ℕ) → count_of self.new.counts.items f ≡ count_of self.old.counts.items f) }
        ensures few { length self.new.counts.items ≤ length self.old.counts.items }
        ensures kept { (self.new.choice ≡ self.old.choice) × (self.new.next ≡ self.old.next) × (self.new.table ≡ self.old.table) × (self.new.schema ≡ self.old.schema) }
    {
        spelling_law();
        let desc = match decode(alloc, &self.schema) {
            Ok(Some(desc)) => desc,
            Ok(None) => return Ok(()),
            Err(memory) => return Err(memory),
        };
        let used = used_counts(&self.counts);
        self.counts
            .truncate(used.max(desc.structures.as_slice().len()));
        Ok(())
    }
}
