ghost use Rattle.dms_snapshot.specs.Snapshots.{PlanGives};

/// Law: a whole block of the point is what the plan tells of it, else what stands in its file, unless the restore takes it from a dump; and what is
/// so given, where it is whole, is the block.
pub fn snapshot_law()
    ensures { PlanGives }
{}
