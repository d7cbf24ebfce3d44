use dms_desc::Record;

/// What a data set's file has of a record.
#[derive(Debug, Drop)]
pub struct Slot {
    pub rec: Record,
    /// How many counted links refer to the record.
    pub counted: u32,
    /// How many embedded records and entries of manual subsets it owns.
    pub owned: u32,
}

/// What the bytes of a slot say.
#[derive(Debug, Drop)]
pub enum SlotRead {
    /// Zeros alone: no record stands there.
    Free,
    /// The spelling of this record.
    Used(Slot),
    /// Neither.
    Bad,
}
