use dms_desc::{Description, Structure};

/// A data set of a description, and the number of one of its slots.
#[derive(Clone, Copy)]
pub struct Address<'a> {
    pub desc: &'a Description,
    pub set: &'a Structure,
    pub number: u64,
}
