use dms_chain::{LeafBlock, ListHead};

/// A block of a list, with its number.
#[derive(Drop)]
pub struct NumberedLeaf {
    pub number: u32,
    pub leaf: LeafBlock,
}

/// The block where bytes belong, and the one before it.
#[derive(Drop)]
pub struct ListPlace {
    pub before: Option<NumberedLeaf>,
    pub here: NumberedLeaf,
}

/// What the head of a list says, and where bytes belong in it; no place where the list is empty.
#[derive(Drop)]
pub struct Look {
    pub head: ListHead,
    pub place: Option<ListPlace>,
}
