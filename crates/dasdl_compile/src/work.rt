use crate::drafts::Drafts;

/// The structures that were declared so far, and the number of the data set that is open, 0 for none.
#[derive(Drop)]
pub struct Compilation {
    pub made: Drafts,
    pub within: u16,
}

/// How declarations are taken before any is judged.
#[derive(Clone, Copy, Debug)]
pub enum Plain {
    /// They are noted.
    Noted,
}
