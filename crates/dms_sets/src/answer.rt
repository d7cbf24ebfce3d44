/// What a change of a record in the sets of its data set answers.
#[derive(Clone, Copy, Debug, PartialEq, Eq)]
pub enum SetAnswer {
    /// The sets are changed.
    Done,
    /// Another record of its owner stands in this set with an equal key, and the set has NO DUPLICATES: the first such
    /// set in number order.
    Duplicate(u16),
}
