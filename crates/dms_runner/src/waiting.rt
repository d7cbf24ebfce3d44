use dms_base::Name;
use dms_model::Verb;

/// A line that is held.
#[derive(Debug, Drop)]
pub struct WaitingLine {
    /// Counted from 1.
    pub line: u32,
    pub program: Name,
    pub verb: Verb,
    /// Whether it was said that the line waits.
    pub printed: bool,
}

/// The lines that are held, in the order of their numbers. A line that was answered leaves its slot empty, so that the others stay
/// where they are.
#[derive(Drop)]
pub struct WaitingLines {
    pub slots: Vec<Option<WaitingLine>>,
    /// The slots of the first line of each program, rising.
    pub firsts: Vec<usize>,
    /// How many lines are held.
    pub count: usize,
}
