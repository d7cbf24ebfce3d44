//! A new database: the text of its schema is judged, and the files stand for the empty database.
#![tactic(auto)]

mod judging;
mod laws;

pub use judging::{JudgedSchema, judge};
pub use laws::what_is_made_stands;
