//! The stream of a trail: a head, the sealed blocks one after another, and an end; written, and read from an input up to its first bad byte.
#![tactic(auto)]

mod fault;
mod heading;
pub mod laws;
mod numbers;
mod reader;
mod writing;

pub use fault::StreamFault;
pub use heading::Heading;
pub use reader::StreamReader;
pub use writing::{RECORD, head_text, put_place};
