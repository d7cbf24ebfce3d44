//! Bytes of a source one at a time, and lines of them.
#![tactic(auto)]

mod feed;
mod raw;

pub use feed::Feed;
pub use raw::{Raw, RawFault, line_text, next_raw};
