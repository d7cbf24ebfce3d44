//! The script of `load`: its schema, its lines, which are drawn from a seed, and the summary of what they answer.
#![tactic(auto)]

mod line;
mod mute;
mod phase;
mod source;
mod state;
mod summary;
mod taking;

pub use line::LoadLine;
pub use mute::MuteSite;
pub use phase::Phase;
pub use source::LoadSource;
pub use state::LoadState;
pub use summary::{Summary, schema_text, summary_text, times};
