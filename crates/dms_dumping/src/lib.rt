//! The statement DUMP over a site, and what a statement says when it is done.
#![tactic(auto)]

mod dumping;
mod listing;
mod looking;
mod preparing;
mod saying;
mod writing;

pub use dumping::dump_over;
pub use saying::{point_line, say_done};
