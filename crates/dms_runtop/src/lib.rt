//! The command `run`: a script over the database on disk.
#![tactic(auto)]

mod command;
mod describing;
mod ending;
mod full;
mod over;

pub use command::run_command;
pub use describing::describe;
pub use ending::{status_of_block, status_of_run};
pub use over::run_over;
