//! The command `utility`: one statement over the database on disk.
#![tactic(auto)]

mod asking;
mod command;
mod text;

pub use command::utility_command;
