//! The command `load`: a database of its own schema is made, and a script that is drawn from a seed is run over it.
#![tactic(auto)]

mod filling;
mod laws;
mod loading;
mod making;

pub use laws::load_schema_is_accepted;
pub use loading::load_command;
