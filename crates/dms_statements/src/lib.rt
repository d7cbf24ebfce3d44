//! Statements of the utility: what a text asks for.
#![tactic(auto)]

mod digits;
mod fault;
mod parts;
mod reading;
mod rows;
mod statement;

pub use fault::StatementFault;
pub use reading::read_statement;
pub use statement::{NamedRow, NamedRows, Statement};
