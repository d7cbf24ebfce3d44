//! `print audit`: the line of an entry of the audit, and the lines of all entries of the trail.
#![tactic(auto)]

mod fault;
mod line;
mod printing;

pub use fault::PrintFault;
pub use line::{EntryLine, line_text};
pub use printing::print_audit;
