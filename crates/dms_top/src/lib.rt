//! The commands, from words and input to what is printed and the status.
#![tactic(auto)]

mod audit_run;
mod compile_run;
mod initialize_run;
mod load_run;
mod schema;
mod ship_run;
mod tags;
mod top;
mod try_run;
mod whole;

pub use audit_run::is_print_audit;
pub use dms_status::{Flaw, LimitKind, NeedFault, ReorgFault, SchemaFault, Status};
pub use load_run::load_numbers;
pub use ship_run::ship_file;
pub use tags::initialize_tag;
pub use top::{dms, is_run, is_utility};
