//! How a command ends.
#![tactic(auto)]

mod status;

pub use status::{Flaw, LimitKind, NeedFault, ReorgFault, SchemaFault, Status};
