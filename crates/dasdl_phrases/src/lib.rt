//! Reads what declarations of a schema are made of: conditions, keys, item types and literals.
#![tactic(auto)]

mod cond;
mod conditions;
pub mod expect;
mod fault;
mod key_parts;
mod keys;
mod kinds;
mod laws;
mod levels;
mod turns;

pub use cond::cond_decl;
pub use conditions::{CondDecl, CondTree};
pub use fault::ParseFault;
pub use key_parts::{KeyDecl, PartDecl, PartDecls};
pub use keys::key;
pub use kinds::{kind, literal, starts_kind};
pub use laws::{condition_law, key_law, kind_law};
pub use turns::{Turns, read_turns};
