//! Entries of manual subsets over blocks: one made, one taken out, and members found by bounds.
#![tactic(auto)]

mod bounds;
mod counting;
mod entering;
mod finding;
mod leaving;
mod listed;
mod record;

pub use entering::enter;
pub use finding::{first_member, last_member};
pub use leaving::leave;
pub use listed::{first_entry, last_entry};
