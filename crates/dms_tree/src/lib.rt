//! Ordered lists of entries that are kept in trees of blocks.
#![tactic(auto)]

mod climbing;
mod descending;
mod erasing;
mod finding;
mod growing;
mod inner;
mod inserting;
mod leaving;
mod lessening;
mod looking;
mod needing;
mod neighbours;
mod node;
mod raising;
mod reading;
mod removing;
mod rooming;
mod settling;
mod taking;
mod tracing;

pub use erasing::remove;
pub use finding::{first_from, last_to};
pub use inner::inner_of;
pub use inserting::insert;
pub use node::{InnerBlock, TreeHead, root_of};
