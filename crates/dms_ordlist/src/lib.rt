//! Ordered lists of entries that are kept in a chain of blocks.
#![tactic(auto)]

mod finding;
mod inserting;
mod looking;
mod place;
mod reaching;
mod removing;
mod walking;
mod writing;

pub use finding::{first_from, last_to};
pub use inserting::insert;
pub use removing::remove;
pub use walking::{count, ending};
