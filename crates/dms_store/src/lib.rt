//! What the blocks of structure files spell, and a database that is kept on them.
#![tactic(auto)]

mod address;
mod as_store;
mod entries;
mod finding;
mod getting;
mod known;
mod laws;
mod linking;
mod note;
mod owning;
mod paths;
mod putting;
mod relating;
mod relisting;
mod scanning;
mod store;

pub use finding::{first_record, last_record};
pub use getting::get;
pub use laws::{empty_law, served_law, spelled_law};
pub use paths::{first_from, last_to};
pub use putting::{put, put_law};
pub use store::BlockStore;
