//! The store that is a list of records, which is the plain program of the definitions.
#![tactic(auto)]

mod clash;
mod entering;
mod entry;
mod keys;
mod laws;
mod linking;
mod lists;
mod manual;
mod member;
mod members;
mod removal;
mod rows;
mod scan;
mod state;
mod store;
mod uses;

pub use laws::number_law;
pub use store::PlainStore;
