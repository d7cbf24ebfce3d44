//! Ordered lists of entries in the form that the description gives them: trees or lists of blocks.
#![tactic(auto)]

mod changing;
mod finding;
mod form;

pub use changing::{insert, remove};
pub use finding::{first_from, last_to};
pub use form::{ListForm, form_of};
