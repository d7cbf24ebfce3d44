//! Where a fault stands in the text of a schema, as a user is shown it: line and column, the line's text with a mark, and the
//! word or sign that must stand there, where only one can. No contract speaks of it.
#![tactic(auto)]

mod hint;
mod naming;
mod place;

pub use hint::wanted;
pub use naming::named;
pub use place::SchemaPlace;
