//! The text of a schema, written from its description, and compiled again before it is given.
#![tactic(auto)]

mod checked;
mod conditions;
mod items;
mod laws;
mod literals;
mod schema;
mod structures;
mod words;

pub use checked::checked_text;
pub use laws::own_schema_law;
pub use schema::schema_text;
