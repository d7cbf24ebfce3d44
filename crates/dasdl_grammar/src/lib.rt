//! What the grammar of the schema language is, and that the parser takes exactly its texts.
#![tactic(auto)]

mod laws;

pub use laws::{audit_law, end_law, group_law, head_law, parameters_law, schema_law, set_law};
