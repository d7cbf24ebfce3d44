//! Laws of compiling: what holds of each description that a schema's text gives.
#![tactic(auto)]

mod laws;

pub use laws::{parameters_law, structures_law, well_formed_law};
