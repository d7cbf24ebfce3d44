//! A database is given a new description.
#![tactic(auto)]

mod checking;
mod comparing;
mod filling;
mod keys;
mod laws;
mod widening;

pub use checking::{check, refusal_law};
pub use filling::fill_set;
pub use keys::{further_values, has_equal_keys};
pub use laws::{extension_law, keys_law, records_law, rewritten_law, widening_law};
pub use widening::{widen_file, widened_block};
