//! The rows of a data set's blocks, whatever the ranges of their values.
#![tactic(auto)]

mod alone;
mod laws;
mod place;
mod rows;

pub use alone::first_alone;
pub use laws::rows_law;
pub use place::row_in;
pub use rows::is_row_block;
