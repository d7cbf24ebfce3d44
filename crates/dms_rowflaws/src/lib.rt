//! What is wrong with the files of a database, told by their blocks.
#![tactic(auto)]

mod blocks;
mod shapes;
mod widths;

pub use blocks::first_block;
pub use shapes::first_shape;
