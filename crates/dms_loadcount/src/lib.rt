//! What the script of a load answers, counted over a database in memory.
#![tactic(auto)]

mod counting;

pub use counting::{CountFault, count_load};
