//! A copy of a database that follows the sealed blocks of its source: what holds of its entries and its structure files after each block.
#![tactic(auto)]

pub mod laws;
