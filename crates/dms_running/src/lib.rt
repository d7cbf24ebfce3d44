//! A running database over its audit, its dumps and its structure files: what stands at every moment, and why each step keeps it.
#![tactic(auto)]

pub mod laws;
