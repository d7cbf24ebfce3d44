//! Tests of the commands over the folder's site and system calls in memory.
#![tactic(auto)]

#[cfg(test)]
mod tests;
