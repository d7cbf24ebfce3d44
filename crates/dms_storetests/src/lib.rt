//! Tests of scripts over the store that is a list of records, and over the store on blocks.
#![tactic(auto)]

#[cfg(test)]
mod plain;
#[cfg(test)]
mod running;
#[cfg(test)]
mod tests;
