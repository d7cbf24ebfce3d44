//! Tests of audit files.
#![tactic(auto)]

#[cfg(test)]
mod files;
#[cfg(test)]
mod ranges;
#[cfg(test)]
mod sealing;
