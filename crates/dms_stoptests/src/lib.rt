//! Tests of each command that writes, stopped at its calls, and with calls that fail.
#![tactic(auto)]

#[cfg(test)]
mod command;
#[cfg(test)]
mod points;
#[cfg(test)]
mod reading;
#[cfg(test)]
mod story;
#[cfg(test)]
mod table;
#[cfg(test)]
mod tests;
#[cfg(test)]
mod walk;
