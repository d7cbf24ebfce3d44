//! Judges the declarations of a schema and makes its description.
#![tactic(auto)]

mod compiling;
mod condition;
mod conditions;
mod draft;
mod drafts;
mod fault;
mod find;
mod keys;
mod kinds;
mod members;
mod outline;
mod sets;
mod steps;
mod widths;
mod work;

pub use compiling::compile;
pub use fault::CompileFault;
