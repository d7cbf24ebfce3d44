//! The description file: what it holds, and how it is written so that a stop never leaves half a description.
#![tactic(auto)]

mod fault;
mod reading;
mod writing;

pub use fault::FileFault;
pub use reading::read_description;
pub use writing::seal_description;
