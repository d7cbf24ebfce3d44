//! A new database: old files are cut to nothing, the first entries of its audit trail are sealed, and then its gate is opened.
#![tactic(auto)]

mod clearing;
mod creating;
mod fault;
pub mod laws;
mod laying;
mod planning;

pub use clearing::clear_old;
pub use creating::initialize;
pub use fault::CreationFault;
