//! A site and a source in memory, which tell everything, fail where they are told to, and show what a stop may leave.
#![tactic(auto)]

mod calls;
mod crash;
mod event;
mod image;
mod journal;
mod mem_site;
mod mem_source;
mod pick;
mod plan;
mod tally;

pub use crash::strike_write;
pub use image::Image;
pub use mem_site::MemSite;
pub use mem_source::MemSource;
pub use pick::{Fill, fill_of};
