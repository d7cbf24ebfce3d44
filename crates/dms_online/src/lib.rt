//! A running database of which a dump is copied between its lines.
#![tactic(auto)]

mod block_copy;
mod blocks;
mod closing;
mod dump_site;
mod ending;
mod heads;
mod ids;
mod look;
mod next_block;
mod next_blocks;
mod online;
mod plan;
mod until;
mod writing;

pub use block_copy::copy_one;
pub use dump_site::DumpSite;
pub use ids::id_of;
pub use next_block::copy_next;
pub use next_blocks::copy_some;
pub use online::Online;
pub use plan::Copying;
pub use writing::write_dump;
