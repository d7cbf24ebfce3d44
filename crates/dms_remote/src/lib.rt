//! A remote copy: the sealed audit of a database as a stream, and a copy that follows the blocks of its source.
#![tactic(auto)]

mod fault;
mod follower;
mod gating;
mod keeping;
pub mod kinds;
pub mod laws;
mod next_block;
mod noting;
mod sealing;
mod settling;
mod shipment;
mod shipping;
mod turning;

pub use fault::RemoteFault;
pub use follower::Follower;
pub use next_block::seal_next;
pub use noting::note_block;
pub use sealing::seal_copy;
pub use settling::settle;
pub use shipping::ship;
pub use turning::settle_before;
