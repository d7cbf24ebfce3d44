//! The opening of a database: what it does and needs before its first write, and the opening itself.
#![tactic(auto)]

mod asked;
mod behind;
mod carrying;
mod choosing;
mod cutting;
mod describing;
mod dump_looks;
mod going_on;
mod judging;
pub mod laws;
mod looking;
mod marking;
mod numbers;
mod opened;
mod plan;
mod point_counts;
mod preparing;
mod scanning;
mod short;
mod starting;
mod whole;

pub use asked::{Asked, DumpLook, Refusal, judge};
pub use behind::prepare_behind;
pub use carrying::{carry_out, site_of};
pub use choosing::{Choice, OpenFault};
pub use dump_looks::{DumpFound, find_begun, find_dump};
pub use judging::PointFault;
pub use looking::{PlannedOpening, look};
pub use numbers::last_point;
pub use opened::Opened;
pub use plan::{OpeningPlan, prepare, prepare_asked};
pub use scanning::{Found, Scanned};
pub use short::{ShortBlock, first_short};
pub use whole::{OpenRefusal, look_whole};
