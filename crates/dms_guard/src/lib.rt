//! The guard of a command: of a site only audit files are written, and the files of as many structures as the plan needs that is carried out.
#![tactic(auto)]

mod ended;
mod ending;
mod opened;
mod planned;
mod site;

pub use ended::Ended;
pub use ending::{status_of_damage, status_of_open, status_of_refusal};
pub use opened::open;
pub use planned::guarded;
pub use site::{Knows, RunSite};
