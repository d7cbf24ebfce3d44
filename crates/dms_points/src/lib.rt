//! The points of an audit trail, each with the audit file from which on it can be had.
#![tactic(auto)]

mod keeping;
mod laws;

pub use keeping::{PlaceAt, PointTrace};
pub use laws::kept_points_law;
