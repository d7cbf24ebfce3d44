//! Laws of scripts: what a script tells is true, and what it leaves is valid.
#![tactic(auto)]

mod circles;
mod truth;
mod valid;

pub use circles::circle_law;
pub use truth::{stop_law, told_law, truth_law};
pub use valid::{quiets_law, runnable_law, scripts_stay_valid, verb_law};
