//! Laws of the machine of verbs: what holds of each step, for every description, session, program and verb.
#![tactic(auto)]

mod exclusive;
mod valid;
mod waits;

pub use exclusive::{
    at_hand_law, back_out_law, exclusive_law, gives_law, holder_law, lock_law, update_law,
};
pub use valid::{coherent_law, empty_law, member_law, run_law, valid_law};
pub use waits::{deadlock_law, no_wait_circle_law, wait_law};
