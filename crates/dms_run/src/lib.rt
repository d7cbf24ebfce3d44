//! What a run of a script over a database leaves, at every moment and at its end, in the words of the database, as states that files
//! stand for and against the text that it printed.
#![tactic(auto)]

mod laws;

pub use laws::{
    engine_law, files_law, held_law, run_law, same_point_law, site_law, stands_law, state_law,
    states_law, told_law,
};
