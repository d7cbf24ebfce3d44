//! Runs the lines of a script, and holds those that wait.
#![tactic(auto)]

mod laws;
mod lines;
mod retrying;
mod run;
mod saying;
mod slots;
mod waiting;

pub use laws::{counted_law, front_law, left_law, next_law, point_law, sync_law, whole_law};
pub use lines::WAITING_LINES;
pub use run::{RunFault, SCRIPT_BYTES, SCRIPT_LINES, run_lines};
pub use waiting::{WaitingLine, WaitingLines};
