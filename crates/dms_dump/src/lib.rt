//! Dumps: what the file of a dump says, how it is written so that a stop never leaves half a dump open, and how it is read.
#![tactic(auto)]

mod copying;
mod fault;
mod gate;
mod head;
pub mod laws;
mod reading;
mod spelling;
mod writing;

pub use fault::DumpFault;
pub use gate::{is_dump_open, open_gate, shut};
pub use reading::{DumpHead, front_size, read_dump};
pub use spelling::spell_head;
pub use writing::write_dump;
