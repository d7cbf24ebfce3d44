//! Links between records: who links to a record, and what its removal does to them.
#![tactic(auto)]

mod altering;
mod laws;
mod setting;
mod walking;

pub use altering::{SlotChange, alter, alter_in};
pub use laws::{
    altered_slot_law, clear_law, freed_slot_law, linkers_by_slots, removal_is_its_steps,
    set_link_law, written_slot_law,
};
pub use setting::set_link;
pub use walking::linkers;
