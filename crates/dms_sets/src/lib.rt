//! Sets and automatic subsets kept equal to their members.
#![tactic(auto)]

mod answer;
mod entry;
mod keeping;
mod laws;
mod lists;
mod one;
mod sets;

pub use answer::SetAnswer;
pub use entry::{entry as record_entry, kinds_of};
pub use laws::{
    duplicate_by_one_look, members_by_bounds, one_put_changes, one_put_is_a_change,
    sets_are_their_members,
};
pub use lists::Lists;
pub use one::{change_one, refuses};
pub use sets::change;
