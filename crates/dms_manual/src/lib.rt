//! Manual subsets: their lists of entries, kept equal to the entries of a database.
#![tactic(auto)]

mod entering;
mod following;
mod laws;
mod naming;
mod widths;

pub use entering::{enter, enter_in, leave};
pub use following::follow;
pub use laws::{
    answers_by_the_list, lists_count_records, lists_follow_entries, lists_name_records,
    members_by_entries,
};
pub use naming::{is_entered, names_record};
pub use widths::entry_width;
