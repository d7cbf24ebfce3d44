//! Whether the blocks of a file are a list of entries, in one chain or in a tree.
#![tactic(auto)]

mod blocks;
mod descent;
mod front;
mod kept;
mod laws;
mod leafage;
mod leaves;
mod level;
mod list;
mod marks;
mod spares;
mod tree;
mod walk;

pub use blocks::is_kept_block;
pub use kept::is_kept;
pub use laws::{formed_law, tree_formed_law};
pub use list::is_list;
pub use tree::is_tree;
pub use walk::ListWalk;
