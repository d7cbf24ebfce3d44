//! Reads the text of a schema.
#![tactic(auto)]

mod data_sets;
mod declarations;
mod grammar;
mod items;
mod laws;
mod lists;
mod parameters;
mod schema;
mod sets;
mod within;

pub use declarations::{
    DataSetDecl, DataSetEnd, Declaration, GroupDecl, ItemDecl, LinkDecl, SetDecl,
};
pub use grammar::parse;
pub use laws::{item_law, item_options_law, link_law};
pub use lists::{Declarations, ItemDecls};
pub use schema::{Parameters, Schema};
