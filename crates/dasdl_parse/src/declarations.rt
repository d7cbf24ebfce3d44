use crate::lists::ItemDecls;
use dasdl_phrases::{CondDecl, KeyDecl};
use dms_base::{ItemKind, Literal, Name, SetForm};

/// What a schema declares, one after another in text order. What stands between a data set and its
/// end are its members, and data sets and sets among them are embedded in it.
#[derive(Debug, Drop)]
pub enum Declaration {
    /// A data set begins.
    DataSet(DataSetDecl),
    /// An item that stands in no group.
    Item(ItemDecl),
    /// Items under a common name.
    Group(GroupDecl),
    /// A link to a record.
    Link(LinkDecl),
    /// A set or a subset.
    SetOf(SetDecl),
    /// The innermost data set that is open ends.
    End(DataSetEnd),
}

/// The head of a data set.
#[derive(Debug, Drop)]
pub struct DataSetDecl {
    /// Where its name stands, counted in bytes from 1.
    pub place: u32,
    pub name: Name,
    /// Whether it is a restart data set.
    pub restart: bool,
}

/// What is said of a data set behind its members.
#[derive(Debug, Drop)]
pub struct DataSetEnd {
    /// The condition that each record meets.
    pub verify: Option<CondDecl>,
    /// The most records that it may have, 1 to 1,000,000.
    pub population: u32,
}

/// An item.
#[derive(Debug, Drop)]
pub struct ItemDecl {
    /// Where its name stands, counted in bytes from 1.
    pub place: u32,
    pub name: Name,
    /// What it holds, which is no link.
    pub kind: ItemKind,
    /// Whether a stored record has a value for it.
    pub required: bool,
    /// Its value in a new record, Null where NULL is said, and none where neither is said.
    pub initial: Option<Literal>,
}

/// Items under a common name.
#[derive(Debug, Drop)]
pub struct GroupDecl {
    /// Where its name stands, counted in bytes from 1.
    pub place: u32,
    pub name: Name,
    pub items: ItemDecls,
}

/// A link to a record.
#[derive(Debug, Drop)]
pub struct LinkDecl {
    /// Where its name stands, counted in bytes from 1.
    pub place: u32,
    pub name: Name,
    /// The data set of the record.
    pub target: Name,
    /// Whether the record counts it.
    pub counted: bool,
}

/// A set or a subset.
#[derive(Debug, Drop)]
pub struct SetDecl {
    /// Where its name stands, counted in bytes from 1.
    pub place: u32,
    pub name: Name,
    /// Whether it is a subset.
    pub subset: bool,
    /// The data set of its members.
    pub of: Name,
    /// The condition that its members meet.
    pub cond: Option<CondDecl>,
    pub key: Option<KeyDecl>,
    /// Whether two members may have equal keys.
    pub duplicates: bool,
    pub form: SetForm,
    /// The most entries that it may have, 1 to 1,000,000.
    pub population: u32,
}
