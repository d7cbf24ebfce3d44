ghost use Rattle.std.specs.Prelude.{◌≡◌};
ghost use Rattle.dasdl_compile.specs.Finding.{new_draft, is_data_set_draft, is_restart_draft, is_automatic_draft};

use crate::condition::ConditionTree;
use dms_base::{Name, SetForm, StructureKind};
use dms_desc::{Groups, Items, KeyParts};
use std::alloc::Global;

/// A structure as far as it was declared.
#[derive(Drop)]
pub struct Draft {
    /// From 1, in text order.
    pub number: u16,
    pub kind: StructureKind,
    pub name: Name,
    /// The number of the data set that it stands in, 0 for none.
    pub owner: u16,
    /// How many records a data set, or entries a manual subset, may have; 0 for the others.
    pub population: u32,
    pub items: Items,
    pub groups: Groups,
    /// VERIFY of a data set, WHERE of an automatic subset.
    pub cond: ConditionTree,
    /// The number of the data set whose records a set or subset refers to; 0 for a data set.
    pub set: u16,
    /// None for a data set.
    pub form: Option<SetForm>,
    /// Whether two members may have equal keys.
    pub duplicates: bool,
    pub parts: KeyParts,
}

impl Draft {
    /// A structure of which no more is known than its name and where it stands.
    pub fn new(alloc: Global, number: u16, kind: StructureKind, name: Name, owner: u16) -> Draft
        ensures { result ≡ new_draft number kind name owner }
    {
        Draft {
            number,
            kind,
            name,
            owner,
            population: 0,
            items: Items::new(alloc),
            groups: Groups::new(alloc),
            cond: ConditionTree::nothing(),
            set: 0,
            form: None,
            duplicates: false,
            parts: KeyParts::new(alloc),
        }
    }

    /// Whether it is a data set, also the restart data set.
    pub fn is_data_set(&self) -> bool
        ensures { result ≡ is_data_set_draft self.now }
    {
        matches!(
            self.kind,
            StructureKind::DataSet | StructureKind::RestartDataSet
        )
    }

    /// Whether it is the restart data set.
    pub fn is_restart(&self) -> bool
        ensures { result ≡ is_restart_draft self.now }
    {
        matches!(self.kind, StructureKind::RestartDataSet)
    }

    /// Whether it is an automatic subset.
    pub fn is_automatic(&self) -> bool
        ensures { result ≡ is_automatic_draft self.now }
    {
        matches!(self.kind, StructureKind::AutomaticSubset)
    }
}
