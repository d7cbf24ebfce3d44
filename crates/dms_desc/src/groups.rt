ghost use Rattle.std.specs.Prelude.{◌≡◌, ◌++◌, ◌∷◌, [], OnErr, OnOk};

use crate::Group;
use dms_base::Memory;
use std::alloc::Global;
use std::marker::Model;

/// A list of a data set's groups, in text order.
#[derive(Debug, Drop)]
pub struct Groups {
    kept: Vec<Group>,
}

impl Model for Groups {
    ghost use Rattle.std.specs.Prelude.{List};
    ghost use Rattle.dms_desc.specs.declared.structure.Group.{Group};

    ghost Value = { List Group };

    ghost view = { λ v. v.kept.items };
}

impl Groups {
    /// The empty list.
    pub fn new(alloc: Global) -> Groups
        ensures { result ≡ [] }
    {
        Groups {
            kept: Vec::new(alloc),
        }
    }

    /// Adds an element at the end. Answers Err where memory is refused; the list is unchanged then.
    pub fn push(&mut self, e: Group) -> Result<(), Memory>
        ensures ok { OnOk result (self.new ≡ self.old ++ e ∷ []) }
        ensures err { OnErr result (self.new ≡ self.old) }
    {
        self.kept.push(e)?;
        Ok(())
    }

    /// The groups in their order.
    pub fn as_slice(&self) -> &[Group]
        ensures { result.now ≡ self.now }
    {
        self.kept.as_slice()
    }
}
