ghost use Rattle.std.specs.Prelude.{◌≡◌, ◌++◌, ◌∷◌, [], OnErr, OnOk};
ghost use Rattle.dms_statements.specs.Statements.{is_named};

use dms_base::{Memory, Name};
use std::alloc::Global;
use std::marker::Model;

/// A row of a structure: 16 of its blocks.
#[derive(Clone, Copy, Debug, PartialEq, Eq)]
pub struct NamedRow {
    /// The structure.
    pub name: Name,
    /// Counted from 0.
    pub row: u32,
}

/// Rows, none twice.
#[derive(Debug, Drop)]
pub struct NamedRows {
    kept: Vec<NamedRow>,
}

impl Model for NamedRows {
    ghost use Rattle.std.specs.Prelude.{List};
    ghost use Rattle.dms_statements.specs.declared.statement.NamedRow.{NamedRow};

    ghost Value = { List NamedRow };

    ghost view = { λ v. v.kept.items };
}

impl NamedRows {
    /// The empty list.
    pub fn new(alloc: Global) -> NamedRows
        ensures { result ≡ [] }
    {
        NamedRows {
            kept: Vec::new(alloc),
        }
    }

    /// Adds one at the end. After want of memory the list is unchanged.
    pub fn push(&mut self, row: NamedRow) -> Result<(), Memory>
        ensures ok { OnOk result (self.new ≡ self.old ++ row ∷ []) }
        ensures err { OnErr result (self.new ≡ self.old) }
    {
        self.kept.push(row)?;
        Ok(())
    }

    /// The rows in their order.
    pub fn as_slice(&self) -> &[NamedRow]
        ensures { result.now ≡ self.now }
    {
        self.kept.as_slice()
    }

    /// Whether this row of the structure with this name is among them.
    pub fn has(&self, name: &Name, row: u32) -> bool
        ensures { result ≡ is_named name.now row self.now }
    {
        self.kept
            .iter()
            .any(|kept| kept.row == row && kept.name.is(name))
    }
}

/// What is asked of the utility.
#[derive(Debug, Drop)]
pub enum Statement {
    /// To this dump.
    Dump(u16),
    /// From this dump, to this point, or to the last one.
    Rebuild(u16, Option<u64>),
    /// To this point.
    Rollback(u64),
    /// These rows, from this dump.
    Reconstruct(u16, NamedRows),
}
