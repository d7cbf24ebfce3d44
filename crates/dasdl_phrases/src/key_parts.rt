ghost use Rattle.std.specs.Prelude.{◌≡◌, ◌++◌, ◌∷◌, [], OnErr, OnOk};

use dms_base::{Memory, Name};
use std::alloc::Global;
use std::marker::Model;

/// A key.
#[derive(Debug, Drop)]
pub struct KeyDecl {
    /// Where the word KEY stands, counted in bytes from 1.
    pub place: u32,
    pub parts: PartDecls,
}

/// A part of a key.
#[derive(Debug, Drop)]
pub struct PartDecl {
    /// An item or a group.
    pub name: Name,
    pub descending: bool,
}

/// The parts of a key.
#[derive(Debug, Drop)]
pub struct PartDecls {
    kept: Vec<PartDecl>,
}

impl Model for PartDecls {
    ghost use Rattle.std.specs.Prelude.{List};
    ghost use Rattle.dasdl_phrases.specs.declared.key_parts.PartDecl.{PartDecl};

    ghost Value = { List PartDecl };

    ghost view = { λ v. v.kept.items };
}

impl PartDecls {
    /// The empty list.
    pub fn new(alloc: Global) -> PartDecls
        ensures { result ≡ [] }
    {
        PartDecls {
            kept: Vec::new(alloc),
        }
    }

    /// Adds one at the end. Answers Err where memory is refused, and then nothing changes.
    pub fn push(&mut self, part: PartDecl) -> Result<(), Memory>
        ensures ok { OnOk result (self.new ≡ self.old ++ part ∷ []) }
        ensures err { OnErr result (self.new ≡ self.old) }
    {
        self.kept.push(part)?;
        Ok(())
    }

    /// The list.
    pub fn as_slice(&self) -> &[PartDecl]
        ensures { result.now ≡ self.now }
    {
        self.kept.as_slice()
    }
}
