ghost use Rattle.std.specs.Prelude.{◌≡◌, ◌∷◌, [], OnErr, OnOk};
ghost use Rattle.dasdl_phrases.specs.Branches.{is_nil, Pops};

use crate::conditions::Branch;
use dms_base::Memory;
use std::alloc::Global;
use std::marker::Model;

/// What is read within a pair of brackets.
#[derive(Drop)]
pub struct Level {
    /// What stands before OR.
    pub either: Option<Branch>,
    /// What stands before AND.
    pub both: Option<Branch>,
    /// How many NOTs stand before the next factor.
    pub nots: u8,
}

/// What is read outside the innermost brackets, the innermost first.
#[derive(Drop)]
pub struct Levels {
    kept: Vec<Level>,
}

impl Model for Levels {
    ghost use Rattle.std.specs.Prelude.{List, reverse};
    ghost use Rattle.dasdl_phrases.specs.declared.levels.Level.{Level};
    ghost use Rattle.dasdl_phrases.specs.contracts.levels.Level as level;
    ghost use Rattle.std.specs.Coded.{coded_list};

    ghost Value = { List Level };

    ghost coded = { coded_list level.the_row.coded };

    ghost view = { λ v. reverse v.kept.items };
}

impl Levels {
    /// No level.
    pub fn new(alloc: Global) -> Levels
        ensures { result ≡ [] }
    {
        Levels {
            kept: Vec::new(alloc),
        }
    }

    /// Whether no level is outside.
    pub fn is_empty(&self) -> bool
        ensures { result ≡ is_nil self.now }
    {
        self.kept.is_empty()
    }

    /// Puts one in front. Answers Err where memory is refused, and then nothing changes.
    pub fn push(&mut self, level: Level) -> Result<(), Memory>
        ensures ok { OnOk result (self.new ≡ level ∷ self.old) }
        ensures err { OnErr result (self.new ≡ self.old) }
    {
        self.kept.push(level)?;
        Ok(())
    }

    /// Takes the first out.
    pub fn pop(&mut self) -> Option<Level>
        ensures { Pops result self.old self.new }
    {
        self.kept.pop()
    }
}
