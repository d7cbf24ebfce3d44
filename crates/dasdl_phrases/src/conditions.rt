ghost use Rattle.std.specs.Prelude.{◌≡◌, IfOk};
ghost use Rattle.dasdl_phrases.specs.Trees.{tree_of};
ghost use Rattle.dasdl_phrases.specs.Branches.{under_nots, with_and, with_or};
ghost use Rattle.dasdl_phrases.specs.TreeCodes.WrittenTree.{Test, Turned};

use dms_base::{Literal, Memory, Name, Op};
use std::alloc::Global;
use std::marker::Model;

/// A condition on a record, as it was written. AND and OR group from the left.
#[derive(Debug, Drop)]
pub enum CondTree {
    /// An item compares with a literal.
    Compare(Name, Op, Literal),
    /// Both hold.
    And(Box<CondTree>, Box<CondTree>),
    /// One of them holds.
    Or(Box<CondTree>, Box<CondTree>),
    /// It doesn't hold.
    Not(Box<CondTree>),
}

/// A condition, and the place of its word VERIFY or WHERE.
#[derive(Debug, Drop)]
pub struct CondDecl {
    pub place: u32,
    pub tree: CondTree,
}

impl Model for CondDecl {
    ghost use Rattle.dasdl_phrases.specs.Trees.{Condition, condition_code};

    ghost Value = { Condition };

    ghost coded = { condition_code };

    ghost use Rattle.dasdl_phrases.specs.Trees.{tree_of};

    ghost view = { λ c. record { place = c.place; tree = tree_of c.tree } };
}

impl CondDecl {
    /// The place of the word VERIFY or WHERE, which counts bytes from 1.
    pub fn place(&self) -> u32
        ensures { result ≡ self.now.place }
    {
        self.place
    }

    /// What is compared.
    pub fn tree(&self) -> &CondTree
        ensures { tree_of result.now ≡ self.now.tree }
    {
        &self.tree
    }
}

/// A condition, as a part of a larger one.
#[derive(Drop)]
pub struct Branch {
    tree: CondTree,
}

impl Model for Branch {
    ghost use Rattle.dasdl_phrases.specs.TreeCodes.{WrittenTree, tree_code};

    ghost Value = { WrittenTree };

    ghost coded = { tree_code };

    ghost use Rattle.dasdl_phrases.specs.Trees.{tree_of};

    ghost view = { λ b. tree_of b.tree };
}

impl Branch {
    /// The item with this name compares with a literal.
    pub fn compare(name: Name, op: Op, literal: Literal) -> Branch
        ensures { result ≡ Test name op literal }
    {
        Branch {
            tree: CondTree::Compare(name, op, literal),
        }
    }

    fn turn_over(self, alloc: Global) -> Result<Branch, Memory>
        ensures { IfOk result (λ b. b ≡ Turned self) }
    {
        let tree = CondTree::Not(Box::new(alloc, self.tree)?);
        Ok(Branch { tree })
    }

    /// Behind so many NOTs. Answers Err where memory is refused.
    pub fn under_nots(self, alloc: Global, nots: u8) -> Result<Branch, Memory>
        ensures { IfOk result (λ b. b ≡ under_nots nots self) }
    {
        let mut branch = self;
        for _not in 0..nots {
            branch = branch.turn_over(alloc)?;
        }
        Ok(branch)
    }

    /// Behind AND, where there is one. Answers Err where memory is refused.
    pub fn with_and(self, alloc: Global, left: Option<Branch>) -> Result<Branch, Memory>
        ensures { IfOk result (λ b. b ≡ with_and left self) }
    {
        match left {
            None => Ok(self),
            Some(left) => {
                let tree = CondTree::And(Box::new(alloc, left.tree)?, Box::new(alloc, self.tree)?);
                Ok(Branch { tree })
            }
        }
    }

    /// Behind OR, where there is one. Answers Err where memory is refused.
    pub fn with_or(self, alloc: Global, left: Option<Branch>) -> Result<Branch, Memory>
        ensures { IfOk result (λ b. b ≡ with_or left self) }
    {
        match left {
            None => Ok(self),
            Some(left) => {
                let tree = CondTree::Or(Box::new(alloc, left.tree)?, Box::new(alloc, self.tree)?);
                Ok(Branch { tree })
            }
        }
    }

    /// The condition behind the word at this place.
    pub fn declare(self, place: u32) -> CondDecl
        ensures { result ≡ record { place = place; tree = self } }
    {
        CondDecl {
            place,
            tree: self.tree,
        }
    }
}
