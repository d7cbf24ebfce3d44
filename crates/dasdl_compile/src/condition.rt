ghost use Rattle.std.specs.Prelude.{◌≡◌, IfOk};
ghost use Rattle.dms_desc.specs.Shape.{tree_of};
ghost use Rattle.dms_desc.specs.Shape.Tree.{Empty, Test, Both, Either, Contrary};

use dms_base::{Memory, Op, Value};
use dms_desc::Cond;
use std::alloc::Global;
use std::marker::Model;

/// A condition, seen as a tree.
#[derive(Drop)]
pub struct ConditionTree {
    kept: Cond,
}

impl Model for ConditionTree {
    ghost use Rattle.dms_desc.specs.Shape.{Tree};
    ghost use Rattle.dms_desc.specs.TreeCodes.{tree_code};

    ghost Value = { Tree };

    ghost coded = { tree_code };

    ghost use Rattle.dms_desc.specs.Shape.{tree_of};

    ghost view = { λ c. tree_of c.kept };
}

impl ConditionTree {
    /// The condition that each record meets.
    pub fn nothing() -> ConditionTree
        ensures { result ≡ Empty }
    {
        ConditionTree {
            kept: Cond::Nothing,
        }
    }

    /// An item, counted from 1, compared with a value.
    pub fn test(item: u8, op: Op, value: Value) -> ConditionTree
        ensures { result ≡ Test item op value }
    {
        ConditionTree {
            kept: Cond::Compare(item, op, value),
        }
    }

    /// Both of two, or Memory where memory ran out.
    pub fn and(self, alloc: Global, other: ConditionTree) -> Result<ConditionTree, Memory>
        ensures { IfOk result (λ c. c ≡ Both self other) }
    {
        let kept = Cond::And(Box::new(alloc, self.kept)?, Box::new(alloc, other.kept)?);
        Ok(ConditionTree { kept })
    }

    /// One of two, or Memory where memory ran out.
    pub fn or(self, alloc: Global, other: ConditionTree) -> Result<ConditionTree, Memory>
        ensures { IfOk result (λ c. c ≡ Either self other) }
    {
        let kept = Cond::Or(Box::new(alloc, self.kept)?, Box::new(alloc, other.kept)?);
        Ok(ConditionTree { kept })
    }

    /// Not this one, or Memory where memory ran out.
    pub fn turn_over(self, alloc: Global) -> Result<ConditionTree, Memory>
        ensures { IfOk result (λ c. c ≡ Contrary self) }
    {
        let kept = Cond::Not(Box::new(alloc, self.kept)?);
        Ok(ConditionTree { kept })
    }

    /// The condition itself.
    pub fn cond(&self) -> &Cond
        ensures { tree_of result.now ≡ self.now }
    {
        &self.kept
    }
}
