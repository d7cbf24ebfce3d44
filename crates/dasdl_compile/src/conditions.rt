ghost use Rattle.dasdl_phrases.specs.Trees.{tree_of};
ghost use Rattle.dasdl_compile.specs.Answers.{CompileGives};
ghost use Rattle.dasdl_compile.specs.Conditions.{literal_of, comparison, condition, verify_tree};

use crate::condition::ConditionTree;
use crate::fault::CompileFault;
use crate::kinds::value_in;
use dasdl_phrases::{CondDecl, CondTree};
use dms_base::{ItemKind, Literal, Name, Op, Value};
use dms_desc::{Item, item_named};
use std::alloc::Global;

/// The value of a literal for the item of this name and type, or CondKind with the name where it isn't for the item.
#[tactic(auto, unfolding(crate::specs::Conditions::literal_of))]
pub fn literal_of(
    alloc: Global,
    name: &Name,
    kind: &ItemKind,
    literal: &Literal,
) -> Result<Value, CompileFault>
    ensures { CompileGives result (literal_of name.now kind.now literal.now) }
{
    match value_in(alloc, kind, literal)? {
        None => Err(CompileFault::CondKind(*name)),
        Some(value) => Ok(value),
    }
}

/// The comparison of an item with a literal.
#[tactic(auto, unfolding(crate::specs::Conditions::comparison))]
fn comparison(
    alloc: Global,
    items: &[Item],
    name: &Name,
    op: Op,
    literal: &Literal,
) -> Result<ConditionTree, CompileFault>
    ensures { CompileGives result (comparison items.now name.now op literal.now) }
{
    match item_named(items, name) {
        None => Err(CompileFault::Unknown(*name)),
        Some(found) => {
            let value = literal_of(alloc, name, &found.kind, literal)?;
            Ok(ConditionTree::test(found.number, op, value))
        }
    }
}

/// A condition on the records with these items, or its first fault in text order: Unknown with a name that no item
/// has, or CondKind with that of the item that a literal isn't for.
#[tactic(auto, unfolding(crate::specs::Conditions::condition))]
pub fn condition(
    alloc: Global,
    items: &[Item],
    tree: &CondTree,
) -> Result<ConditionTree, CompileFault>
    ensures { CompileGives result (condition items.now (tree_of tree.now)) }
{
    match tree {
        CondTree::Compare(name, op, literal) => comparison(alloc, items, name, *op, literal),
        CondTree::And(a, b) => {
            let left = condition(alloc, items, a)?;
            let right = condition(alloc, items, b)?;
            Ok(left.and(alloc, right)?)
        }
        CondTree::Or(a, b) => {
            let left = condition(alloc, items, a)?;
            let right = condition(alloc, items, b)?;
            Ok(left.or(alloc, right)?)
        }
        CondTree::Not(a) => {
            let inner = condition(alloc, items, a)?;
            Ok(inner.turn_over(alloc)?)
        }
    }
}

/// The condition of VERIFY, which is Nothing where none is said; the faults are those of `condition`.
#[tactic(auto, unfolding(crate::specs::Conditions::verify_tree))]
pub fn verify_tree(
    alloc: Global,
    items: &[Item],
    verify: &Option<CondDecl>,
) -> Result<ConditionTree, CompileFault>
    ensures { CompileGives result (verify_tree items.now verify.now) }
{
    match verify {
        None => Ok(ConditionTree::nothing()),
        Some(decl) => condition(alloc, items, decl.tree()),
    }
}
