ghost use Rattle.std.specs.Prelude.{◌≡◌, IfOk};
ghost use Rattle.dms_desc.specs.Shape.{tree_of};
ghost use Rattle.dms_desc_bytes.specs.Reading.{item_at, group_at, part_at, list_at, op_of, test_at, tree_at};

use crate::input::Input;
use dms_base::{Memory, Op};
use dms_desc::{Cond, Group, Groups, Item, Items, KeyPart, KeyParts};
use std::alloc::Global;

#[tactic(auto, unfolding(crate::specs::Reading::item_at))]
fn read_item(alloc: Global, input: &mut Input<'_>) -> Result<Item, Memory>
    ensures { IfOk result (λ i. (i, input.new) ≡ item_at input.old) }
{
    let name = input.name();
    let kind = input.kind();
    let required = input.flag();
    let initial = input.literal(alloc)?;
    Ok(Item {
        name,
        kind,
        required,
        initial,
    })
}

/// Reads the items and links of a data set, their count first. Answers Err where memory is refused.
#[tactic(auto, unfolding(crate::specs::Reading::list_at))]
pub fn read_items(alloc: Global, input: &mut Input<'_>) -> Result<Items, Memory>
    ensures { IfOk result (λ v. (v, input.new) ≡ list_at item_at input.old) }
{
    let mut items = Items::new(alloc);
    let count = input.byte();
    for _more in 0..count {
        items.push(read_item(alloc, input)?)?;
    }
    Ok(items)
}

#[tactic(auto, unfolding(crate::specs::Reading::group_at))]
fn read_group(input: &mut Input<'_>) -> Group
    ensures { (result, input.new) ≡ group_at input.old }
{
    let name = input.name();
    let first = input.byte();
    let count = input.byte();
    Group { name, first, count }
}

/// Reads the groups of a data set, their count first. Answers Err where memory is refused.
#[tactic(auto, unfolding(crate::specs::Reading::list_at))]
pub fn read_groups(alloc: Global, input: &mut Input<'_>) -> Result<Groups, Memory>
    ensures { IfOk result (λ v. (v, input.new) ≡ list_at group_at input.old) }
{
    let mut groups = Groups::new(alloc);
    let count = input.byte();
    for _more in 0..count {
        groups.push(read_group(input))?;
    }
    Ok(groups)
}

#[tactic(auto, unfolding(crate::specs::Reading::part_at))]
fn read_part(input: &mut Input<'_>) -> KeyPart
    ensures { (result, input.new) ≡ part_at input.old }
{
    let item = input.byte();
    let descending = input.flag();
    KeyPart { item, descending }
}

/// Reads the parts of a key, their count first. Answers Err where memory is refused.
#[tactic(auto, unfolding(crate::specs::Reading::list_at))]
pub fn read_parts(alloc: Global, input: &mut Input<'_>) -> Result<KeyParts, Memory>
    ensures { IfOk result (λ v. (v, input.new) ≡ list_at part_at input.old) }
{
    let mut parts = KeyParts::new(alloc);
    let count = input.byte();
    for _more in 0..count {
        parts.push(read_part(input))?;
    }
    Ok(parts)
}

fn op_of(n: u8) -> Op
    ensures { result ≡ op_of n }
{
    match n {
        1 => Op::Equal,
        2 => Op::NotEqual,
        3 => Op::Less,
        4 => Op::LessEqual,
        5 => Op::Greater,
        _ => Op::GreaterEqual,
    }
}

#[tactic(auto, unfolding(crate::specs::Reading::test_at))]
fn read_test(alloc: Global, input: &mut Input<'_>) -> Result<Cond, Memory>
    ensures { IfOk result (λ c. (tree_of c, input.new) ≡ test_at input.old) }
{
    let item = input.byte();
    let op = op_of(input.byte());
    let value = input.literal(alloc)?;
    Ok(Cond::Compare(item, op, value))
}

/// The next condition, of at most so many levels. Answers Err where memory is refused.
#[tactic(auto, unfolding(crate::specs::Reading::tree_at))]
pub fn read_cond(alloc: Global, levels: u8, input: &mut Input<'_>) -> Result<Cond, Memory>
    ensures { IfOk result (λ c. (tree_of c, input.new) ≡ tree_at levels input.old) }
{
    if levels == 0 {
        return Ok(Cond::Nothing);
    }
    let kind = input.byte();
    if kind == 1 {
        return read_test(alloc, input);
    }
    if kind == 2 {
        let a = read_cond(alloc, levels - 1, input)?;
        let b = read_cond(alloc, levels - 1, input)?;
        return Ok(Cond::And(Box::new(alloc, a)?, Box::new(alloc, b)?));
    }
    if kind == 3 {
        let a = read_cond(alloc, levels - 1, input)?;
        let b = read_cond(alloc, levels - 1, input)?;
        return Ok(Cond::Or(Box::new(alloc, a)?, Box::new(alloc, b)?));
    }
    if kind == 4 {
        let a = read_cond(alloc, levels - 1, input)?;
        return Ok(Cond::Not(Box::new(alloc, a)?));
    }
    Ok(Cond::Nothing)
}
