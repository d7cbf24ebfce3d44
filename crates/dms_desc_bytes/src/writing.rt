ghost use Rattle.std.specs.Prelude.{◌≡◌, ◌++◌, ◌∷◌, [], ◌%◌, IfOk, OnOk, map, flat_map};
ghost use Rattle.std.specs.Int.{to_be_bytes};
ghost use Rattle.dms_desc.specs.Shape.{tree_of, shape_of, as_described, form_number, kind_number};
ghost use Rattle.dms_desc_bytes.specs.Spelling.{shift_up, name_bytes, literal_bytes, kind_bytes, item_bytes, group_bytes, part_bytes, op_number, tree_bytes, data_set_bytes, set_bytes, where_bytes, structure_bytes, spelling};

use dms_base::{Bytes, ItemKind, Memory, Name, Op, SetForm, StructureKind, Value};
use dms_desc::{Cond, Description, Group, Item, KeyPart, Structure};
use std::alloc::Global;

fn put_count(out: &mut Bytes, n: usize) -> Result<(), Memory>
    ensures { OnOk result (out.new ≡ out.old ++ (n % 256) ∷ []) }
{
    out.push((n % 256) as u8)
}

fn put_name(out: &mut Bytes, name: &Name) -> Result<(), Memory>
    ensures { OnOk result (out.new ≡ out.old ++ name_bytes name.now) }
{
    put_count(out, name.bytes().len())?;
    out.extend(name.bytes())
}

fn shift_up(n: i64) -> u64
    ensures { result ≡ shift_up n }
{
    if n < 0 {
        (1 << 63) - n.unsigned_abs()
    } else {
        (1 << 63) + n as u64
    }
}

fn put_literal(out: &mut Bytes, value: &Value) -> Result<(), Memory>
    ensures { OnOk result (out.new ≡ out.old ++ literal_bytes value.now) }
{
    match value {
        Value::Null => out.push(0),
        Value::Text(text) => {
            out.push(1)?;
            put_count(out, text.bytes().len())?;
            out.extend(text.bytes())
        }
        Value::Number(n) => {
            out.push(2)?;
            out.extend(&shift_up(*n).to_be_bytes())
        }
        Value::Bool(b) => {
            out.push(3)?;
            out.push(u8::from(*b))
        }
        Value::Bits(n) => {
            out.push(4)?;
            out.extend(&n.to_be_bytes())
        }
        Value::Link(_) => Ok(()),
    }
}

fn put_kind(out: &mut Bytes, kind: ItemKind) -> Result<(), Memory>
    ensures { OnOk result (out.new ≡ out.old ++ kind_bytes kind) }
{
    match kind {
        ItemKind::Alpha(n) => out.extend(&[1, n, 0, 0]),
        ItemKind::Number(n, m, s) => out.extend(&[2, n, m, u8::from(s)]),
        ItemKind::Bool => out.extend(&[3, 0, 0, 0]),
        ItemKind::Field(n) => out.extend(&[4, n, 0, 0]),
        ItemKind::Link(target, counted) => {
            out.push(5)?;
            out.extend(&target.to_be_bytes())?;
            out.push(u8::from(counted))
        }
    }
}

#[tactic(auto, unfolding(crate::specs::Spelling::item_bytes))]
fn put_item(out: &mut Bytes, item: &Item) -> Result<(), Memory>
    ensures { OnOk result (out.new ≡ out.old ++ item_bytes item.now) }
{
    put_name(out, &item.name)?;
    put_kind(out, item.kind)?;
    out.push(u8::from(item.required))?;
    put_literal(out, &item.initial)
}

fn put_items(out: &mut Bytes, items: &[Item]) -> Result<(), Memory>
    ensures { OnOk result (out.new ≡ out.old ++ flat_map item_bytes items.now) }
{
    for item in items {
        put_item(out, item)?;
    }
    Ok(())
}

#[tactic(auto, unfolding(crate::specs::Spelling::group_bytes))]
fn put_group(out: &mut Bytes, group: &Group) -> Result<(), Memory>
    ensures { OnOk result (out.new ≡ out.old ++ group_bytes group.now) }
{
    put_name(out, &group.name)?;
    out.extend(&[group.first, group.count])
}

fn put_groups(out: &mut Bytes, groups: &[Group]) -> Result<(), Memory>
    ensures { OnOk result (out.new ≡ out.old ++ flat_map group_bytes groups.now) }
{
    for group in groups {
        put_group(out, group)?;
    }
    Ok(())
}

#[tactic(auto, unfolding(crate::specs::Spelling::part_bytes))]
fn put_part(out: &mut Bytes, part: &KeyPart) -> Result<(), Memory>
    ensures { OnOk result (out.new ≡ out.old ++ part_bytes part.now) }
{
    out.extend(&[part.item, u8::from(part.descending)])
}

fn put_parts(out: &mut Bytes, parts: &[KeyPart]) -> Result<(), Memory>
    ensures { OnOk result (out.new ≡ out.old ++ flat_map part_bytes parts.now) }
{
    for part in parts {
        put_part(out, part)?;
    }
    Ok(())
}

fn op_number(op: Op) -> u8
    ensures { result ≡ op_number op }
{
    match op {
        Op::Equal => 1,
        Op::NotEqual => 2,
        Op::Less => 3,
        Op::LessEqual => 4,
        Op::Greater => 5,
        Op::GreaterEqual => 6,
    }
}

fn put_cond(out: &mut Bytes, cond: &Cond) -> Result<(), Memory>
    ensures { OnOk result (out.new ≡ out.old ++ tree_bytes (tree_of cond.now)) }
{
    match cond {
        Cond::Nothing => out.push(0),
        Cond::Compare(item, op, value) => {
            out.extend(&[1, *item, op_number(*op)])?;
            put_literal(out, value)
        }
        Cond::And(a, b) => {
            out.push(2)?;
            put_cond(out, a)?;
            put_cond(out, b)
        }
        Cond::Or(a, b) => {
            out.push(3)?;
            put_cond(out, a)?;
            put_cond(out, b)
        }
        Cond::Not(a) => {
            out.push(4)?;
            put_cond(out, a)
        }
    }
}

#[tactic(auto, unfolding(crate::specs::Spelling::data_set_bytes))]
fn put_data_set(out: &mut Bytes, s: &Structure) -> Result<(), Memory>
    ensures { OnOk result (out.new ≡ out.old ++ data_set_bytes (shape_of s.now)) }
{
    out.extend(&s.population.to_be_bytes())?;
    put_count(out, s.items.as_slice().len())?;
    put_items(out, s.items.as_slice())?;
    put_count(out, s.groups.as_slice().len())?;
    put_groups(out, s.groups.as_slice())?;
    put_cond(out, &s.cond)
}

fn kind_byte(kind: StructureKind) -> u8
    ensures { result ≡ kind_number kind }
{
    match kind {
        StructureKind::DataSet => 1,
        StructureKind::RestartDataSet => 2,
        StructureKind::Set => 3,
        StructureKind::AutomaticSubset => 4,
        StructureKind::ManualSubset => 5,
    }
}

fn form_byte(form: Option<SetForm>) -> u8
    ensures { result ≡ form_number form }
{
    match form {
        None => 0,
        Some(SetForm::IndexSequential) => 1,
        Some(SetForm::OrderedList) => 2,
    }
}

fn put_where(out: &mut Bytes, s: &Structure) -> Result<(), Memory>
    ensures { OnOk result (out.new ≡ out.old ++ where_bytes (shape_of s.now)) }
{
    if s.is_automatic() {
        return put_cond(out, &s.cond);
    }
    Ok(())
}

#[tactic(auto, unfolding(crate::specs::Spelling::set_bytes))]
fn put_set(out: &mut Bytes, s: &Structure) -> Result<(), Memory>
    ensures { OnOk result (out.new ≡ out.old ++ set_bytes (shape_of s.now)) }
{
    out.extend(&s.set.to_be_bytes())?;
    out.extend(&[form_byte(s.form), u8::from(s.duplicates)])?;
    out.extend(&s.population.to_be_bytes())?;
    put_count(out, s.parts.as_slice().len())?;
    put_parts(out, s.parts.as_slice())?;
    put_where(out, s)
}

#[tactic(auto, unfolding(crate::specs::Spelling::structure_bytes))]
fn put_structure(out: &mut Bytes, s: &Structure) -> Result<(), Memory>
    ensures { OnOk result (out.new ≡ out.old ++ structure_bytes (shape_of s.now)) }
{
    out.push(kind_byte(s.kind))?;
    put_name(out, &s.name)?;
    out.extend(&s.owner.to_be_bytes())?;
    match s.kind {
        StructureKind::DataSet | StructureKind::RestartDataSet => put_data_set(out, s),
        StructureKind::Set | StructureKind::AutomaticSubset | StructureKind::ManualSubset => {
            put_set(out, s)
        }
    }
}

fn put_structures(out: &mut Bytes, structures: &[Structure]) -> Result<(), Memory>
    ensures { OnOk result (out.new ≡ out.old ++ flat_map structure_bytes (map shape_of structures.now)) }
{
    for s in structures {
        put_structure(out, s)?;
    }
    Ok(())
}

/// The bytes of a description. Of one that no schema spells, counts are written modulo the width of
/// their fields. Answers Err where memory is refused.
#[tactic(auto, unfolding(crate::specs::Spelling::spelling))]
pub fn encode(alloc: Global, desc: &Description) -> Result<Bytes, Memory>
    ensures { IfOk result (λ bytes. bytes ≡ spelling (as_described desc.now)) }
{
    let mut out = Bytes::new(alloc);
    out.extend(&[68, 77, 83, 83, 0, 1])?;
    out.extend(&desc.syncpoint.to_be_bytes())?;
    out.extend(&desc.controlpoint.to_be_bytes())?;
    out.extend(&desc.buffers.to_be_bytes())?;
    out.extend(&desc.blocks.to_be_bytes())?;
    out.extend(&desc.files.to_be_bytes())?;
    let structures = desc.structures.as_slice();
    out.extend(&((structures.len() % 65536) as u16).to_be_bytes())?;
    put_structures(&mut out, structures)?;
    Ok(out)
}
