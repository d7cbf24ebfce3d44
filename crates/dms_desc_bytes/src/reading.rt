ghost use Rattle.std.specs.Prelude.{◌≡◌, IfOk, Some, map};
ghost use Rattle.dms_desc.specs.Shape.{tree_of, shape_of, as_described, form_number, kind_number};
ghost use Rattle.dms_desc_bytes.specs.Decoding.{Decodes, number_of};
ghost use Rattle.dms_desc_bytes.specs.Reading.{known_kind, known_form, data_set_at, where_at, set_at, fields_at, structure_at, all_structures_at, description_at};

use crate::checks::{are_sound, has_parameters};
use crate::input::Input;
use crate::parts::{read_cond, read_groups, read_items, read_parts};
use crate::writing::encode;
use dms_base::{Memory, Name, SetForm, StructureKind};
use dms_desc::{Cond, Description, Groups, Items, KeyParts, Structure, Structures};
use std::alloc::Global;

/// The levels that a condition of 100 nodes can have.
const LEVELS: u8 = 100;

/// The bytes that a description may have.
const MOST_BYTES: usize = 65_535;

/// What stands before the fields of a kind of structure; its kind as the byte that was read.
#[derive(Clone, Copy, Debug, PartialEq, Eq)]
struct Head {
    number: u16,
    kind: u8,
    name: Name,
    owner: u16,
}

/// The kind of structure that a byte says; a manual subset where it says none.
fn kind_of_byte(byte: u8) -> StructureKind
    ensures { kind_number result ≡ known_kind byte }
{
    match byte {
        1 => StructureKind::DataSet,
        2 => StructureKind::RestartDataSet,
        3 => StructureKind::Set,
        4 => StructureKind::AutomaticSubset,
        _ => StructureKind::ManualSubset,
    }
}

/// The form that a byte says; an ordered list where it says none.
fn form_of_byte(byte: u8) -> SetForm
    ensures { form_number (Some result) ≡ known_form byte }
{
    match byte {
        1 => SetForm::IndexSequential,
        _ => SetForm::OrderedList,
    }
}

#[tactic(auto, unfolding(crate::specs::Reading::data_set_at))]
fn read_data_set(alloc: Global, head: Head, input: &mut Input<'_>) -> Result<Structure, Memory>
    ensures { IfOk result (λ s. (shape_of s, input.new) ≡ data_set_at head input.old) }
{
    let population = input.u32();
    let items = read_items(alloc, input)?;
    let groups = read_groups(alloc, input)?;
    let cond = read_cond(alloc, LEVELS, input)?;
    Ok(Structure {
        number: head.number,
        kind: kind_of_byte(head.kind),
        name: head.name,
        owner: head.owner,
        population,
        items,
        groups,
        cond,
        set: 0,
        form: None,
        duplicates: false,
        parts: KeyParts::new(alloc),
    })
}

#[tactic(auto, unfolding(crate::specs::Reading::where_at))]
fn read_where(alloc: Global, kind: u8, input: &mut Input<'_>) -> Result<Cond, Memory>
    ensures { IfOk result (λ c. (tree_of c, input.new) ≡ where_at kind input.old) }
{
    if kind == 4 {
        return read_cond(alloc, LEVELS, input);
    }
    Ok(Cond::Nothing)
}

#[tactic(auto, unfolding(crate::specs::Reading::set_at))]
fn read_set(alloc: Global, head: Head, input: &mut Input<'_>) -> Result<Structure, Memory>
    ensures { IfOk result (λ s. (shape_of s, input.new) ≡ set_at head input.old) }
{
    let set = input.u16();
    let form = input.byte();
    let duplicates = input.flag();
    let population = input.u32();
    let parts = read_parts(alloc, input)?;
    let cond = read_where(alloc, head.kind, input)?;
    Ok(Structure {
        number: head.number,
        kind: kind_of_byte(head.kind),
        name: head.name,
        owner: head.owner,
        population,
        items: Items::new(alloc),
        groups: Groups::new(alloc),
        cond,
        set,
        form: Some(form_of_byte(form)),
        duplicates,
        parts,
    })
}

#[tactic(auto, unfolding(crate::specs::Reading::fields_at))]
fn read_fields(alloc: Global, head: Head, input: &mut Input<'_>) -> Result<Structure, Memory>
    ensures { IfOk result (λ s. (shape_of s, input.new) ≡ fields_at head input.old) }
{
    if head.kind == 1 || head.kind == 2 {
        return read_data_set(alloc, head, input);
    }
    read_set(alloc, head, input)
}

#[tactic(auto, unfolding(crate::specs::Reading::structure_at))]
fn read_structure(alloc: Global, number: u16, input: &mut Input<'_>) -> Result<Structure, Memory>
    ensures { IfOk result (λ s. (shape_of s, input.new) ≡ structure_at number input.old) }
{
    let kind = input.byte();
    let name = input.name();
    let owner = input.u16();
    let head = Head {
        number,
        kind,
        name,
        owner,
    };
    read_fields(alloc, head, input)
}

#[tactic(auto, unfolding(crate::specs::Reading::all_structures_at))]
fn read_structures(alloc: Global, input: &mut Input<'_>) -> Result<Structures, Memory>
    ensures { IfOk result (λ v. (map shape_of v, input.new) ≡ all_structures_at input.old) }
{
    let mut structures = Structures::new(alloc);
    let count = input.u16();
    for before in 0..count {
        structures.push(read_structure(alloc, before + 1, input)?)?;
    }
    Ok(structures)
}

/// What stands in these bytes, whatever they are.
#[tactic(auto, unfolding(crate::specs::Reading::description_at))]
fn read_description(alloc: Global, bytes: &[u8]) -> Result<Description, Memory>
    ensures { IfOk result (λ d. as_described d ≡ (description_at bytes.now).0) }
{
    let mut input = Input::new(bytes);
    input.bytes(6);
    let syncpoint = input.u16();
    let controlpoint = input.u16();
    let buffers = input.u16();
    let blocks = input.u16();
    let files = input.u16();
    let structures = read_structures(alloc, &mut input)?;
    Ok(Description {
        syncpoint,
        controlpoint,
        buffers,
        blocks,
        files,
        structures,
    })
}

/// The description that these bytes spell; None exactly where no well-formed description is spelled so.
/// What stands in the bytes is read, and then it must be well-formed and written as the same bytes.
pub fn decode(alloc: Global, bytes: &[u8]) -> Result<Option<Description>, Memory>
    ensures { IfOk result (λ found. Decodes bytes.now found) }
{
    if bytes.len() > MOST_BYTES {
        return Ok(None);
    }
    let desc = read_description(alloc, bytes)?;
    let again = encode(alloc, &desc)?;
    if again.as_slice() != bytes {
        return Ok(None);
    }
    if !has_parameters(&desc) {
        return Ok(None);
    }
    if !are_sound(desc.structures.as_slice()) {
        return Ok(None);
    }
    Ok(Some(desc))
}

/// The number of the structure with this name; None exactly where no structure has it.
#[tactic(auto, unfolding(crate::specs::Decoding::number_of))]
pub fn find(desc: &Description, name: &Name) -> Option<u16>
    ensures { result ≡ number_of name.now (map shape_of desc.now.structures) }
{
    for structure in desc.structures.as_slice() {
        if structure.name.is(name) {
            return Some(structure.number);
        }
    }
    None
}
