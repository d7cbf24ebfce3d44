use crate::literals::put_literal;
use crate::words::{put_indent, put_number, put_said};
use dms_base::{Bytes, ItemKind, Memory, Value};
use dms_desc::{Description, Group, Item, after_item};

fn put_decimals(out: &mut Bytes, decimals: u8) -> Result<(), Memory> {
    if decimals == 0 {
        return Ok(());
    }
    put_said(out, b",", u64::from(decimals))
}

/// Adds `NUMBER` with its digits, its decimals and its `S`.
fn put_number_type(out: &mut Bytes, digits: u8, decimals: u8, signed: bool) -> Result<(), Memory> {
    out.extend(b" NUMBER(")?;
    if signed {
        out.push(b'S')?;
    }
    put_number(out, u64::from(digits))?;
    put_decimals(out, decimals)?;
    out.push(b')')
}

/// Adds a type and its length in brackets.
fn put_sized_type(out: &mut Bytes, words: &[u8], size: u8) -> Result<(), Memory> {
    put_said(out, words, u64::from(size))?;
    out.push(b')')
}

fn put_link_type(
    out: &mut Bytes,
    desc: &Description,
    target: u16,
    counted: bool,
) -> Result<(), Memory> {
    out.extend(b" LINK TO ")?;
    out.extend(desc.name_of(target).bytes())?;
    if counted {
        return out.extend(b" COUNTED");
    }
    Ok(())
}

/// Adds what stands behind the name of an item or a link.
fn put_kind(out: &mut Bytes, desc: &Description, kind: ItemKind) -> Result<(), Memory> {
    match kind {
        ItemKind::Alpha(size) => put_sized_type(out, b" ALPHA(", size),
        ItemKind::Number(digits, decimals, signed) => {
            put_number_type(out, digits, decimals, signed)
        }
        ItemKind::Bool => out.extend(b" BOOLEAN"),
        ItemKind::Field(size) => put_sized_type(out, b" FIELD(", size),
        ItemKind::Link(target, counted) => put_link_type(out, desc, target, counted),
    }
}

fn put_required(out: &mut Bytes, required: bool) -> Result<(), Memory> {
    if required {
        return out.extend(b" REQUIRED");
    }
    Ok(())
}

fn put_initial(out: &mut Bytes, kind: ItemKind, initial: &Value) -> Result<(), Memory> {
    match initial {
        Value::Null => Ok(()),
        _ => {
            out.extend(b" INITIALVALUE = ")?;
            put_literal(out, kind, initial)
        }
    }
}

/// Adds an item or a link, with its LF.
fn put_item(out: &mut Bytes, desc: &Description, item: &Item) -> Result<(), Memory> {
    out.extend(item.name.bytes())?;
    put_kind(out, desc, item.kind)?;
    put_required(out, item.required)?;
    put_initial(out, item.kind, &item.initial)?;
    out.extend(b";\n")
}

/// The place of an item, counted from 1, among those of a group, counted from 0; None where it isn't one of them.
fn place_in(group: &Group, number: u8) -> Option<u8> {
    if number < group.first || number - group.first >= group.count {
        return None;
    }
    Some(number - group.first)
}

/// The group that an item stands in.
fn group_around(groups: &[Group], number: u8) -> Option<&Group> {
    for group in groups {
        if place_in(group, number).is_some() {
            return Some(group);
        }
    }
    None
}

fn put_group_head(out: &mut Bytes, levels: usize, group: &Group, number: u8) -> Result<(), Memory> {
    if number != group.first {
        return Ok(());
    }
    put_indent(out, levels)?;
    out.extend(group.name.bytes())?;
    out.extend(b" GROUP (\n")
}

fn put_group_end(out: &mut Bytes, levels: usize, group: &Group, number: u8) -> Result<(), Memory> {
    if place_in(group, after_item(number)).is_some() {
        return Ok(());
    }
    put_indent(out, levels)?;
    out.extend(b");\n")
}

/// Adds an item that stands in a group, with the group's head before its first one and the group's end behind its
/// last one.
fn put_grouped(
    out: &mut Bytes,
    desc: &Description,
    levels: usize,
    group: &Group,
    number: u8,
    item: &Item,
) -> Result<(), Memory> {
    put_group_head(out, levels, group, number)?;
    put_indent(out, levels)?;
    out.extend(b"  ")?;
    put_item(out, desc, item)?;
    put_group_end(out, levels, group, number)
}

/// Adds an item or a link, counted from 1, and what stands around it of its group.
fn put_member(
    out: &mut Bytes,
    desc: &Description,
    levels: usize,
    groups: &[Group],
    number: u8,
    item: &Item,
) -> Result<(), Memory> {
    match group_around(groups, number) {
        None => {
            put_indent(out, levels)?;
            put_item(out, desc, item)
        }
        Some(group) => put_grouped(out, desc, levels, group, number, item),
    }
}

/// Adds the items, groups and links of a data set, inside so many data sets.
pub fn put_members(
    out: &mut Bytes,
    desc: &Description,
    levels: usize,
    items: &[Item],
    groups: &[Group],
) -> Result<(), Memory> {
    let mut number = 1u8;
    for item in items {
        put_member(out, desc, levels, groups, number, item)?;
        number = after_item(number);
    }
    Ok(())
}
