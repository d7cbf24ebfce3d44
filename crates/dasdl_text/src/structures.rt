use crate::conditions::put_clause;
use crate::items::put_members;
use crate::words::{put_indent, put_said};
use dms_base::{Bytes, Memory, SetForm, StructureKind};
use dms_desc::{Description, Item, KeyPart, Structure, file_of};

/// Adds the comment that says in which file a structure stands.
fn put_file(out: &mut Bytes, levels: usize, number: u16) -> Result<(), Memory> {
    put_indent(out, levels)?;
    put_said(out, b"% ", u64::from(file_of(number)))?;
    out.push(b'\n')
}

/// Adds the head of a data set, and its items.
fn put_data_set(
    out: &mut Bytes,
    desc: &Description,
    open: &mut Vec<u16>,
    words: &[u8],
    data_set: &Structure,
) -> Result<(), Memory> {
    out.extend(words)?;
    open.push(data_set.number)?;
    let items = data_set.items.as_slice();
    put_members(out, desc, open.len(), items, data_set.groups.as_slice())
}

/// Adds the end of a data set: its VERIFY and its POPULATION.
fn put_end(out: &mut Bytes, levels: usize, data_set: &Structure) -> Result<(), Memory> {
    put_indent(out, levels)?;
    out.push(b')')?;
    put_clause(out, b" VERIFY ", data_set.items.as_slice(), &data_set.cond)?;
    put_said(out, b" POPULATION = ", u64::from(data_set.population))?;
    out.extend(b";\n")
}

/// Ends the data sets that are open, the innermost first, up to the one with a number.
pub fn close_up_to(
    out: &mut Bytes,
    desc: &Description,
    open: &mut Vec<u16>,
    number: u16,
) -> Result<(), Memory> {
    while let Some(innermost) = open.pop() {
        if innermost == number {
            open.push(innermost)?;
            return Ok(());
        }
        if let Some(data_set) = desc.structure(innermost) {
            put_end(out, open.len(), data_set)?;
        }
    }
    Ok(())
}

fn put_part(out: &mut Bytes, items: &[Item], part: &KeyPart) -> Result<(), Memory> {
    if let Some(item) = part.item(items) {
        out.extend(item.name.bytes())?;
    }
    if part.descending {
        return out.extend(b" DESCENDING");
    }
    Ok(())
}

fn put_more_parts(out: &mut Bytes, items: &[Item], parts: &[KeyPart]) -> Result<(), Memory> {
    for part in parts {
        out.extend(b", ")?;
        put_part(out, items, part)?;
    }
    Ok(())
}

fn put_duplicates(out: &mut Bytes, duplicates: bool) -> Result<(), Memory> {
    if duplicates {
        return out.extend(b" DUPLICATES");
    }
    Ok(())
}

/// Adds a key and whether it has duplicates, and nothing where there is no key: a manual subset without one has
/// duplicates whatever is said.
fn put_key(
    out: &mut Bytes,
    items: &[Item],
    parts: &[KeyPart],
    duplicates: bool,
) -> Result<(), Memory> {
    match parts {
        [] => Ok(()),
        [first, more @ ..] => {
            out.extend(b" KEY IS (")?;
            put_part(out, items, first)?;
            put_more_parts(out, items, more)?;
            out.push(b')')?;
            put_duplicates(out, duplicates)
        }
    }
}

fn put_form(out: &mut Bytes, form: Option<SetForm>) -> Result<(), Memory> {
    match form {
        Some(SetForm::OrderedList) => out.extend(b" ORDERED LIST"),
        Some(SetForm::IndexSequential) | None => Ok(()),
    }
}

/// Adds the POPULATION of a manual subset. That of another set is read and not used.
fn put_population(out: &mut Bytes, set: &Structure) -> Result<(), Memory> {
    if set.is_manual() {
        return put_said(out, b" POPULATION = ", u64::from(set.population));
    }
    Ok(())
}

/// Adds the rest of a set or a subset, behind its name.
fn put_set(
    out: &mut Bytes,
    desc: &Description,
    words: &[u8],
    set: &Structure,
) -> Result<(), Memory> {
    let items = desc.items_of(set.set);
    out.extend(words)?;
    out.extend(desc.name_of(set.set).bytes())?;
    put_clause(out, b" WHERE ", items, &set.cond)?;
    put_key(out, items, set.parts.as_slice(), set.duplicates)?;
    put_form(out, set.form)?;
    put_population(out, set)?;
    out.extend(b";\n")
}

/// Adds a structure, of a data set its head and its items; the data sets that it doesn't stand in are ended before
/// it. Each structure stands behind its owner and what stands in that before it, so that the text has the order of
/// the numbers.
pub fn put_structure(
    out: &mut Bytes,
    desc: &Description,
    open: &mut Vec<u16>,
    structure: &Structure,
) -> Result<(), Memory> {
    close_up_to(out, desc, open, structure.owner)?;
    put_file(out, open.len(), structure.number)?;
    put_indent(out, open.len())?;
    out.extend(structure.name.bytes())?;
    match structure.kind {
        StructureKind::DataSet => put_data_set(out, desc, open, b" DATA SET (\n", structure),
        StructureKind::RestartDataSet => {
            put_data_set(out, desc, open, b" RESTART DATA SET (\n", structure)
        }
        StructureKind::Set => put_set(out, desc, b" SET OF ", structure),
        StructureKind::AutomaticSubset | StructureKind::ManualSubset => {
            put_set(out, desc, b" SUBSET OF ", structure)
        }
    }
}
