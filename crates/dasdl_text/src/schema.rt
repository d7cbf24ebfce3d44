use crate::structures::{close_up_to, put_structure};
use crate::words::put_said;
use dms_base::{Bytes, Memory};
use dms_desc::{Description, Structure};
use std::alloc::Global;

fn put_parameters(out: &mut Bytes, desc: &Description) -> Result<(), Memory> {
    put_said(out, b"PARAMETERS (SYNCPOINT = ", u64::from(desc.syncpoint))?;
    put_said(
        out,
        b" TRANSACTIONS, CONTROLPOINT = ",
        u64::from(desc.controlpoint),
    )?;
    put_said(out, b" SYNCPOINTS, BUFFERS = ", u64::from(desc.buffers))?;
    out.extend(b" BLOCKS);\n")
}

fn put_audit(out: &mut Bytes, desc: &Description) -> Result<(), Memory> {
    put_said(out, b"AUDIT TRAIL (BLOCKS = ", u64::from(desc.blocks))?;
    put_said(out, b", FILES = ", u64::from(desc.files))?;
    out.extend(b");\n")
}

fn put_structures(
    out: &mut Bytes,
    desc: &Description,
    open: &mut Vec<u16>,
    structures: &[Structure],
) -> Result<(), Memory> {
    for structure in structures {
        put_structure(out, desc, open, structure)?;
    }
    close_up_to(out, desc, open, 0)
}

/// The text of a schema that has this description: each number is said, also where it is the default, and before
/// each structure stands the number of its file in a comment. Answers Err where memory is refused.
pub fn schema_text(alloc: Global, desc: &Description) -> Result<Bytes, Memory> {
    let mut text = Bytes::new(alloc);
    let mut open = Vec::new(alloc);
    put_parameters(&mut text, desc)?;
    put_audit(&mut text, desc)?;
    put_structures(&mut text, desc, &mut open, desc.structures.as_slice())?;
    Ok(text)
}
