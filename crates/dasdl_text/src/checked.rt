ghost use Rattle.std.specs.Prelude.{IfOk, IfSome, IsTrue};
ghost use Rattle.dms_desc.specs.Shape.{as_described};
ghost use Rattle.dasdl_text.specs.Schemas.{IsCompiled, IsSchemaOf, SpellsSame};

use crate::schema::schema_text;
use dasdl_compile::{CompileFault, compile};
use dasdl_parse::{Schema, parse};
use dasdl_phrases::ParseFault;
use dms_base::{Bytes, Memory};
use dms_desc::Description;
use dms_desc_bytes::encode;
use std::alloc::Global;

/// The description of a schema; None where it has a fault.
fn compiled(alloc: Global, schema: &Schema) -> Result<Option<Description>, Memory>
    ensures { IfOk result (λ found. IfSome found (λ d. IsCompiled schema.now (as_described d))) }
{
    match compile(alloc, schema) {
        Ok(desc) => Ok(Some(desc)),
        Err(CompileFault::Memory) => Err(Memory),
        Err(_) => Ok(None),
    }
}

/// The description that a text is a schema of; None where it is none.
fn described(alloc: Global, text: &[u8]) -> Result<Option<Description>, Memory>
    ensures { IfOk result (λ found. IfSome found (λ d. IsSchemaOf text.now (as_described d))) }
{
    match parse(alloc, text) {
        Ok(schema) => compiled(alloc, &schema),
        Err(ParseFault::Memory) => Err(Memory),
        Err(_) => Ok(None),
    }
}

/// Whether a text is a schema of a description with the bytes of this one.
fn spells(alloc: Global, text: &[u8], desc: &Description) -> Result<bool, Memory>
    ensures { IfOk result (λ same. IsTrue same → SpellsSame text.now (as_described desc.now)) }
{
    let Some(again) = described(alloc, text)? else {
        return Ok(false);
    };
    let read = encode(alloc, &again)?;
    let given = encode(alloc, desc)?;
    Ok(read.as_slice() == given.as_slice())
}

/// The text of `schema_text`, parsed and compiled again: it is given only where that makes the bytes of this
/// description. Answers Err where memory is refused.
pub fn checked_text(alloc: Global, desc: &Description) -> Result<Option<Bytes>, Memory>
    ensures { IfOk result (λ found. IfSome found (λ text. SpellsSame text (as_described desc.now))) }
{
    let text = schema_text(alloc, desc)?;
    if spells(alloc, text.as_slice(), desc)? {
        return Ok(Some(text));
    }
    Ok(None)
}
