ghost use Rattle.std.specs.Prelude.{◌≡◌, IfOk};
ghost use Rattle.std.specs.Int.{to_be_bytes};
ghost use Rattle.dms_desc.specs.Shape.{shape_of};
ghost use Rattle.dms_key.specs.KeyBytes.{key_bytes};
ghost use Rattle.dms_sets.specs.Changes.{entry_in, front_in};
ghost use Rattle.dms_sets.specs.Entries.{kinds_of};

use dms_base::{Bytes, ItemKind, Memory};
use dms_desc::{Item, Record, Structure};
use dms_key::key_bytes;
use dms_model::key_of;
use std::alloc::Global;

/// The kinds of a data set's items. Answers Err where memory is refused.
pub fn kinds_of(alloc: Global, items: &[Item]) -> Result<Vec<ItemKind>, Memory>
    ensures { IfOk result (λ v. v.items ≡ kinds_of items.now) }
{
    let mut kinds = Vec::new(alloc);
    for item in items {
        kinds.push(item.kind)?;
    }
    Ok(kinds)
}

/// The bytes with which the entries of a record's owner and key begin.
pub fn front(
    alloc: Global,
    s: &Structure,
    kinds: &[ItemKind],
    rec: &Record,
) -> Result<Bytes, Memory>
    ensures { IfOk result (λ b. b ≡ front_in kinds.now (shape_of s.now) rec.now) }
{
    let parts = s.parts.as_slice();
    let key = key_of(alloc, parts, rec.values.as_slice())?;
    let mut out = Bytes::copy_of(alloc, &rec.owner.to_be_bytes()[4..])?;
    out.extend(key_bytes(alloc, parts, kinds, key.as_slice())?.as_slice())?;
    Ok(out)
}

/// The entry of a record in a set, where the set takes it.
pub fn entry(
    alloc: Global,
    s: &Structure,
    kinds: &[ItemKind],
    number: u64,
    rec: &Record,
) -> Result<Option<Bytes>, Memory>
    ensures { IfOk result (λ o. o ≡ entry_in kinds.now (shape_of s.now) number rec.now) }
{
    if !s.takes(rec.values.as_slice()) {
        return Ok(None);
    }
    let mut out = front(alloc, s, kinds, rec)?;
    out.extend(&number.to_be_bytes()[4..])?;
    Ok(Some(out))
}
