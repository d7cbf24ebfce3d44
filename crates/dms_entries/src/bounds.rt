ghost use Rattle.std.specs.Prelude.{◌≡◌, ◌++◌, ◌+◌, ◌≤◌, ◌<◌, ◌^◌, IfOk, OnOk, length, replicate};
ghost use Rattle.std.specs.Int.{w32, to_be_bytes};
ghost use Rattle.dms_key.specs.KeyBytes.{key_bytes};
ghost use Rattle.dms_chain.specs.Lists.{pad_bound};
ghost use Rattle.dms_sets.specs.Entries.{entry_bytes};
ghost use Rattle.dms_sets.specs.Padded.{BoundSmall, entry_width, from_bytes, to_bytes};

use dms_base::{Bytes, ItemKind, Memory, Value};
use dms_desc::{Bound, KeyPart};
use dms_key::{key_bytes, max_key};
use std::alloc::Global;

/// How many bytes the entries of a set have.
pub fn entry_width(kinds: &[ItemKind], parts: &[KeyPart]) -> usize
    requires few { length parts.now ≤ 16 }
    ensures { result ≡ entry_width kinds.now parts.now }
{
    8 + max_key(parts, kinds) as usize
}

// Adds so many zeros.
fn fill(out: &mut Bytes, count: usize) -> Result<(), Memory>
    ensures { OnOk result (out.new ≡ out.old ++ replicate count 0) }
{
    for _i in 0..count {
        out.push(0)?;
    }
    Ok(())
}

// Bytes with zeros behind them, as long as an entry of a set.
fn pad_bound(mut bytes: Bytes, kinds: &[ItemKind], parts: &[KeyPart]) -> Result<Bytes, Memory>
    requires few { length parts.now ≤ 16 }
    ensures { IfOk result (λ b. b ≡ pad_bound (entry_width kinds.now parts.now) bytes) }
{
    let count = entry_width(kinds, parts).saturating_sub(bytes.as_slice().len());
    fill(&mut bytes, count)?;
    Ok(bytes)
}

// The number of an owner's record, as entries begin with it.
fn owner_bytes(alloc: Global, owner: u64) -> Result<Bytes, Memory>
    ensures { IfOk result (λ b. b ≡ to_be_bytes w32 owner) }
{
    Bytes::copy_of(alloc, &owner.to_be_bytes()[4..])
}

// An owner's number, and a key or its first values.
fn front(
    alloc: Global,
    kinds: &[ItemKind],
    parts: &[KeyPart],
    owner: u64,
    key: &[Value],
) -> Result<Bytes, Memory>
    ensures { IfOk result (λ b. b ≡ to_be_bytes w32 owner ++ key_bytes kinds.now parts.now key.now) }
{
    let mut out = owner_bytes(alloc, owner)?;
    out.extend(key_bytes(alloc, parts, kinds, key)?.as_slice())?;
    Ok(out)
}

// The bytes of the entry with this owner, key and number.
fn entry_at(
    alloc: Global,
    kinds: &[ItemKind],
    parts: &[KeyPart],
    owner: u64,
    key: &[Value],
    number: u64,
) -> Result<Bytes, Memory>
    ensures { IfOk result (λ b. b ≡ entry_bytes kinds.now parts.now owner key.now number) }
{
    let mut out = front(alloc, kinds, parts, owner, key)?;
    out.extend(&number.to_be_bytes()[4..])?;
    Ok(out)
}

/// What the first entry behind a bound isn't below; none where there is no such entry.
pub fn from_bytes(
    alloc: Global,
    kinds: &[ItemKind],
    parts: &[KeyPart],
    owner: u64,
    from: &Bound,
) -> Result<Option<Bytes>, Memory>
    requires few { length parts.now ≤ 16 }
    ensures { BoundSmall kinds.now parts.now from.now → IfOk result (λ o. o ≡ from_bytes kinds.now parts.now owner from.now) }
{
    match from {
        Bound::Start => Ok(Some(pad_bound(owner_bytes(alloc, owner)?, kinds, parts)?)),
        Bound::End => Ok(None),
        Bound::At(key, n) => {
            let next = (*n).saturating_add(1);
            Ok(Some(entry_at(alloc, kinds, parts, owner, key.as_slice(), next)?))
        }
        Bound::From(key) => {
            let front = front(alloc, kinds, parts, owner, key.as_slice())?;
            Ok(Some(pad_bound(front, kinds, parts)?))
        }
    }
}

/// What the last entry before a bound is below; none where there is no such entry.
pub fn to_bytes(
    alloc: Global,
    kinds: &[ItemKind],
    parts: &[KeyPart],
    owner: u64,
    to: &Bound,
) -> Result<Option<Bytes>, Memory>
    requires few { length parts.now ≤ 16 }
    requires owner { owner < 2 ^ 32 }
    ensures { IfOk result (λ o. o ≡ to_bytes kinds.now parts.now owner to.now) }
{
    match to {
        Bound::Start => Ok(None),
        Bound::End => Ok(Some(pad_bound(owner_bytes(alloc, owner + 1)?, kinds, parts)?)),
        Bound::At(key, n) => { Ok(Some(entry_at(alloc, kinds, parts, owner, key.as_slice(), *n)?)) }
        Bound::From(key) => {
            let front = front(alloc, kinds, parts, owner, key.as_slice())?;
            Ok(Some(pad_bound(front, kinds, parts)?))
        }
    }
}
