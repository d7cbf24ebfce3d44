ghost use Rattle.std.specs.Prelude.{◌≡◌, ◌++◌, ◌≤◌, OnOk, IfOk, length};
ghost use Rattle.dms_layout.specs.Slots.{record_bytes, slot_bytes, slot_width};

use crate::Slot;
use dms_base::{Bytes, Memory, Value};
use dms_desc::{Item, Structure, width_of};
use dms_key::put_field;
use std::alloc::Global;

/// How many bytes a slot of a data set with these items has.
pub fn slot_width(items: &[Item]) -> usize
    requires { length items.now ≤ 60 }
    ensures width { result ≡ slot_width items.now }
    ensures most { result ≤ 20000 }
{
    let mut width = 13usize;
    for item in items {
        width += width_of(item.kind) as usize + 1;
    }
    width
}

fn put_record(out: &mut Bytes, items: &[Item], values: &[Value]) -> Result<(), Memory>
    ensures { OnOk result (out.new ≡ out.old ++ record_bytes items.now values.now) }
{
    let mut rest = values;
    for item in items {
        match rest {
            [] => return Ok(()),
            [value, more @ ..] => {
                put_field(out, item.kind, value)?;
                rest = more;
            }
        }
    }
    Ok(())
}

/// The bytes of a record's slot. They are as many as a slot of the data set has where the values fit; an owner from
/// 2 to the power 32 on isn't spelled whole. Answers Err where memory is refused.
pub fn to_slot(alloc: Global, desc: &Structure, slot: &Slot) -> Result<Bytes, Memory>
    ensures { IfOk result (λ b. b ≡ slot_bytes desc.now.items slot.now) }
{
    let mut out = Bytes::new(alloc);
    out.push(1)?;
    out.extend(&slot.rec.owner.to_be_bytes()[4..])?;
    out.extend(&slot.counted.to_be_bytes())?;
    out.extend(&slot.owned.to_be_bytes())?;
    put_record(&mut out, desc.items.as_slice(), slot.rec.values.as_slice())?;
    Ok(out)
}
