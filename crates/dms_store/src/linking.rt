ghost use Rattle.std.specs.Prelude.{◌≡◌, IfOk};
ghost use Rattle.std.specs.Option.{option_copied};
ghost use Rattle.dms_store.specs.PuttingAfter.{linked_over, slot_after};

use dms_base::{Memory, Value};
use dms_desc::{Record, Structure};
use dms_layout::Slot;
use dms_model::with_links_of;
use std::alloc::Global;

// A record's values, with this owner and the links as they stood.
fn linked_over(
    alloc: Global,
    s: &Structure,
    owner: u64,
    olds: &[Value],
    rec: &Record,
) -> Result<Record, Memory>
    ensures { IfOk result (λ r. r ≡ linked_over s.now.items owner olds.now rec.now) }
{
    Ok(Record {
        owner,
        values: with_links_of(alloc, s.items.as_slice(), olds, rec.values.as_slice())?,
    })
}

/// The slot of what is stored for a record, where this one stands there.
pub fn slot_after(
    alloc: Global,
    s: &Structure,
    old: Option<&Slot>,
    rec: &Record,
) -> Result<Slot, Memory>
    ensures { IfOk result (λ x. x ≡ slot_after s.now.items (option_copied old.entry) rec.now) }
{
    match old {
        None => Ok(Slot {
            rec: linked_over(alloc, s, rec.owner, &[], rec)?,
            counted: 0,
            owned: 0,
        }),
        Some(old) => Ok(Slot {
            rec: linked_over(alloc, s, old.rec.owner, old.rec.values.as_slice(), rec)?,
            counted: old.counted,
            owned: old.owned,
        }),
    }
}
