ghost use Rattle.std.specs.Prelude.{◌≡◌, IfOk, OnOk, OnErr, Some};
ghost use Rattle.std.specs.FinMap.{get};
ghost use Rattle.dms_desc.specs.Shape.{as_described};
ghost use Rattle.dms_model.specs.Uses.{link_value, linked_record};
ghost use Rattle.dms_plain.specs.Listed.{AreLists};
ghost use Rattle.dms_plain.specs.Rows.{IsInOrder, records_in, undo_all};
ghost use Rattle.dms_plain.specs.Removed.{linked_at};

use crate::members::Members;
use crate::rows::{RecordRow, Undo};
use crate::state::{self, store_row};
use dms_base::{Memory, Value};
use dms_desc::{Description, Record};
use std::alloc::Global;

/// A link that is null, or refers to the record with this number.
fn link_value(to: Option<u64>) -> Value
    ensures { result ≡ link_value to }
{
    match to {
        None => Value::Null,
        Some(number) => Value::Link(number),
    }
}

/// A copy of a record with a link set; items count from 1.
fn linked_record(alloc: Global, rec: &Record, item: u8, to: Option<u64>) -> Result<Record, Memory>
    ensures { IfOk result (λ r. r ≡ linked_record (Some rec.now) item to) }
{
    let mut values = rec.values.copy(alloc)?;
    values.set((item as usize).saturating_sub(1), link_value(to));
    Ok(Record {
        owner: rec.owner,
        values,
    })
}

/// Sets a link of a record, where the record stands. Answers Err where memory is refused.
pub fn link(
    alloc: Global,
    desc: &Description,
    rows: &mut Vec<RecordRow>,
    lists: &mut Vec<Members>,
    undo: &mut Vec<Undo>,
    set: u16,
    number: u64,
    item: u8,
    to: Option<u64>,
) -> Result<(), Memory>
    requires in_order { IsInOrder rows.old.items }
    requires listed { AreLists (as_described desc.now).structures lists.old.items (records_in rows.old.items) }
    ensures in_order { IsInOrder rows.new.items }
    ensures listed { AreLists (as_described desc.now).structures lists.new.items (records_in rows.new.items) }
    ensures db { OnOk result (records_in rows.new.items ≡ linked_at (get (records_in rows.old.items) (set, number)) (records_in rows.old.items) (set, number) item to) }
    ensures mark { OnOk result (undo_all undo.new.items (records_in rows.new.items) ≡ undo_all undo.old.items (records_in rows.old.items)) }
    ensures err_rows { OnErr result (rows.new.items ≡ rows.old.items) }
    ensures err_undo { OnErr result (undo.new.items ≡ undo.old.items) }
{
    match state::get(alloc, rows.as_slice(), set, number)? {
        None => Ok(()),
        Some(old) => {
            let rec = linked_record(alloc, &old, item, to)?;
            let row = RecordRow { set, number, rec };
            store_row(alloc, desc, rows, lists, undo, row, Some(old))
        }
    }
}
