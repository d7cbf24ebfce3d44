ghost use Rattle.std.specs.Prelude.{◌≡◌};
ghost use Rattle.dms_desc.specs.Shape.{as_described, shape_of};
ghost use Rattle.dms_entries.specs.Promises.{ReadsRecord};
ghost use Rattle.dms_model.specs.Fitting.{IsDataSet, is_number};
ghost use Rattle.dms_spelling.specs.Ready.{IsReady};
ghost use Rattle.std.specs.Prelude.{Some};

use dms_block::{BlockFault, Blocks, Overlay};
use dms_desc::{Description, Record, Structure};
use dms_slots::read_slot;
use std::alloc::Global;

// Whether a record of a data set may have this number.
fn is_number(s: &Structure, number: u64) -> bool
    ensures { result ≡ is_number (Some (shape_of s.now)) number }
{
    1 <= number && number <= u64::from(s.population)
}

/// The record of a data set with a number, or none. A number that no record may have is none without a read.
pub(crate) fn record_at<B: Blocks>(
    over: &mut Overlay<B>,
    alloc: Global,
    desc: &Description,
    set: u16,
    number: u64,
) -> Result<Option<Record>, BlockFault>
    requires ready { IsReady (as_described desc.now) over.old }
    requires set { IsDataSet (as_described desc.now) set }
    ensures { ReadsRecord (as_described desc.now) set number result over.old over.new }
{
    match desc.structure(set) {
        None => Ok(None),
        Some(s) => {
            if !is_number(s, number) {
                return Ok(None);
            }
            match read_slot(over, alloc, s, number) {
                Err(e) => Err(e),
                Ok(None) => Ok(None),
                Ok(Some(slot)) => Ok(Some(slot.rec)),
            }
        }
    }
}
