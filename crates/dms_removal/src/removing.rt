ghost use Rattle.std.specs.Prelude.{◌≡◌, []};
ghost use Rattle.dms_block.specs.View.{overlay_changes};
ghost use Rattle.dms_desc.specs.Shape.{as_described};
ghost use Rattle.dms_model.specs.Fitting.{IsDataSet};
ghost use Rattle.dms_removal.specs.Promises.{RemovesRecord, RemovesUnused};
ghost use Rattle.dms_spelling.specs.Ready.{IsReady};

use crate::clearing::clear;
use crate::taking::take_out;
use crate::using::in_use;
use dms_block::{BlockFault, Blocks, Overlay};
use dms_desc::Description;
use dms_links::linkers;
use std::alloc::Global;

// Removes a record that isn't in use.
fn remove_unused<B: Blocks>(
    over: &mut Overlay<B>,
    alloc: Global,
    desc: &Description,
    set: u16,
    number: u64,
) -> Result<bool, BlockFault>
    requires ready { IsReady (as_described desc.now) over.old }
    requires set { IsDataSet (as_described desc.now) set }
    ensures { RemovesUnused (as_described desc.now) set number result over.old over.new }
{
    match linkers(over, alloc, desc, set, number) {
        Err(e) => Err(e),
        Ok(places) => match clear(over, alloc, desc, set, number, places.as_slice()) {
            Err(e) => Err(e),
            Ok(()) => take_out(over, alloc, desc, set, number),
        },
    }
}

/// Removes a record that isn't in use: the self-correcting links to it are null then, the sets over its data set have no
/// entry of it, and the records to which its counted links refer, and its owner, count it no more. Nothing is written
/// over the blocks before. Where it is false, or an error, what was written is to be forgotten; where a database is told
/// that has the record, it is false exactly where the record is in use.
pub fn remove<B: Blocks>(
    over: &mut Overlay<B>,
    alloc: Global,
    desc: &Description,
    set: u16,
    number: u64,
) -> Result<bool, BlockFault>
    requires ready { IsReady (as_described desc.now) over.old }
    requires set { IsDataSet (as_described desc.now) set }
    requires none { overlay_changes over.old ≡ [] }
    ensures { RemovesRecord (as_described desc.now) set number result over.old over.new }
{
    match in_use(over, alloc, desc, set, number) {
        Err(e) => Err(e),
        Ok(true) => Ok(false),
        Ok(false) => remove_unused(over, alloc, desc, set, number),
    }
}
