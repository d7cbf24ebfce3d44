ghost use Rattle.dms_desc.specs.Shape.{as_described};
ghost use Rattle.dms_links.specs.AlteringIn.{MayChangeIn};
ghost use Rattle.dms_links.specs.declared.altering.SlotChange.TheVariants.{Linked};
ghost use Rattle.dms_removal.specs.Promises.{LinksRecord};
ghost use Rattle.dms_spelling.specs.Ready.{IsReady};

use crate::using::is_slot;
use dms_block::{BlockFault, Blocks, Overlay};
use dms_desc::Description;
use dms_links::set_link;
use std::alloc::Global;

/// Sets a link of a record, by its item's number from 1, to null or to the record with a number below 2^32. At most 3
/// blocks are written over those below. Where it is false, or an error, what was written is to be forgotten; where a
/// database is told that has the record and what the link is to refer to, it is true.
pub fn link<B: Blocks>(
    over: &mut Overlay<B>,
    alloc: Global,
    desc: &Description,
    set: u16,
    number: u64,
    item: u8,
    to: Option<u64>,
) -> Result<bool, BlockFault>
    requires ready { IsReady (as_described desc.now) over.old }
    requires may { MayChangeIn (as_described desc.now) set (Linked item to) }
    ensures { LinksRecord (as_described desc.now) set number item to result over.old over.new }
{
    match desc.structure(set) {
        None => Ok(false),
        Some(s) => {
            if !is_slot(s, number) {
                return Ok(false);
            }
            set_link(over, alloc, desc, set, number, item, to)
        }
    }
}
