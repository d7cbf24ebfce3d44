ghost use Rattle.std.specs.Prelude.{◌≡◌};
ghost use Rattle.dms_block.specs.View.{under};
ghost use Rattle.dms_desc.specs.Shape.{as_described};
ghost use Rattle.dms_links.specs.Stepping.{HoldsSets};
ghost use Rattle.dms_removal.specs.Clears.{ClearsSlots};

use dms_block::{BlockFault, Blocks, Overlay};
use dms_desc::Description;
use dms_links::{SlotChange, alter_in};
use std::alloc::Global;

/// The self-correcting links to a record are null in the records at these places. At most one block is written for each.
pub(crate) fn clear<B: Blocks>(
    over: &mut Overlay<B>,
    alloc: Global,
    desc: &Description,
    to: u16,
    number: u64,
    places: &[(u16, u64)],
) -> Result<(), BlockFault>
    requires sound { (under over.old).sound }
    requires holds { HoldsSets (as_described desc.now) (under over.old) }
    ensures { ClearsSlots (as_described desc.now) to number places.now result over.old over.new }
{
    for place in places {
        match alter_in(
            over,
            alloc,
            desc,
            place.0,
            place.1,
            SlotChange::Corrected(to, number),
        ) {
            Err(e) => return Err(e),
            Ok(_done) => {}
        }
    }
    Ok(())
}
