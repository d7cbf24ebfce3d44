ghost use Rattle.dms_block.specs.View.{under};
ghost use Rattle.dms_desc.specs.Shape.{as_described};
ghost use Rattle.dms_entries.specs.Owners.{owner_steps};
ghost use Rattle.dms_links.specs.AlteringIn.{MayChangeIn};
ghost use Rattle.dms_links.specs.Stepping.{HoldsSets};
ghost use Rattle.dms_links.specs.Taking.{TakesSteps};

use dms_block::{BlockFault, Blocks, Overlay};
use dms_desc::Description;
use dms_links::{SlotChange, alter_in};
use std::alloc::Global;

/// Changes the slot of the owner of an entry, where it has one. False where that slot isn't changed.
pub(crate) fn count_owner<B: Blocks>(
    over: &mut Overlay<B>,
    alloc: Global,
    desc: &Description,
    set: u16,
    owner: u64,
    change: SlotChange,
) -> Result<bool, BlockFault>
    requires sound { (under over.old).sound }
    requires holds { HoldsSets (as_described desc.now) (under over.old) }
    requires may { MayChangeIn (as_described desc.now) set change }
    ensures { TakesSteps (as_described desc.now) (owner_steps set owner change) 1 result over.old over.new }
{
    if set == 0 {
        return Ok(true);
    }
    alter_in(over, alloc, desc, set, owner, change)
}
