ghost use Rattle.std.specs.Prelude.{IfOk, IsTrue};
ghost use Rattle.dms_block.specs.Held.{HasCausesOr};
ghost use Rattle.dms_block.specs.View.{overlay_content, under};
ghost use Rattle.dms_desc.specs.Shape.{as_described};
ghost use Rattle.dms_links.specs.Altering.{WritesSlots};
ghost use Rattle.dms_links.specs.Stepping.{AreSlotFiles};
ghost use Rattle.dms_store.specs.Lifted.{Serves};
ghost use Rattle.dms_store.specs.Owning.{CountsOwner, IfOwned};
ghost use Rattle.dms_store.specs.Taken.{FreesNone};

use dms_block::{BlockFault, Blocks, Overlay};
use dms_desc::Description;
use dms_links::{SlotChange, alter_in};
use std::alloc::Global;

/// Counts one record more at its owner in a data set, over the blocks. For a record that stands in no other, 0, nothing
/// is counted. False where the owner has no slot, or where its count stands at its type's end.
pub fn count_owner<B: Blocks>(
    over: &mut Overlay<B>,
    alloc: Global,
    desc: &Description,
    set: u16,
    owner: u64,
) -> Result<bool, BlockFault>
    requires sound { (under over.old).sound }
    requires serves { Serves (as_described desc.now) (under over.old) }
    ensures writes { WritesSlots 1 result over.old over.new }
    ensures below { IsTrue (under over.old).told → IfOwned set (AreSlotFiles (as_described desc.now) (overlay_content over.old)) → HasCausesOr (λ f b. ⊥) result (under over.old) (under over.new) }
    ensures counted { IfOk result (CountsOwner (as_described desc.now) set owner over.old over.new) }
    ensures taken { IfOk result (λ done. FreesNone (as_described desc.now) over.old over.new) }
{
    if set == 0 {
        return Ok(true);
    }
    alter_in(over, alloc, desc, set, owner, SlotChange::Owned)
}
