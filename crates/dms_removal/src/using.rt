ghost use Rattle.std.specs.Prelude.{◌≡◌, ◌||◌, [], nat_lt};
ghost use Rattle.dms_block.specs.View.{overlay_changes};
ghost use Rattle.dms_desc.specs.Shape.{as_described, shape_of};
ghost use Rattle.dms_links.specs.AlteringIn.{is_slot};
ghost use Rattle.dms_removal.specs.Promises.{LooksForUse, TellsUse};
ghost use Rattle.dms_spelling.specs.Ready.{IsReady};

use dms_block::{BlockFault, Blocks, Overlay};
use dms_desc::{Description, Structure};
use dms_layout::Slot;
use dms_manual::is_entered;
use dms_slots::read_slot;
use std::alloc::Global;

/// Whether a structure is a data set, and a record of it may have this number.
#[tactic(auto, using(dms_desc::specs::Numbered::above_none))]
pub(crate) fn is_slot(s: &Structure, number: u64) -> bool
    ensures { result ≡ is_slot (shape_of s.now) number }
{
    s.is_data_set() && 1 <= number && number <= u64::from(s.population)
}

// Whether a slot counts a link, or something that its record owns.
fn counts_something(slot: &Slot) -> bool
    ensures { result ≡ (nat_lt 0 slot.now.counted || nat_lt 0 slot.now.owned) }
{
    0 < slot.counted || 0 < slot.owned
}

// Whether a record is in use, by what its slot counts and by the lists of manual subsets.
fn look<B: Blocks>(
    over: &mut Overlay<B>,
    alloc: Global,
    desc: &Description,
    set: u16,
    number: u64,
) -> Result<bool, BlockFault>
    requires ready { IsReady (as_described desc.now) over.old }
    ensures { LooksForUse (as_described desc.now) set number result over.old over.new }
{
    match desc.structure(set) {
        None => Ok(false),
        Some(s) => {
            if !is_slot(s, number) {
                return Ok(false);
            }
            match read_slot(over, alloc, s, number) {
                Err(e) => Err(e),
                Ok(None) => Ok(false),
                Ok(Some(slot)) => {
                    if counts_something(&slot) {
                        return Ok(true);
                    }
                    is_entered(over, alloc, desc, set, number)
                }
            }
        }
    }
}

/// Whether a counted link refers to a record, its own included, an entry of a manual subset names it, or it owns records
/// or entries. Nothing is written over the blocks before, nor afterwards. It may read the whole list of each manual
/// subset of the data set.
pub fn in_use<B: Blocks>(
    over: &mut Overlay<B>,
    alloc: Global,
    desc: &Description,
    set: u16,
    number: u64,
) -> Result<bool, BlockFault>
    requires ready { IsReady (as_described desc.now) over.old }
    requires none { overlay_changes over.old ≡ [] }
    ensures { TellsUse (as_described desc.now) set number result over.old over.new }
{
    let answer = look(over, alloc, desc, set, number);
    over.forget();
    answer
}
