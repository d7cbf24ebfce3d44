ghost use Rattle.std.specs.Prelude.{◌≡◌, ◌<◌, ◌^◌, Some};
ghost use Rattle.dms_desc.specs.Lookups.{structure_of};
ghost use Rattle.dms_desc.specs.Shape.{as_described, shape_of};
ghost use Rattle.dms_entries.specs.Promises.{ChangesEntries, Leaves, LeavesMember};
ghost use Rattle.dms_spelling.specs.Ready.{IsReady};
ghost use Rattle.dms_model.specs.Changing.{IsManual};
ghost use Rattle.dms_model.specs.Fitting.{RecordFits};

use crate::counting::count_owner;
use crate::record::record_at;
use dms_block::{BlockFault, Blocks, Overlay};
use dms_desc::{Description, Record, Structure};
use dms_links::SlotChange;
use dms_manual as manual;
use dms_sets::kinds_of;
use std::alloc::Global;

// Takes the entry of a member out of a manual subset, and its owner counts it no more.
fn leave_member<B: Blocks>(
    over: &mut Overlay<B>,
    alloc: Global,
    desc: &Description,
    s: &Structure,
    number: u64,
    rec: &Record,
) -> Result<bool, BlockFault>
    requires ready { IsReady (as_described desc.now) over.old }
    requires there { structure_of (as_described desc.now) s.now.number ≡ Some (shape_of s.now) }
    requires kind { (shape_of s.now).kind ≡ 5 }
    requires fits { RecordFits (as_described desc.now) s.now.set rec.now }
    ensures { ChangesEntries (as_described desc.now) 23 (LeavesMember (as_described desc.now) (shape_of s.now) number rec.now) result over.old over.new }
{
    match kinds_of(alloc, desc.items_of(s.set)) {
        Err(_memory) => Err(BlockFault::Memory),
        Ok(kinds) => match manual::leave(over, alloc, s, kinds.as_slice(), number, rec) {
            Err(e) => Err(e),
            Ok(false) => Ok(false),
            Ok(true) => match count_owner(
                over,
                alloc,
                desc,
                s.owner,
                rec.owner,
                SlotChange::Disowned,
            ) {
                Err(e) => Err(e),
                Ok(done) => Ok(done),
            },
        },
    }
}

/// Takes the entry of the record with a number for an owner (0 where the subset is disjoint) out of a manual subset, and
/// the owner counts one fewer from then on. Answers whether it stood. At most 23 blocks are written; after a false answer
/// what was written is to be forgotten.
///
/// Where the blocks spell no database, or the record or the owner doesn't stand, the answer may be false, too.
pub fn leave<B: Blocks>(
    over: &mut Overlay<B>,
    alloc: Global,
    desc: &Description,
    subset: u16,
    owner: u64,
    number: u64,
) -> Result<bool, BlockFault>
    requires ready { IsReady (as_described desc.now) over.old }
    requires subset { IsManual (as_described desc.now) subset }
    requires owner { owner < 2 ^ 32 }
    ensures { ChangesEntries (as_described desc.now) 23 (Leaves (as_described desc.now) subset owner number) result over.old over.new }
{
    match desc.structure(subset) {
        None => Ok(false),
        Some(s) => match record_at(over, alloc, desc, s.set, number) {
            Err(e) => Err(e),
            Ok(None) => Ok(false),
            Ok(Some(rec)) => {
                let rec = Record {
                    owner,
                    values: rec.values,
                };
                leave_member(over, alloc, desc, s, number, &rec)
            }
        },
    }
}
