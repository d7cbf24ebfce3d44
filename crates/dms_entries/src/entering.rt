ghost use Rattle.std.specs.Prelude.{◌≡◌, ◌<◌, ◌^◌, Some};
ghost use Rattle.dms_desc.specs.Lookups.{structure_of};
ghost use Rattle.dms_desc.specs.Shape.{as_described, shape_of};
ghost use Rattle.dms_entries.specs.Promises.{ChangesEntries, Enters, EntersMember};
ghost use Rattle.dms_spelling.specs.Ready.{IsReady};
ghost use Rattle.dms_model.specs.Changing.{IsManual};
ghost use Rattle.dms_model.specs.Fitting.{RecordFits};

use crate::counting::count_owner;
use crate::record::record_at;
use dms_block::{BlockFault, Blocks, Overlay};
use dms_desc::{Description, Record, Structure};
use dms_links::SlotChange;
use dms_manual::enter_in;
use dms_model::Put;
use dms_sets::kinds_of;
use std::alloc::Global;

// Makes the entry of a member in a manual subset, and its owner counts it.
fn enter_member<B: Blocks>(
    over: &mut Overlay<B>,
    alloc: Global,
    desc: &Description,
    s: &Structure,
    number: u64,
    rec: &Record,
) -> Result<Put, BlockFault>
    requires ready { IsReady (as_described desc.now) over.old }
    requires there { structure_of (as_described desc.now) s.now.number ≡ Some (shape_of s.now) }
    requires kind { (shape_of s.now).kind ≡ 5 }
    requires fits { RecordFits (as_described desc.now) s.now.set rec.now }
    ensures { ChangesEntries (as_described desc.now) 67 (EntersMember (as_described desc.now) (shape_of s.now) number rec.now) result over.old over.new }
{
    match kinds_of(alloc, desc.items_of(s.set)) {
        Err(_memory) => Err(BlockFault::Memory),
        Ok(kinds) => match enter_in(over, alloc, s, kinds.as_slice(), number, rec) {
            Err(e) => Err(e),
            Ok(Put::Duplicate(subset)) => Ok(Put::Duplicate(subset)),
            Ok(Put::Full) => Ok(Put::Full),
            Ok(Put::Stored(number)) => {
                match count_owner(over, alloc, desc, s.owner, rec.owner, SlotChange::Owned) {
                    Err(e) => Err(e),
                    Ok(false) => Ok(Put::Full),
                    Ok(true) => Ok(Put::Stored(number)),
                }
            }
        },
    }
}

/// Enters the record with a number in a manual subset, for an owner below 2^32 (0 where the subset is disjoint), which
/// counts one more from then on: `Duplicate` where the entry stands, or the subset has NO DUPLICATES and another member of
/// the owner with an equal key; else `Full` where the subset has as many entries as its POPULATION; and else `Stored`. At
/// most 67 blocks are written. After `Duplicate` and `Full` what was written is to be forgotten.
///
/// The whole list of the subset is read. Where the blocks spell no database, or the record or the owner doesn't stand,
/// the answer may be `Full`, too.
pub fn enter<B: Blocks>(
    over: &mut Overlay<B>,
    alloc: Global,
    desc: &Description,
    subset: u16,
    owner: u64,
    number: u64,
) -> Result<Put, BlockFault>
    requires ready { IsReady (as_described desc.now) over.old }
    requires subset { IsManual (as_described desc.now) subset }
    requires owner { owner < 2 ^ 32 }
    ensures { ChangesEntries (as_described desc.now) 67 (Enters (as_described desc.now) subset owner number) result over.old over.new }
{
    match desc.structure(subset) {
        None => Ok(Put::Full),
        Some(s) => match record_at(over, alloc, desc, s.set, number) {
            Err(e) => Err(e),
            Ok(None) => Ok(Put::Full),
            Ok(Some(rec)) => {
                let rec = Record {
                    owner,
                    values: rec.values,
                };
                enter_member(over, alloc, desc, s, number, &rec)
            }
        },
    }
}
