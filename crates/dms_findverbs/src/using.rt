ghost use Rattle.std.specs.Prelude.{◌≡◌, Some, IfOk, IsErrOf};
ghost use Rattle.dms_block.specs.Faults.{NotFull};
ghost use Rattle.dms_findverbs.specs.Finds.{OnlyReads};
ghost use Rattle.dms_findverbs.specs.Usings.{free_linkers};
ghost use Rattle.dms_model.specs.Db.{Db};
ghost use Rattle.dms_model.specs.Fitting.{HasRecord, IsDataSet, IsNumber};

use dms_block::BlockFault;
use dms_model::{Places, Store};
use std::alloc::Global;

/// The records whose self-correcting link refers to a record; none where the record is in use.
pub fn linkers_of<St: Store>(
    alloc: Global,
    store: &mut St,
    set: u16,
    number: u64,
) -> Result<Option<Places>, BlockFault>
    requires sound { (St.seen store.old).sound }
    requires set { IsDataSet (St.seen store.old).desc set }
    requires number { IsNumber (St.seen store.old).desc set number }
    ensures linkers { IfOk result (λ o. (d : Db) → (St.seen store.old).db ≡ Some d → HasRecord d set number → o ≡ free_linkers (St.seen store.old).desc d set number) }
    ensures reads { OnlyReads result (St.seen store.old) (St.seen store.new) }
    ensures same { St.same_store store.old store.new }
    ensures room { NotFull result }
    ensures mute_fault { IsErrOf result BlockFault.Say → ⊥ }
{
    if store.in_use(alloc, set, number)? {
        return Ok(None);
    }
    let places = store.linkers(alloc, set, number)?;
    Ok(Some(places))
}
