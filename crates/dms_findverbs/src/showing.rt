ghost use Rattle.std.specs.Prelude.{◌≡◌, Some, IfOk, IfSome, IsErrOf};
ghost use Rattle.std.specs.List.{list_any};
ghost use Rattle.dms_block.specs.Faults.{NotFull};
ghost use Rattle.dms_desc.specs.Kinds.{is_link};
ghost use Rattle.dms_desc.specs.Shape.{as_described};
ghost use Rattle.dms_desc.specs.declared.structure.Item.{Item};
ghost use Rattle.dms_findverbs.specs.Finds.{OnlyReads};
ghost use Rattle.dms_findverbs.specs.Shows.{shown_of};
ghost use Rattle.dms_model.specs.Db.{Db};
ghost use Rattle.dms_model.specs.Fitting.{IsDataSet};
ghost use Rattle.dms_model.specs.Session.{area_number, area_values};
ghost use Rattle.dms_model.specs.Stores.{old_of, values_of};

use dms_base::{Memory, Value};
use dms_block::BlockFault;
use dms_desc::{Description, Item, Record, Values};
use dms_model::{Store, with_links_of};
use dms_paths::{Area, AreaKind, Program};
use std::alloc::Global;

/// The values of an area.
pub fn area_values(area: &Area) -> &[Value]
    ensures { result.now ≡ area_values area.now }
{
    match &area.kind {
        AreaKind::New(values, _) => values.as_slice(),
        AreaKind::Old(values) => values.as_slice(),
    }
}

/// The number of the record that an area replaces.
pub fn area_number(area: &Area, current: Option<u64>) -> Option<u64>
    ensures { result ≡ area_number area.now current }
{
    match &area.kind {
        AreaKind::New(_, _) => None,
        AreaKind::Old(_) => current,
    }
}

/// The values of a record, none where there is none.
fn values_of(alloc: Global, rec: Option<Record>) -> Values
    ensures { result ≡ values_of rec }
{
    match rec {
        None => Values::new(alloc),
        Some(rec) => rec.values,
    }
}

/// The values of the record with a number, none where there is none.
fn olds_of<St: Store>(
    alloc: Global,
    store: &mut St,
    set: u16,
    number: Option<u64>,
) -> Result<Values, BlockFault>
    requires sound { (St.seen store.old).sound }
    requires set { IsDataSet (St.seen store.old).desc set }
    ensures olds { IfOk result (λ vs. (d : Db) → (St.seen store.old).db ≡ Some d → vs ≡ values_of (old_of d set number)) }
    ensures reads { OnlyReads result (St.seen store.old) (St.seen store.new) }
    ensures same { St.same_store store.old store.new }
    ensures room { NotFull result }
    ensures mute_fault { IsErrOf result BlockFault.Say → ⊥ }
{
    match number {
        None => Ok(Values::new(alloc)),
        Some(number) => {
            let rec = store.get(alloc, set, number)?;
            Ok(values_of(alloc, rec))
        }
    }
}

/// Whether one of these items is a link.
fn has_link(items: &[Item]) -> bool
    ensures { result ≡ list_any (λ (i : Item). is_link i.kind) items.now }
{
    items.iter().any(|item| item.is_link())
}

/// A copy of values. Answers Err where memory is refused.
fn copy_of(alloc: Global, values: &[Value]) -> Result<Values, Memory>
    ensures { IfOk result (λ vs. vs ≡ values.now) }
{
    let mut made = Values::new(alloc);
    for value in values {
        made.push(value.copy(alloc)?)?;
    }
    Ok(made)
}

/// The values of a program's area of a data set as GET shows them: links as they stand in the current record. None where
/// it has no area.
pub fn shown<St: Store>(
    alloc: Global,
    store: &mut St,
    desc: &Description,
    program: &Program,
    set: u16,
) -> Result<Option<Values>, BlockFault>
    requires sound { (St.seen store.old).sound }
    requires set { IsDataSet (St.seen store.old).desc set }
    ensures shown { IfOk result (λ o. (d : Db) → (St.seen store.old).db ≡ Some d → o ≡ shown_of (as_described desc.now) d program.now set) }
    ensures reads { OnlyReads result (St.seen store.old) (St.seen store.new) }
    ensures same { St.same_store store.old store.new }
    ensures room { NotFull result }
    ensures mute_fault { IsErrOf result BlockFault.Say → ⊥ }
{
    let Some(area) = program.paths.area(set) else {
        return Ok(None);
    };
    if !has_link(desc.items_of(set)) {
        return Ok(Some(copy_of(alloc, area_values(area))?));
    }
    let number = area_number(area, program.paths.current(set));
    let olds = olds_of(alloc, store, set, number)?;
    let values = with_links_of(
        alloc,
        desc.items_of(set),
        olds.as_slice(),
        area_values(area),
    )?;
    Ok(Some(values))
}
