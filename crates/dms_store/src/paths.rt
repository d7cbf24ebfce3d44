ghost use Rattle.std.specs.Prelude.{◌≡◌, ◌+◌, ◌<◌, ◌^◌, true, Some, IfOk, IfSome};
ghost use Rattle.dms_block.specs.Held.{HasCausesOr};
ghost use Rattle.dms_block.specs.View.{ReadsOverlay, seen_counts, under};
ghost use Rattle.dms_desc.specs.Lookups.{structure_of};
ghost use Rattle.dms_desc.specs.Shape.{as_described, shape_of};
ghost use Rattle.dms_model.specs.Fitting.{IsStructure, SpotFits};
ghost use Rattle.dms_sets.specs.Sets.{kinds_over};
ghost use Rattle.dms_desc.specs.Files.{file_of};
ghost use Rattle.dms_lists.specs.Forms.{form_of, look_reads};
ghost use Rattle.dms_store.specs.Lifted.{IsUsable, db_under};
ghost use Rattle.dms_store.specs.Listed.{BadPath, FindsFirst, FindsLast, IfIndexed, most_reads};
ghost use Rattle.dms_tree.specs.Looks.{IfDigits, ReadsFew};
ghost use Rattle.dms_desc.specs.Kinds.{is_set_or_automatic};

use crate::entries::member_at;
use crate::finding::{first_record, last_record};
use dms_base::{ItemKind, Memory};
use dms_block::{BlockFault, Blocks, Overlay};
use dms_desc::{Bound, Description, Structure};
use dms_entries::{first_entry, first_member, last_entry, last_member};
use dms_model::Spot;
use dms_sets::kinds_of;
use std::alloc::Global;

// The kinds of the items of a set's data set.
fn kinds_over(alloc: Global, desc: &Description, s: &Structure) -> Result<Vec<ItemKind>, Memory>
    requires kept { is_set_or_automatic (shape_of s.now) ≡ true }
    ensures { IfOk result (λ v. v.items ≡ kinds_over (as_described desc.now) (shape_of s.now)) }
{
    match desc.structure(s.set) {
        None => Ok(Vec::new(alloc)),
        Some(over) => kinds_of(alloc, over.items.as_slice()),
    }
}

// The first member of a set or automatic subset behind a bound.
fn first_listed<B: Blocks>(
    over: &mut Overlay<B>,
    alloc: Global,
    desc: &Description,
    s: &Structure,
    owner: u64,
    from: &Bound,
) -> Result<Option<Spot>, BlockFault>
    requires usable { IsUsable (as_described desc.now) over.old }
    requires kept { is_set_or_automatic (shape_of s.now) ≡ true }
    requires there { structure_of (as_described desc.now) s.now.number ≡ Some (shape_of s.now) }
    requires owner { owner < 2 ^ 32 }
    ensures found { FindsFirst (as_described desc.now) s.now.number owner from.now over.old result }
    ensures fits { IfOk result (λ o. IfSome o (SpotFits (as_described desc.now) s.now.number)) }
    ensures few { IfIndexed (as_described desc.now) s.now.number (db_under (as_described desc.now) over.old) (λ xs. IfDigits xs (λ digits. ReadsFew (3 + digits) over.old over.new)) }
    ensures reads { ReadsOverlay (1 + look_reads (form_of (shape_of s.now)) (seen_counts over.old (file_of s.now.number))) result over.old over.new }
    ensures causes { HasCausesOr (BadPath (as_described desc.now) s.now.number over.old) result (under over.old) (under over.new) }
{
    let kinds = kinds_over(alloc, desc, s)?;
    match first_entry(over, alloc, s, kinds.as_slice(), owner, from) {
        Err(e) => Err(e),
        Ok(None) => Ok(None),
        Ok(Some(entry)) => {
            member_at(
                over,
                alloc,
                desc,
                s,
                kinds.as_slice(),
                owner,
                entry.as_slice(),
            )
        }
    }
}

// The last member of a set or automatic subset before a bound.
fn last_listed<B: Blocks>(
    over: &mut Overlay<B>,
    alloc: Global,
    desc: &Description,
    s: &Structure,
    owner: u64,
    to: &Bound,
) -> Result<Option<Spot>, BlockFault>
    requires usable { IsUsable (as_described desc.now) over.old }
    requires kept { is_set_or_automatic (shape_of s.now) ≡ true }
    requires there { structure_of (as_described desc.now) s.now.number ≡ Some (shape_of s.now) }
    requires owner { owner < 2 ^ 32 }
    ensures found { FindsLast (as_described desc.now) s.now.number owner to.now over.old result }
    ensures fits { IfOk result (λ o. IfSome o (SpotFits (as_described desc.now) s.now.number)) }
    ensures reads { ReadsOverlay (1 + look_reads (form_of (shape_of s.now)) (seen_counts over.old (file_of s.now.number))) result over.old over.new }
    ensures causes { HasCausesOr (BadPath (as_described desc.now) s.now.number over.old) result (under over.old) (under over.new) }
{
    let kinds = kinds_over(alloc, desc, s)?;
    match last_entry(over, alloc, s, kinds.as_slice(), owner, to) {
        Err(e) => Err(e),
        Ok(None) => Ok(None),
        Ok(Some(entry)) => {
            member_at(
                over,
                alloc,
                desc,
                s,
                kinds.as_slice(),
                owner,
                entry.as_slice(),
            )
        }
    }
}

/// The first member of a structure, for an owner (0 where it is disjoint), behind a bound.
pub fn first_from<B: Blocks>(
    over: &mut Overlay<B>,
    alloc: Global,
    desc: &Description,
    path: u16,
    owner: u64,
    from: &Bound,
) -> Result<Option<Spot>, BlockFault>
    requires usable { IsUsable (as_described desc.now) over.old }
    requires path { IsStructure (as_described desc.now) path }
    requires owner { owner < 2 ^ 32 }
    ensures found { FindsFirst (as_described desc.now) path owner from.now over.old result }
    ensures fits { IfOk result (λ o. IfSome o (SpotFits (as_described desc.now) path)) }
    ensures few { IfIndexed (as_described desc.now) path (db_under (as_described desc.now) over.old) (λ xs. IfDigits xs (λ digits. ReadsFew (3 + digits) over.old over.new)) }
    ensures reads { ReadsOverlay (most_reads (as_described desc.now) path over.old) result over.old over.new }
    ensures causes { HasCausesOr (BadPath (as_described desc.now) path over.old) result (under over.old) (under over.new) }
{
    match desc.structure(path) {
        None => Ok(None),
        Some(s) => {
            if s.is_data_set() {
                return first_record(over, alloc, desc, path, owner, from);
            }
            if s.is_manual() {
                return first_member(over, alloc, desc, path, owner, from);
            }
            first_listed(over, alloc, desc, s, owner, from)
        }
    }
}

/// The last member of a structure, for an owner (0 where it is disjoint), before a bound.
pub fn last_to<B: Blocks>(
    over: &mut Overlay<B>,
    alloc: Global,
    desc: &Description,
    path: u16,
    owner: u64,
    to: &Bound,
) -> Result<Option<Spot>, BlockFault>
    requires usable { IsUsable (as_described desc.now) over.old }
    requires path { IsStructure (as_described desc.now) path }
    requires owner { owner < 2 ^ 32 }
    ensures found { FindsLast (as_described desc.now) path owner to.now over.old result }
    ensures fits { IfOk result (λ o. IfSome o (SpotFits (as_described desc.now) path)) }
    ensures reads { ReadsOverlay (most_reads (as_described desc.now) path over.old) result over.old over.new }
    ensures causes { HasCausesOr (BadPath (as_described desc.now) path over.old) result (under over.old) (under over.new) }
{
    match desc.structure(path) {
        None => Ok(None),
        Some(s) => {
            if s.is_data_set() {
                return last_record(over, alloc, desc, path, owner, to);
            }
            if s.is_manual() {
                return last_member(over, alloc, desc, path, owner, to);
            }
            last_listed(over, alloc, desc, s, owner, to)
        }
    }
}
