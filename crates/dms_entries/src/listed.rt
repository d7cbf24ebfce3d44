ghost use Rattle.std.specs.Prelude.{◌≡◌, ◌+◌, ◌≤◌, ◌<◌, ◌^◌, true, Some, IfOk, IfSome, length};
ghost use Rattle.dms_desc.specs.Shape.{shape_of};
ghost use Rattle.dms_block.specs.Held.{HasCausesOr};
ghost use Rattle.dms_block.specs.View.{ReadsOverlay, seen_counts, under};
ghost use Rattle.dms_chain.specs.Lists.{first_from, has_entry, last_to};
ghost use Rattle.dms_chain.specs.Seen.{IsListWidth};
ghost use Rattle.dms_lists.specs.Forms.{IfKept, NoKept, form_of, look_reads};
ghost use Rattle.dms_tree.specs.Looks.{IfDigits, ReadsFew};
ghost use Rattle.dms_sets.specs.Padded.{entry_width, from_bytes, to_bytes};
ghost use Rattle.dms_desc.specs.Files.{file_of};
ghost use Rattle.dms_entries.specs.Looked.{IfLooked};

use crate::bounds::{entry_width, from_bytes, to_bytes};
use dms_base::{Bytes, ItemKind};
use dms_block::{BlockFault, Blocks, Overlay};
use dms_desc::{Bound, Structure, file_of};
use dms_lists::{ListForm, form_of};
use std::alloc::Global;

// The first entry of a file's list that isn't below these bytes, where they have the width of its entries.
fn first_not_below<B: Blocks>(
    over: &mut Overlay<B>,
    alloc: Global,
    form: ListForm,
    file: u32,
    width: usize,
    from: &[u8],
) -> Result<Option<Bytes>, BlockFault>
    requires sound { (under over.old).sound }
    requires width { IsListWidth width }
    ensures found { length from.now ≡ width → IfOk result (λ o. IfKept form over.old file width (λ xs. o ≡ first_from (Some from.now) xs)) }
    ensures listed { IfOk result (λ o. IfKept form over.old file width (λ xs. IfSome o (λ q. has_entry q xs ≡ true))) }
    ensures there { IfOk result (λ o. IfSome o (λ q. 1 ≤ seen_counts over.old file)) }
    ensures few { form ≡ ListForm.Tree → IfKept form over.old file width (λ xs. IfDigits xs (λ digits. ReadsFew (2 + digits) over.old over.new)) }
    ensures reads { ReadsOverlay (look_reads form (seen_counts over.old file)) result over.old over.new }
    ensures causes { HasCausesOr (NoKept form over.old file width) result (under over.old) (under over.new) }
{
    if from.len() != width {
        return Ok(None);
    }
    if over.count(file) == 0 {
        return Ok(None);
    }
    dms_lists::first_from(over, alloc, form, file, from)
}

// The last entry of a file's list that is below these bytes, where they have the width of its entries.
fn last_below<B: Blocks>(
    over: &mut Overlay<B>,
    alloc: Global,
    form: ListForm,
    file: u32,
    width: usize,
    to: &[u8],
) -> Result<Option<Bytes>, BlockFault>
    requires sound { (under over.old).sound }
    requires width { IsListWidth width }
    ensures found { length to.now ≡ width → IfOk result (λ o. IfKept form over.old file width (λ xs. o ≡ last_to (Some to.now) xs)) }
    ensures listed { IfOk result (λ o. IfKept form over.old file width (λ xs. IfSome o (λ q. has_entry q xs ≡ true))) }
    ensures there { IfOk result (λ o. IfSome o (λ q. 1 ≤ seen_counts over.old file)) }
    ensures reads { ReadsOverlay (look_reads form (seen_counts over.old file)) result over.old over.new }
    ensures causes { HasCausesOr (NoKept form over.old file width) result (under over.old) (under over.new) }
{
    if to.len() != width {
        return Ok(None);
    }
    if over.count(file) == 0 {
        return Ok(None);
    }
    dms_lists::last_to(over, alloc, form, file, to)
}

/// The first entry of a set behind a bound.
pub fn first_entry<B: Blocks>(
    over: &mut Overlay<B>,
    alloc: Global,
    s: &Structure,
    kinds: &[ItemKind],
    owner: u64,
    from: &Bound,
) -> Result<Option<Bytes>, BlockFault>
    requires sound { (under over.old).sound }
    requires few { length s.now.parts ≤ 16 }
    requires width { entry_width kinds.now s.now.parts ≤ 104 }
    ensures found { IfLooked (form_of (shape_of s.now)) kinds.now s.now.parts from.now s.now.number over.old result (λ o xs. o ≡ first_from (from_bytes kinds.now s.now.parts owner from.now) xs) }
    ensures listed { IfOk result (λ o. IfKept (form_of (shape_of s.now)) over.old (file_of s.now.number) (entry_width kinds.now s.now.parts) (λ xs. IfSome o (λ q. has_entry q xs ≡ true))) }
    ensures there { IfOk result (λ o. IfSome o (λ q. 1 ≤ seen_counts over.old (file_of s.now.number))) }
    ensures few { form_of (shape_of s.now) ≡ ListForm.Tree → IfKept (form_of (shape_of s.now)) over.old (file_of s.now.number) (entry_width kinds.now s.now.parts) (λ xs. IfDigits xs (λ digits. ReadsFew (2 + digits) over.old over.new)) }
    ensures reads { ReadsOverlay (look_reads (form_of (shape_of s.now)) (seen_counts over.old (file_of s.now.number))) result over.old over.new }
    ensures causes { HasCausesOr (NoKept (form_of (shape_of s.now)) over.old (file_of s.now.number) (entry_width kinds.now s.now.parts)) result (under over.old) (under over.new) }
{
    let parts = s.parts.as_slice();
    match from_bytes(alloc, kinds, parts, owner, from)? {
        None => Ok(None),
        Some(bytes) => {
            let width = entry_width(kinds, parts);
            first_not_below(
                over,
                alloc,
                form_of(s),
                file_of(s.number),
                width,
                bytes.as_slice(),
            )
        }
    }
}

/// The last entry of a set before a bound.
pub fn last_entry<B: Blocks>(
    over: &mut Overlay<B>,
    alloc: Global,
    s: &Structure,
    kinds: &[ItemKind],
    owner: u64,
    to: &Bound,
) -> Result<Option<Bytes>, BlockFault>
    requires sound { (under over.old).sound }
    requires few { length s.now.parts ≤ 16 }
    requires width { entry_width kinds.now s.now.parts ≤ 104 }
    requires owner { owner < 2 ^ 32 }
    ensures found { IfLooked (form_of (shape_of s.now)) kinds.now s.now.parts to.now s.now.number over.old result (λ o xs. o ≡ last_to (to_bytes kinds.now s.now.parts owner to.now) xs) }
    ensures listed { IfOk result (λ o. IfKept (form_of (shape_of s.now)) over.old (file_of s.now.number) (entry_width kinds.now s.now.parts) (λ xs. IfSome o (λ q. has_entry q xs ≡ true))) }
    ensures there { IfOk result (λ o. IfSome o (λ q. 1 ≤ seen_counts over.old (file_of s.now.number))) }
    ensures reads { ReadsOverlay (look_reads (form_of (shape_of s.now)) (seen_counts over.old (file_of s.now.number))) result over.old over.new }
    ensures causes { HasCausesOr (NoKept (form_of (shape_of s.now)) over.old (file_of s.now.number) (entry_width kinds.now s.now.parts)) result (under over.old) (under over.new) }
{
    let parts = s.parts.as_slice();
    match to_bytes(alloc, kinds, parts, owner, to)? {
        None => Ok(None),
        Some(bytes) => {
            let width = entry_width(kinds, parts);
            last_below(
                over,
                alloc,
                form_of(s),
                file_of(s.number),
                width,
                bytes.as_slice(),
            )
        }
    }
}
