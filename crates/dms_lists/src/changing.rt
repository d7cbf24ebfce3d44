ghost use Rattle.std.specs.Prelude.{◌≡◌, ◌+◌, ◌≤◌, ℕ, IfOk, OnOk, IsErrOf, Some, false, length, max, not};
ghost use Rattle.dms_block.specs.Held.{HasCausesOr};
ghost use Rattle.dms_block.specs.View.{WritesOverlay, overlay_changes, overlay_content, seen_counts, under};
ghost use Rattle.dms_chain.specs.Changed.{LeavesOthers};
ghost use Rattle.dms_chain.specs.Lists.{has_entry, with_entry, without};
ghost use Rattle.dms_chain.specs.Seen.{MayChange};
ghost use Rattle.dms_chain.specs.Written.{GrownBy};
ghost use Rattle.dms_lists.specs.Forms.{IfKept, NoKept, kept_in};

use crate::ListForm;
use dms_block::{BlockFault, Blocks, Overlay};
use std::alloc::Global;

/// An entry comes into a file's list, which is kept in this form. False exactly where it stands there already, and then
/// nothing is written. Its width is that of the file's entries. After a fault the overlay is to be forgotten.
pub fn insert<B: Blocks>(
    over: &mut Overlay<B>,
    alloc: Global,
    form: ListForm,
    file: u32,
    entry: &[u8],
) -> Result<bool, BlockFault>
    requires may { MayChange over.old file (length entry.now) }
    ensures list { OnOk result (IfKept form over.old file (length entry.now) (λ xs. kept_in form (length entry.now) (overlay_content over.new file) ≡ Some (with_entry entry.now xs))) }
    ensures answer { IfOk result (λ new. IfKept form over.old file (length entry.now) (λ xs. new ≡ not (has_entry entry.now xs))) }
    ensures still { IfOk result (λ new. new ≡ false → overlay_changes over.new ≡ overlay_changes over.old) }
    ensures others { OnOk result (LeavesOthers file over.old over.new) }
    ensures grows { OnOk result (GrownBy 11 file (seen_counts over.old) (seen_counts over.new)) }
    ensures room { OnOk result (IfKept form over.old file (length entry.now) (λ xs. seen_counts over.new file ≤ max (seen_counts over.old file) (2 + length xs))) }
    ensures writes { WritesOverlay (22 + seen_counts over.old file) 22 result over.old over.new }
    ensures idle { (f b : ℕ) → IsErrOf result (BlockFault.Damaged f b) → overlay_changes over.new ≡ overlay_changes over.old }
    ensures causes { HasCausesOr (NoKept form over.old file (length entry.now)) result (under over.old) (under over.new) }
{
    match form {
        ListForm::Tree => dms_tree::insert(over, alloc, file, entry),
        ListForm::List => dms_ordlist::insert(over, alloc, file, entry),
    }
}

/// An entry leaves a file's list, which is kept in this form. False exactly where it doesn't stand there, and then
/// nothing is written. After a fault the overlay is to be forgotten.
pub fn remove<B: Blocks>(
    over: &mut Overlay<B>,
    alloc: Global,
    form: ListForm,
    file: u32,
    entry: &[u8],
) -> Result<bool, BlockFault>
    requires may { MayChange over.old file (length entry.now) }
    ensures list { OnOk result (IfKept form over.old file (length entry.now) (λ xs. kept_in form (length entry.now) (overlay_content over.new file) ≡ Some (without entry.now xs))) }
    ensures answer { IfOk result (λ was. IfKept form over.old file (length entry.now) (λ xs. was ≡ has_entry entry.now xs)) }
    ensures still { IfOk result (λ was. was ≡ false → overlay_changes over.new ≡ overlay_changes over.old) }
    ensures others { OnOk result (LeavesOthers file over.old over.new) }
    ensures counts { OnOk result (seen_counts over.new ≡ seen_counts over.old) }
    ensures writes { WritesOverlay (20 + seen_counts over.old file) 20 result over.old over.new }
    ensures idle { (f b : ℕ) → IsErrOf result (BlockFault.Damaged f b) → overlay_changes over.new ≡ overlay_changes over.old }
    ensures causes { HasCausesOr (NoKept form over.old file (length entry.now)) result (under over.old) (under over.new) }
{
    match form {
        ListForm::Tree => dms_tree::remove(over, alloc, file, entry),
        ListForm::List => dms_ordlist::remove(over, alloc, file, entry),
    }
}
