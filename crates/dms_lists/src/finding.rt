ghost use Rattle.std.specs.Prelude.{◌≡◌, ◌+◌, IfOk, Some, length};
ghost use Rattle.dms_block.specs.Held.{HasCausesOr};
ghost use Rattle.dms_block.specs.View.{ReadsOverlay, seen_counts, under};
ghost use Rattle.dms_chain.specs.Lists.{first_from, last_to};
ghost use Rattle.dms_chain.specs.Seen.{IsListWidth};
ghost use Rattle.dms_lists.specs.Forms.{IfKept, NoKept, look_reads};
ghost use Rattle.dms_tree.specs.Looks.{IfDigits, ReadsFew};

use crate::ListForm;
use dms_base::Bytes;
use dms_block::{BlockFault, Blocks, Overlay};
use std::alloc::Global;

/// The first entry of a file's list that isn't below these bytes, which have the width of its entries. In a tree it
/// reads at most two blocks more than so many binary digits as are enough for the number of entries.
pub fn first_from<B: Blocks>(
    over: &mut Overlay<B>,
    alloc: Global,
    form: ListForm,
    file: u32,
    from: &[u8],
) -> Result<Option<Bytes>, BlockFault>
    requires sound { (under over.old).sound }
    requires width { IsListWidth (length from.now) }
    ensures first { IfOk result (λ o. IfKept form over.old file (length from.now) (λ xs. o ≡ first_from (Some from.now) xs)) }
    ensures few { form ≡ ListForm.Tree → IfKept form over.old file (length from.now) (λ xs. IfDigits xs (λ digits. ReadsFew (2 + digits) over.old over.new)) }
    ensures reads { ReadsOverlay (look_reads form (seen_counts over.old file)) result over.old over.new }
    ensures causes { HasCausesOr (NoKept form over.old file (length from.now)) result (under over.old) (under over.new) }
{
    match form {
        ListForm::Tree => dms_tree::first_from(over, alloc, file, from),
        ListForm::List => dms_ordlist::first_from(over, alloc, file, from),
    }
}

/// The last entry of a file's list that is below these bytes, which have the width of its entries.
pub fn last_to<B: Blocks>(
    over: &mut Overlay<B>,
    alloc: Global,
    form: ListForm,
    file: u32,
    upto: &[u8],
) -> Result<Option<Bytes>, BlockFault>
    requires sound { (under over.old).sound }
    requires width { IsListWidth (length upto.now) }
    ensures last { IfOk result (λ o. IfKept form over.old file (length upto.now) (λ xs. o ≡ last_to (Some upto.now) xs)) }
    ensures reads { ReadsOverlay (look_reads form (seen_counts over.old file)) result over.old over.new }
    ensures causes { HasCausesOr (NoKept form over.old file (length upto.now)) result (under over.old) (under over.new) }
{
    match form {
        ListForm::Tree => dms_tree::last_to(over, alloc, file, upto),
        ListForm::List => dms_ordlist::last_to(over, alloc, file, upto),
    }
}
