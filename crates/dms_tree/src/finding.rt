ghost use Rattle.std.specs.Prelude.{◌≡◌, ◌+◌, ◌<◌, IfOk, IfSome, Some, length};
ghost use Rattle.dms_block.specs.Held.{HasCausesOr};
ghost use Rattle.dms_block.specs.View.{ReadsOverlay, overlay_content, seen_counts, under};
ghost use Rattle.dms_chain.specs.ListIn.{entries_of};
ghost use Rattle.dms_chain.specs.Lists.{first_from, last_to};
ghost use Rattle.dms_tree.specs.Ways.{IfTreeFrom, NoTreeFrom};
ghost use Rattle.dms_chain.specs.Seen.{IsListWidth, look};
ghost use Rattle.dms_tree.specs.Looks.{IfDigits, IfTree, IsTreeLook, NoTree, ReadsFew};

use crate::descending::{Side, TreeSpot, descend};
use crate::reading::read_root;
use dms_base::Bytes;
use dms_block::{BlockFault, Blocks, Overlay};
use dms_chain::{entry_at, lead, read_leaf};
use std::alloc::Global;

/// The leaf of a file's tree where bytes of the entries' width belong; none where the tree is empty.
fn find_leaf<B: Blocks>(
    over: &mut Overlay<B>,
    alloc: Global,
    file: u32,
    side: Side,
    bytes: &[u8],
) -> Result<Option<TreeSpot>, BlockFault>
    requires sound { (under over.old).sound }
    requires width { IsListWidth (length bytes.now) }
    ensures look { IfOk result (λ r. IfTree over.old file (length bytes.now) (λ xs. IsTreeLook side bytes.now (look over.old file) xs r)) }
    ensures found { IfOk result (λ r. IfSome r (λ p. p.number < seen_counts over.old file)) }
    ensures few { IfTree over.old file (length bytes.now) (λ xs. IfDigits xs (λ digits. ReadsFew (1 + digits) over.old over.new)) }
    ensures reads { ReadsOverlay (1 + seen_counts over.old file) result over.old over.new }
    ensures causes { HasCausesOr (NoTree over.old file (length bytes.now)) result (under over.old) (under over.new) }
{
    if over.count(file) == 0 {
        return Ok(None);
    }
    let head = match read_root(over, alloc, file) {
        Ok(head) => head,
        Err(fault) => return Err(fault),
    };
    if head.root == 0 {
        return Ok(None);
    }
    match descend(over, alloc, file, head.root, side, bytes) {
        Ok(spot) => Ok(Some(spot)),
        Err(fault) => Err(fault),
    }
}

/// The first entry of a file's tree that isn't below these bytes, which have the width of its entries.
pub fn first_from<B: Blocks>(
    over: &mut Overlay<B>,
    alloc: Global,
    file: u32,
    from: &[u8],
) -> Result<Option<Bytes>, BlockFault>
    requires sound { (under over.old).sound }
    requires width { IsListWidth (length from.now) }
    ensures first { IfOk result (λ o. IfTree over.old file (length from.now) (λ xs. o ≡ first_from (Some from.now) xs)) }
    ensures few { IfTree over.old file (length from.now) (λ xs. IfDigits xs (λ digits. ReadsFew (2 + digits) over.old over.new)) }
    ensures reads { ReadsOverlay (2 + seen_counts over.old file) result over.old over.new }
    ensures causes { HasCausesOr (NoTree over.old file (length from.now)) result (under over.old) (under over.new) }
{
    let found = match find_leaf(over, alloc, file, Side::Through, from) {
        Ok(found) => found,
        Err(fault) => return Err(fault),
    };
    let spot = match found {
        Some(spot) => spot,
        None => return Ok(None),
    };
    let entries = spot.leaf.entries.as_slice();
    let place = lead(entries, from);
    if place < entries.len() {
        return Ok(entry_at(entries, alloc, place)?);
    }
    if spot.leaf.next == 0 {
        return Ok(None);
    }
    match read_leaf(over, alloc, file, from.len(), spot.number, spot.leaf.next) {
        Ok(next) => Ok(entry_at(next.entries.as_slice(), alloc, 0)?),
        Err(fault) => Err(fault),
    }
}

/// The last entry below these bytes in the tree under a block.
fn last_under<B: Blocks>(
    over: &mut Overlay<B>,
    alloc: Global,
    file: u32,
    root: u32,
    upto: &[u8],
) -> Result<Option<Bytes>, BlockFault>
    requires sound { (under over.old).sound }
    requires width { IsListWidth (length upto.now) }
    requires there { 0 < seen_counts over.old file }
    ensures last { IfOk result (λ o. IfTreeFrom over.old file (length upto.now) root (λ us ls. o ≡ last_to (Some upto.now) (entries_of ls))) }
    ensures reads { ReadsOverlay (seen_counts over.old file + seen_counts over.old file) result over.old over.new }
    ensures causes { HasCausesOr (NoTreeFrom (length upto.now) over.old file root) result (under over.old) (under over.new) }
{
    let spot = match descend(over, alloc, file, root, Side::Below, upto) {
        Ok(spot) => spot,
        Err(fault) => return Err(fault),
    };
    let entries = spot.leaf.entries.as_slice();
    let place = lead(entries, upto);
    if 0 < place {
        return Ok(entry_at(entries, alloc, place - 1)?);
    }
    let fence = match &spot.fence {
        Some(fence) => fence,
        None => return Ok(None),
    };
    match descend(over, alloc, file, root, Side::Below, fence.as_slice()) {
        Ok(before) => {
            let entries = before.leaf.entries.as_slice();
            Ok(entry_at(entries, alloc, entries.len() - 1)?)
        }
        Err(fault) => Err(fault),
    }
}

/// The last entry of a file's tree that is below these bytes, which have the width of its entries.
pub fn last_to<B: Blocks>(
    over: &mut Overlay<B>,
    alloc: Global,
    file: u32,
    upto: &[u8],
) -> Result<Option<Bytes>, BlockFault>
    requires sound { (under over.old).sound }
    requires width { IsListWidth (length upto.now) }
    ensures last { IfOk result (λ o. IfTree over.old file (length upto.now) (λ xs. o ≡ last_to (Some upto.now) xs)) }
    ensures reads { ReadsOverlay (1 + (seen_counts over.old file + seen_counts over.old file)) result over.old over.new }
    ensures causes { HasCausesOr (NoTree over.old file (length upto.now)) result (under over.old) (under over.new) }
{
    if over.count(file) == 0 {
        return Ok(None);
    }
    let head = match read_root(over, alloc, file) {
        Ok(head) => head,
        Err(fault) => return Err(fault),
    };
    if head.root == 0 {
        return Ok(None);
    }
    match last_under(over, alloc, file, head.root, upto) {
        Ok(found) => Ok(found),
        Err(fault) => Err(fault),
    }
}
