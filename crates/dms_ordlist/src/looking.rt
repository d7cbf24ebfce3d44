ghost use Rattle.std.specs.Prelude.{◌+◌, IfOk, IfSome, length};
ghost use Rattle.dms_block.specs.Held.{HasCausesOr};
ghost use Rattle.dms_block.specs.View.{ReadsOverlay, overlay_content, seen_counts, under};
ghost use Rattle.dms_ordlist.specs.Looks.{IsLook};
ghost use Rattle.dms_ordlist.specs.Places.{PlaceHolds};
ghost use Rattle.dms_chain.specs.Seen.{IfList, IsListWidth, NoList};

use crate::place::Look;
use crate::reaching::reach;
use dms_block::{BlockFault, Blocks, Overlay};
use dms_chain::{ListHead, read_head};
use std::alloc::Global;

/// The head of a file's list, and the place where bytes of the entries' width belong in it.
pub fn look<B: Blocks>(
    over: &mut Overlay<B>,
    alloc: Global,
    file: u32,
    bytes: &[u8],
) -> Result<Look, BlockFault>
    requires sound { (under over.old).sound }
    requires width { IsListWidth (length bytes.now) }
    ensures look { IfOk result (λ r. IfList over.old file (length bytes.now) (λ xs. IsLook bytes.now (length bytes.now) (overlay_content over.old file) xs r)) }
    ensures holds { IfOk result (λ r. IfSome r.place (PlaceHolds (length bytes.now) (seen_counts over.old file))) }
    ensures reads { ReadsOverlay (1 + seen_counts over.old file) result over.old over.new }
    ensures causes { HasCausesOr (NoList over.old file (length bytes.now)) result (under over.old) (under over.new) }
{
    if over.count(file) == 0 {
        let head = ListHead { first: 0, free: 0 };
        return Ok(Look { head, place: None });
    }
    let head = match read_head(over, alloc, file) {
        Ok(head) => head,
        Err(fault) => return Err(fault),
    };
    if head.first == 0 {
        return Ok(Look { head, place: None });
    }
    match reach(over, alloc, file, bytes.len(), head.first, bytes) {
        Ok(place) => Ok(Look {
            head,
            place: Some(place),
        }),
        Err(fault) => Err(fault),
    }
}
