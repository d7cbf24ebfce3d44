//! Blocks that are given as bytes.

ghost use Rattle.std.specs.Prelude.{◌≡◌, option_map, IfOk};
ghost use Rattle.dms_audrec.specs.Seen.{entry_seen};
ghost use Rattle.dms_audfile.specs.AuditTrail.{entry_from};
ghost use Rattle.dms_audfile.specs.Blocks.{block_entries};
ghost use Rattle.dms_audfile.specs.Scanning.{places_of};
ghost use Rattle.dms_audfile.specs.SaidBlock.{SaysPlaces};

use crate::EntryPlace;
use crate::blocks::read_block;
use crate::by_place::entry_from;
use crate::gathered::Gathered;
use dms_audrec::Entry;
use dms_base::Memory;
use std::alloc::Global;

/// Where the entries of a block begin, where it is in its grammar; None else. Its file is named by its number as a file.
pub fn places_in(
    alloc: Global,
    block: &[u8],
    file: u32,
    number: u32,
) -> Result<Option<Vec<EntryPlace>>, Memory>
    ensures { IfOk result (λ found. SaysPlaces (places_of file number (block_entries block.now)) found) }
{
    let mut known = Gathered::new(alloc);
    if read_block(block, file, number, &mut known)? {
        Ok(Some(known.places))
    } else {
        Ok(None)
    }
}

/// The entry that begins at an offset of a block; None where none does.
pub fn entry_in(block: &[u8], offset: u32) -> Option<Entry<'_>>
    ensures { option_map entry_seen result ≡ entry_from offset block.now }
{
    entry_from(block, offset)
}
