//! Which block of a dump is the one of a number.

ghost use Rattle.std.specs.Prelude.{◌≡◌, IfNone, IfSome, None, Some, length};
ghost use Rattle.dms_dump.specs.Copies.{id_at};

use dms_block::BlockId;
use dms_history::FileCount;

/// The file and the number of block n of these files, counted through them in their order from 0.
pub fn id_of(counts: &[FileCount], n: u64) -> Option<BlockId>
    ensures found { IfSome result (λ id. id_at counts.now n ≡ Some (id.file, id.block)) }
    ensures none { IfNone result (id_at counts.now n ≡ None) }
{
    let mut left = n;
    for count in counts {
        let blocks = u64::from(count.blocks);
        if left < blocks {
            return Some(BlockId {
                file: count.file,
                block: left as u32,
            });
        }
        left -= blocks;
    }
    None
}
