//! What stands in a dump beside the blocks.

ghost use Rattle.std.specs.Prelude.{◌≡◌, ◌≤◌, length, IfOk};
ghost use Rattle.dms_restore.specs.Counts.{file_counts};

use dms_history::FileCount;
use std::alloc::{AllocError, Global};

/// How many blocks each structure file has, by a table of the files 30,001 and on.
pub(crate) fn list_counts(alloc: Global, counts: &[u32]) -> Result<Vec<FileCount>, AllocError>
    requires { length counts.now ≤ 200 }
    ensures { IfOk result (λ v. v.items ≡ file_counts 30001 counts.now) }
{
    let mut list = Vec::new(alloc);
    for number in 0..counts.len() {
        list.push(FileCount {
            file: 30_001 + number as u32,
            blocks: counts[number],
        })?;
    }
    Ok(list)
}
