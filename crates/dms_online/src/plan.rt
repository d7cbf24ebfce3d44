//! A dump that is to be copied while a database runs.

ghost use Rattle.std.specs.Prelude.{◌≡◌, ◌*◌, ◌≤◌, IfOk, length};
ghost use Rattle.dms_dump.specs.Head.{all_blocks};
ghost use Rattle.dms_restore.specs.Counts.{file_counts};

use dms_base::Memory;
use dms_dump::front_size;
use dms_history::FileCount;
use dms_site::Site;
use dms_wal::Running;
use std::alloc::{AllocError, Global};

/// A dump that is copied: what its head says, and how far it is.
#[derive(Drop)]
pub struct Copying {
    pub tag: u64,
    /// The point that the database had when the dump was begun.
    pub point: u64,
    /// The number of the audit file in which the Schema of the opening stands.
    pub audit: u32,
    /// How many blocks each structure file had at that point, by rising file.
    pub counts: Vec<FileCount>,
    /// Where its blocks begin.
    pub front: u64,
    /// How many blocks it is to have.
    pub total: u64,
    /// How many of them were copied.
    pub done: u64,
    /// The next number of the database when the dump was begun.
    pub first_next: u64,
}

/// How many blocks each structure file has, by a table of the files 30,001 and on.
fn list_counts(alloc: Global, counts: &[u32]) -> Result<Vec<FileCount>, AllocError>
    requires { length counts.now ≤ 200 }
    ensures { IfOk result (λ v. v.items ≡ file_counts 30001 counts.now) }
{
    let mut list = Vec::new(alloc);
    for number in 0..counts.len() {
        list.push(FileCount {
            file: 30_001 + number as u32,
            blocks: counts[number],
        })?;
    }
    Ok(list)
}

/// How many blocks the files have together.
fn blocks_of(counts: &[FileCount]) -> u64
    requires few { length counts.now ≤ 200 }
    ensures is { result ≡ all_blocks counts.now }
{
    let mut total: u64 = 0;
    for count in counts {
        total += u64::from(count.blocks);
    }
    total
}

impl Copying {
    ghost use Rattle.dms_online.specs.Plans.{IsPlanOf};
    ghost use Rattle.dms_wal.specs.Database.{running_held};

    /// The plan of a dump of a database as it is at its last point. `audit` is the number of the audit file in which the Schema of its opening stands.
    pub fn of<S: Site>(
        alloc: Global,
        running: &Running<S>,
        tag: u64,
        audit: u32,
    ) -> Result<Copying, Memory>
        requires { (running_held S.Site running.now).sound }
        ensures plan { IfOk result (IsPlanOf running.now) }
        ensures names { IfOk result (λ c. (c.tag ≡ tag) × (c.audit ≡ audit)) }
    {
        let counts = list_counts(alloc, &running.marks)?;
        let front = 1 + front_size(tag, Some(running.point)) + 8 * counts.len() as u64;
        let total = blocks_of(&counts);
        Ok(Copying {
            tag,
            point: running.point,
            audit,
            counts,
            front,
            total,
            done: 0,
            first_next: running.next,
        })
    }
}
