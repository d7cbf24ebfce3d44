//! What a new database needs in memory, before the first file is changed.

ghost use Rattle.std.specs.Prelude.{◌≡◌, ◌+◌, ◌≤◌, length, IfOk};
ghost use Rattle.dms_desc.specs.Shape.{as_described};
ghost use Rattle.dms_desc_bytes.specs.Spelling.{spelling};
ghost use Rattle.dms_desc_bytes.specs.WellFormed.{IsWellFormed};
ghost use Rattle.dms_audrec.specs.Spelling.{pair_bytes, count_file, count_blocks};
ghost use Rattle.dms_creation.specs.FirstEntries.{zero_counts};

use dms_audfile::{AuditEnd, Reach};
use dms_base::{Bytes, Memory};
use dms_desc::Description;
use dms_desc_bytes::encode;
use std::alloc::Global;

/// The last audit file that may be written.
const LAST_AUDIT_FILE: u32 = 9999;

/// What a new database needs in memory.
#[derive(Drop)]
pub(crate) struct Plan {
    /// The end of its trail.
    pub(crate) end: AuditEnd,
    /// Its description.
    pub(crate) bytes: Bytes,
    /// The list of a control point: each structure file, without blocks.
    pub(crate) counts: Bytes,
}

/// The list of a control point of so many structures without blocks.
fn counts_of(alloc: Global, structures: usize) -> Result<Bytes, Memory>
    requires { structures ≤ 200 }
    ensures { IfOk result (λ counts. counts ≡ pair_bytes count_file count_blocks (zero_counts structures 1)) }
{
    let mut counts = Bytes::new(alloc);
    for number in 0..structures {
        let file = 30001 + number as u32;
        counts.extend(&file.to_be_bytes())?;
        counts.extend(&[0, 0, 0, 0])?;
    }
    Ok(counts)
}

/// Takes the memory for a new database of a description, with that tag.
pub(crate) fn make_plan(alloc: Global, desc: &Description, tag: u64) -> Result<Plan, Memory>
    requires { IsWellFormed (as_described desc.now) }
    ensures bytes { IfOk result (λ p. p.bytes ≡ spelling (as_described desc.now)) }
    ensures counts { IfOk result (λ p. p.counts ≡ pair_bytes count_file count_blocks (zero_counts (length desc.now.structures) 1)) }
    ensures kind { IfOk result (λ p. (p.end.total ≡ desc.now.blocks) × (p.end.tag ≡ tag) × (p.end.limit ≡ 9999)) }
    ensures place { IfOk result (λ p. (p.end.file ≡ 10001) × (p.end.count ≡ 0) × (p.end.used ≡ 0)) }
{
    let bytes = encode(alloc, desc)?;
    let counts = counts_of(alloc, desc.structures.as_slice().len())?;
    let reach = Reach {
        total: u32::from(desc.blocks),
        tag,
        file: 10001,
        count: 0,
    };
    let end = AuditEnd::new(alloc, &reach, LAST_AUDIT_FILE)?;
    Ok(Plan { end, bytes, counts })
}
