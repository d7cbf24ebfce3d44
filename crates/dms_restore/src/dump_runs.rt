//! The runs of blocks that a restore takes from its dump.

ghost use Rattle.std.specs.Prelude.{◌≡◌, ◌⊎◌, ◌+◌, ◌*◌, ◌<◌, ◌≤◌, true, ℕ, length, OnOk, IfOk, IfNone, IfSome};
ghost use Rattle.dms_history.specs.Entries.{counts_in, named_by};
ghost use Rattle.dms_dump.specs.Head as head_size_of;
ghost use Rattle.dms_dump.specs.Body.{blocks_before};
ghost use Rattle.dms_dump.specs.HeadSeen.{head_seen};
ghost use Rattle.dms_restore.specs.Counts as table;
ghost use Rattle.dms_restore.specs.Counts.{AllAtMost};
ghost use Rattle.dms_restore.specs.Planned.{IsFitHead, IsRunOf, AreRunsOf, IsInRun, IsInRuns};

use crate::Run;
use dms_dump::{DumpHead, front_size};
use dms_history::{FileCount, Row};
use std::alloc::{AllocError, Global};

/// Where the blocks of a structure file stand in a dump.
#[derive(Clone, Copy)]
struct Stretch {
    /// How many blocks of other files stand before them.
    before: u64,
    blocks: u64,
}

/// Where the blocks of a file stand in a dump with these counts.
fn stretch_of(counts: &[FileCount], file: u32) -> Stretch
    requires few { length counts.now ≤ 200 }
    ensures before { result.before ≡ blocks_before file counts.now }
    ensures blocks { result.blocks ≡ counts_in counts.now file }
{
    let mut before: u64 = 0;
    for count in counts {
        if count.file == file {
            return Stretch {
                before,
                blocks: u64::from(count.blocks),
            };
        }
        before += u64::from(count.blocks);
    }
    Stretch { before, blocks: 0 }
}

/// How many blocks a file has, by a table of the files 30,001 and on.
fn count_of(counts: &[u32], file: u32) -> u32
    ensures { result ≡ table.count_of counts.now file }
{
    if file <= 30_000 {
        return 0;
    }
    match counts.get((file - 30_001) as usize) {
        Some(count) => *count,
        None => 0,
    }
}

/// How many bytes the head of a dump takes.
fn head_size(head: &DumpHead) -> u64
    requires few { length head.now.counts.items ≤ 200 }
    ensures is { result ≡ head_size_of.head_size (head_seen head.now) }
    ensures small { result ≤ 1634 }
{
    front_size(head.tag, head.end) + 8 * head.counts.len() as u64
}

/// The blocks from `from` to before `end` of a structure file before which so many others stand in a dump.
fn run_of(head: &DumpHead, dump: u16, before: u64, file: u32, from: u64, end: u64) -> Run
    requires few { length head.now.counts.items ≤ 200 }
    requires some { from < end }
    requires within { end ≤ 2097152 }
    requires low { before ≤ 419430400 }
    ensures named { (result.file ≡ file) × (result.dump ≡ 20000 + dump) }
    ensures blocks { (result.block ≡ from) × (result.block + result.blocks ≡ end) }
    ensures place { result.at ≡ 1 + head_size_of.head_size (head_seen head.now) + 1024 * (before + from) }
{
    Run {
        file,
        block: from as u32,
        blocks: (end - from) as u32,
        dump: 20_000 + u32::from(dump),
        at: 1 + head_size(head) + 1024 * (before + from),
    }
}

/// The blocks of a structure file from `from` on and before `upto` that the dump has and the point has, where there is one.
fn run_in(
    head: &DumpHead,
    dump: u16,
    counts: &[u32],
    file: u32,
    from: u64,
    upto: u64,
) -> Option<Run>
    requires fit { IsFitHead head.now }
    requires small { AllAtMost counts.now }
    ensures is { IfSome result (λ r. IsRunOf (head_seen head.now) dump counts.now r) }
    ensures within { IfSome result (λ r. (r.file ≡ file) × (from ≤ r.block) × (r.block + r.blocks ≤ upto)) }
    ensures all { IfSome result (λ r. (b : ℕ) → from ≤ b → b < upto → b < counts_in head.now.counts.items file → b < table.count_of counts.now file → IsInRun file b r) }
    ensures none { IfNone result ((b : ℕ) → from ≤ b → b < upto → b < counts_in head.now.counts.items file → b < table.count_of counts.now file → ⊥) }
{
    let stretch = stretch_of(&head.counts, file);
    let end = upto
        .min(stretch.blocks)
        .min(u64::from(count_of(counts, file)));
    if from >= end {
        return None;
    }
    Some(run_of(head, dump, stretch.before, file, from, end))
}

/// Adds these blocks to some runs.
fn add_run(
    runs: &mut Vec<Run>,
    head: &DumpHead,
    dump: u16,
    counts: &[u32],
    file: u32,
    from: u64,
    upto: u64,
) -> Result<(), AllocError>
    requires fit { IsFitHead head.now }
    requires small { AllAtMost counts.now }
    ensures are { OnOk result (AreRunsOf (head_seen head.now) dump counts.now runs.old.items → AreRunsOf (head_seen head.now) dump counts.now runs.new.items) }
    ensures kept { OnOk result ((f b : ℕ) → IsInRuns f b runs.old.items → IsInRuns f b runs.new.items) }
    ensures all { OnOk result ((b : ℕ) → from ≤ b → b < upto → b < counts_in head.now.counts.items file → b < table.count_of counts.now file → IsInRuns file b runs.new.items) }
    ensures only { OnOk result ((f b : ℕ) → IsInRuns f b runs.new.items → IsInRuns f b runs.old.items ⊎ ((f ≡ file) × (from ≤ b) × (b < upto))) }
{
    match run_in(head, dump, counts, file, from, upto) {
        Some(run) => {
            runs.push(run)?;
            Ok(())
        }
        None => Ok(()),
    }
}

/// All blocks that the dump has and the point has. `files` are the counts of the dump's head.
fn runs_of_files(
    alloc: Global,
    head: &DumpHead,
    files: &[FileCount],
    dump: u16,
    counts: &[u32],
) -> Result<Vec<Run>, AllocError>
    requires fit { IsFitHead head.now }
    requires small { AllAtMost counts.now }
    ensures are { IfOk result (λ v. AreRunsOf (head_seen head.now) dump counts.now v.items) }
    ensures all { IfOk result (λ v. (f b : ℕ) → b < counts_in files.now f → b < counts_in head.now.counts.items f → b < table.count_of counts.now f → IsInRuns f b v.items) }
{
    let mut runs = Vec::new(alloc);
    for count in files {
        add_run(
            &mut runs,
            head,
            dump,
            counts,
            count.file,
            0,
            count.blocks as u64,
        )?;
    }
    Ok(runs)
}

/// All blocks that the dump has and the point has.
pub(crate) fn all_runs(
    alloc: Global,
    head: &DumpHead,
    dump: u16,
    counts: &[u32],
) -> Result<Vec<Run>, AllocError>
    requires fit { IsFitHead head.now }
    requires small { AllAtMost counts.now }
    ensures are { IfOk result (λ v. AreRunsOf (head_seen head.now) dump counts.now v.items) }
    ensures all { IfOk result (λ v. (f b : ℕ) → b < counts_in head.now.counts.items f → b < table.count_of counts.now f → IsInRuns f b v.items) }
{
    runs_of_files(alloc, head, &head.counts, dump, counts)
}

/// The blocks of the rows that the dump has and the point has.
pub(crate) fn row_runs(
    alloc: Global,
    head: &DumpHead,
    dump: u16,
    counts: &[u32],
    rows: &[Row],
) -> Result<Vec<Run>, AllocError>
    requires fit { IsFitHead head.now }
    requires small { AllAtMost counts.now }
    ensures are { IfOk result (λ v. AreRunsOf (head_seen head.now) dump counts.now v.items) }
    ensures all { IfOk result (λ v. (f b : ℕ) → named_by rows.now f b ≡ true → b < counts_in head.now.counts.items f → b < table.count_of counts.now f → IsInRuns f b v.items) }
    ensures only { IfOk result (λ v. (f b : ℕ) → IsInRuns f b v.items → named_by rows.now f b ≡ true) }
{
    let mut runs = Vec::new(alloc);
    for row in rows {
        let first = 16 * row.row as u64;
        add_run(&mut runs, head, dump, counts, row.file, first, first + 16)?;
    }
    Ok(runs)
}
