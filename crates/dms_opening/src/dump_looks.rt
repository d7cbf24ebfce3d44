//! What the file of a dump is found to be.

ghost use Rattle.std.specs.Prelude.{◌≡◌, ◌⊎◌, ◌↔◌, ◌+◌, ◌≤◌, ℕ, List, IfOk, IfErr, IsErrOf, IsTrue};
ghost use Rattle.dms_site.specs.Files.{Files};
ghost use Rattle.dms_history.specs.Entries as meaning;
ghost use Rattle.dms_history.specs.EntryEvents.{history_of};
ghost use Rattle.dms_history.specs.Events.{How};
ghost use Rattle.dms_history.specs.declared.event.Row as row;
ghost use Rattle.dms_audfile.specs.Counting.{CountedAt};
ghost use Rattle.dms_audfile.specs.Reads.{ReadsAlone};
ghost use Rattle.dms_dump.specs.Head.{end_or};
ghost use Rattle.dms_dump.specs.HeadSeen.{head_seen};
ghost use Rattle.dms_dump.specs.Judged.{DumpRead, sealed};
ghost use Rattle.dms_running.specs.FromDumps.{dump_by, dump_in};
ghost use Rattle.dms_restore.specs.Planned.{IsFitHead};
ghost use Rattle.dms_restore.specs.Tracing.{MatchesHow, IsTraced};
ghost use Rattle.dms_opening.specs.DumpLooks.{look_seen, SaysFound, IsFoundAs, IsFitFound, dump_at, dump_begun};

use crate::DumpLook;
use dms_audfile::AudFault;
use dms_dump::{DumpFault, DumpHead, read_dump};
use dms_restore::{HowAt, TrailHistory};
use dms_site::Site;
use std::alloc::Global;

/// What the file of a dump is found to be, with its head where it can be read.
pub enum DumpFound {
    Missing,
    Unsealed,
    Damaged,
    /// It can be read, and has another tag than the trail.
    Foreign,
    Sealed(DumpHead),
}

/// The end of a dump: its point, where it has none of its own.
fn end_of(point: u64, end: Option<u64>) -> u64
    ensures { result ≡ end_or end point }
{
    match end {
        None => point,
        Some(end) => end,
    }
}

impl DumpFound {
    /// The same without the counts.
    pub fn look(&self) -> DumpLook
        ensures { result ≡ look_seen self.now }
    {
        match self {
            DumpFound::Missing => DumpLook::Missing,
            DumpFound::Unsealed => DumpLook::Unsealed,
            DumpFound::Damaged => DumpLook::Damaged,
            DumpFound::Foreign => DumpLook::Foreign,
            DumpFound::Sealed(head) => DumpLook::Sealed(
                head.point,
                end_of(head.point, head.end),
                head.audit,
            ),
        }
    }

    /// Gives its memory back.
    pub fn let_go(self) {
        match self {
            DumpFound::Missing => {}
            DumpFound::Unsealed => {}
            DumpFound::Damaged => {}
            DumpFound::Foreign => {}
            DumpFound::Sealed(
                DumpHead {
                    tag: _,
                    point: _,
                    audit: _,
                    counts: _counts,
                    end: _,
                },
            ) => {}
        }
    }
}

/// The dump with this head, for a trail with this tag.
fn own_or_foreign(tag: u64, head: DumpHead) -> DumpFound
    ensures found { (file : DumpRead) → file ≡ sealed (head_seen head) → IsFoundAs tag file result }
    ensures fit { IsFitHead head → IsFitFound result }
{
    if head.tag == tag {
        return DumpFound::Sealed(head);
    }
    DumpFound::Sealed(head).let_go();
    DumpFound::Foreign
}

/// What was read of a dump, for a trail with this tag. A dump that is read isn't one that exists already: that fault never comes where files are told.
fn found_as(tag: u64, read: Result<DumpHead, DumpFault>) -> Result<DumpFound, AudFault>
    ensures found { IfOk result (λ f. (d : ℕ) (file : DumpRead) → SaysFound tag d file read f) }
    ensures fit { IfOk read IsFitHead → IfOk result IsFitFound }
    ensures only { IfErr result (λ e. (e ≡ AudFault.Disk) ⊎ (e ≡ AudFault.Memory)) }
    ensures disk { IsErrOf result AudFault.Disk ↔ IsErrOf read DumpFault.Disk }
{
    match read {
        Ok(head) => Ok(own_or_foreign(tag, head)),
        Err(DumpFault::Disk) => Err(AudFault::Disk),
        Err(DumpFault::Memory) => Err(AudFault::Memory),
        Err(DumpFault::Exists(_)) => Ok(DumpFound::Missing),
        Err(DumpFault::Missing(_)) => Ok(DumpFound::Missing),
        Err(DumpFault::Unsealed(_)) => Ok(DumpFound::Unsealed),
        Err(DumpFault::Damaged(_, _)) => Ok(DumpFound::Damaged),
    }
}

/// What the file of dump d is found to be, for a trail with this tag; where d isn't from 1 to 9,999 it is missing. Nothing changes. Answers Disk where a call of the site
/// failed, and Memory.
pub fn find_dump<S: Site>(
    alloc: Global,
    site: &mut S,
    tag: u64,
    dump: u16,
) -> Result<DumpFound, AudFault>
    ensures found { IfOk result (λ f. IsTrue S.tells → IsFoundAs tag (dump_at (S.files site.old) dump) f) }
    ensures fit { IfOk result IsFitFound }
    ensures only { IfErr result (λ e. (e ≡ AudFault.Disk) ⊎ (e ≡ AudFault.Memory)) }
    ensures reads { ReadsAlone S.Site site.old site.new }
    ensures same_site { S.same_site site.old site.new }
    ensures disk { CountedAt (IsErrOf result AudFault.Disk) (S.disk_faults site.old) (S.disk_faults site.new) }
{
    if dump == 0 || dump > 9999 {
        return Ok(DumpFound::Missing);
    }
    let read = read_dump(alloc, site, dump);
    found_as(tag, read)
}

/// The number of the dump by which a restore goes.
fn dump_of(how: HowAt) -> Option<u16>
    ensures { (rows : List row.Row) (h : How) → MatchesHow how rows h → result ≡ dump_by h }
{
    match how {
        HowAt::HaltLoad => None,
        HowAt::BackOut => None,
        HowAt::Rollback => None,
        HowAt::Rebuild(dump) => Some(dump),
        HowAt::Reconstruct(dump) => Some(dump),
    }
}

/// The number of the dump by which the pending restore goes.
fn pending_dump(history: &TrailHistory) -> Option<u16>
    ensures { (files : Files) (entries : List meaning.Entry) → IsTraced files entries history.now → result ≡ dump_in (history_of entries).pending }
{
    match history.pending {
        None => None,
        Some(at) => dump_of(at.how),
    }
}

/// What the dump of the restore that is pending is found to be, for a trail with this tag; it is missing where none is pending, or one by the audit. Nothing changes. Answers
/// Disk where a call of the site failed, and Memory.
pub fn find_begun<S: Site>(
    alloc: Global,
    site: &mut S,
    tag: u64,
    history: &TrailHistory,
) -> Result<DumpFound, AudFault>
    ensures found { IfOk result (λ f. IsTrue S.tells → (files : Files) (entries : List meaning.Entry) → IsTraced files entries history.now
        → IsFoundAs tag (dump_begun (S.files site.old) (history_of entries).pending) f) }
    ensures fit { IfOk result IsFitFound }
    ensures only { IfErr result (λ e. (e ≡ AudFault.Disk) ⊎ (e ≡ AudFault.Memory)) }
    ensures reads { ReadsAlone S.Site site.old site.new }
    ensures same_site { S.same_site site.old site.new }
    ensures disk { CountedAt (IsErrOf result AudFault.Disk) (S.disk_faults site.old) (S.disk_faults site.new) }
{
    match pending_dump(history) {
        None => Ok(DumpFound::Missing),
        Some(dump) => find_dump(alloc, site, tag, dump),
    }
}
