//! `ship`, and its words.

ghost use Rattle.std.specs.Prelude.{◌≡◌, ◌≢◌, ◌⊎◌, ◌↔◌, ◌≤◌, IfSome, IsTrue, codes, map, string_bytes};
ghost use Rattle.std.specs.Str.{bytes_eq};
ghost use Rattle.dms_audfile.specs.Counting.{CountedAt};
ghost use Rattle.dms_loadrun.specs.LoadDoes.{LoadDoes};
ghost use Rattle.dms_top.specs.Premises.{OnLoad, OnShip};
ghost use Rattle.dms_top.specs.Shipping.{ShipDoes, audit_fault_status, remote_status, ship_status};
ghost use Rattle.dms_top.specs.Words.{IsLoad, IsShip, IsUntouched, file_said, ship_file, tag_of};

use crate::load_run::load_or_refuse;
use crate::tags::tag_of;
use dms_audfile::AudFault;
use dms_remote::{RemoteFault, ship};
use dms_site::Site;
use dms_status::{LimitKind, NeedFault, Status};
use std::alloc::Global;

/// Whether a word is `ship`.
fn is_ship(word: &str) -> bool
    ensures { result ≡ bytes_eq word.now (codes "ship") }
{
    word == "ship"
}

/// The number of an audit file, 1 to 9,999, that a word says in plain digits.
fn file_of(word: &[u8]) -> Option<u32>
    ensures said { result ≡ file_said (tag_of word.now) }
    ensures some { IfSome result (λ k. 1 ≤ k) }
    ensures high { IfSome result (λ k. k ≤ 9999) }
{
    let number = tag_of(word)?;
    if number == 0 {
        return None;
    }
    if number > 9_999 {
        return None;
    }
    Some(number as u32)
}

/// The audit file from which the words of `ship` say to begin, 1 where they say none; None where they aren't its words.
pub fn ship_file(words: &[String]) -> Option<u32>
    ensures said { result ≡ ship_file (map string_bytes words.now) }
    ensures some { IfSome result (λ k. 1 ≤ k) }
    ensures high { IfSome result (λ k. k ≤ 9999) }
{
    if words.is_empty() || words.len() > 2 {
        return None;
    }
    if !is_ship(words[0].as_str()) {
        return None;
    }
    if words.len() == 1 {
        return Some(1);
    }
    file_of(words[1].as_str().as_bytes())
}

/// The status behind a fault of the audit. Nothing is sealed by `ship`, so no file is full there; that is told as want of memory.
fn status_of_audit(fault: AudFault) -> Status
    ensures { result ≡ audit_fault_status fault }
{
    match fault {
        AudFault::NoDatabase => Status::NoDatabase,
        AudFault::Disk => Status::DiskFault,
        AudFault::Missing(number) => Status::Needed(NeedFault::AuditMissing(number)),
        AudFault::Unsealed(number) => Status::Needed(NeedFault::AuditUnsealed(number)),
        AudFault::Foreign(number) => Status::Needed(NeedFault::AuditForeign(number)),
        AudFault::Damaged(file, block) => Status::Damaged(file, block),
        AudFault::Full(_) => Status::Memory,
        AudFault::Memory => Status::Memory,
    }
}

/// The status behind a fault of a remote copy.
fn status_of_fault(fault: RemoteFault) -> Status
    ensures { result ≡ remote_status fault }
{
    match fault {
        RemoteFault::Audit(fault) => status_of_audit(fault),
        RemoteFault::Input => Status::InputFault,
        RemoteFault::Bytes => Status::Limit(LimitKind::Bytes),
        RemoteFault::Say => Status::SayFault,
        RemoteFault::BadStream(place) => Status::BadStream(place),
        RemoteFault::Diverged(file, block) => Status::Diverged(file, block),
    }
}

/// The status behind shipping.
fn status_of(shipped: Result<(), RemoteFault>) -> Status
    ensures { result ≡ ship_status shipped }
{
    match shipped {
        Ok(()) => Status::Ok,
        Err(fault) => status_of_fault(fault),
    }
}

/// `ship`: prints the sealed audit from a file on as a stream. It changes no file.
fn ship_trail<S: Site>(alloc: Global, site: &mut S, from: u32) -> Status
    requires some { 1 ≤ from }
    requires high { from ≤ 9999 }
    ensures does { ShipDoes S.Site from site.old site.new result }
    ensures words { result ≢ Status.BadWords }
    ensures untouched { IsUntouched result → site.new ≡ site.old }
    ensures disk { CountedAt (result ≡ Status.DiskFault) (S.disk_faults site.old) (S.disk_faults site.new) }
    ensures say { CountedAt (result ≡ Status.SayFault) (S.say_faults site.old) (S.say_faults site.new) }
    ensures input { result ≢ Status.InputFault }
    ensures same_site { S.same_site site.old site.new }
{
    let shipped = ship(alloc, site, from);
    status_of(shipped)
}

/// `ship` or `load`, where the words are those of one of them.
pub(crate) fn ship_or_load<S: Site>(alloc: Global, words: &[String], site: &mut S) -> Status
    ensures words { result ≡ Status.BadWords ↔ (IsLoad (map string_bytes words.now) ⊎ IsShip (map string_bytes words.now) → ⊥) }
    ensures load_does { OnLoad words.now (λ seed n. LoadDoes S.Site seed n site.old site.new result) }
    ensures ship_does { OnShip words.now (λ k. ShipDoes S.Site k site.old site.new result) }
    ensures none { (IsLoad (map string_bytes words.now) → ⊥) → IsTrue S.tells → S.files site.new ≡ S.files site.old }
    ensures untouched { IsUntouched result → site.new ≡ site.old }
    ensures disk { CountedAt (result ≡ Status.DiskFault) (S.disk_faults site.old) (S.disk_faults site.new) }
    ensures say { CountedAt (result ≡ Status.SayFault) (S.say_faults site.old) (S.say_faults site.new) }
    ensures input { result ≡ Status.InputFault → ⊥ }
    ensures same_site { S.same_site site.old site.new }
{
    match ship_file(words) {
        Some(from) => ship_trail(alloc, site, from),
        None => load_or_refuse(alloc, words, site),
    }
}
