//! The command `load`.

ghost use Rattle.std.specs.Prelude.{◌≡◌, ◌≤◌, length};
ghost use Rattle.dms_audfile.specs.Counting.{CountedAt};
ghost use Rattle.dms_desc.specs.Shape.{as_described};
ghost use Rattle.dms_desc_bytes.specs.Spelling.{spelling};
ghost use Rattle.dms_desc_bytes.specs.WellFormed.{IsWellFormed};
ghost use Rattle.dms_loadcount.specs.Answers.{load_text};
ghost use Rattle.dms_loadrun.specs.Description.{load_description};
ghost use Rattle.dms_loadrun.specs.LoadDoes.{LoadDoes, LoadsOver};

use crate::filling::fill_database;
use crate::making::make_database;
use dms_desc::Description;
use dms_descfile::{FileFault, read_description};
use dms_load::{schema_text, summary_text};
use dms_loadcount::{CountFault, count_load};
use dms_newdb::{JudgedSchema, judge};
use dms_site::Site;
use dms_status::{LimitKind, Status};
use std::alloc::Global;

/// Makes the database of a description, runs the script of a seed over it, and prints this text.
fn load_and_say<S: Site>(
    alloc: Global,
    site: &mut S,
    desc: &Description,
    seed: u64,
    n: u32,
    text: &[u8],
) -> Status
    requires few { n ≤ 20000 }
    requires short { length (spelling (as_described desc.now)) ≤ 65535 }
    requires formed { IsWellFormed (as_described desc.now) }
    requires is { as_described desc.now ≡ load_description }
    ensures does { LoadsOver S.Site (as_described desc.now) seed n text.now site.old site.new result }
    ensures disk { CountedAt (result ≡ Status.DiskFault) (S.disk_faults site.old) (S.disk_faults site.new) }
    ensures say { CountedAt (result ≡ Status.SayFault) (S.say_faults site.old) (S.say_faults site.new) }
    ensures same_site { S.same_site site.old site.new }
{
    match make_database(alloc, site, desc) {
        Ok(()) => {}
        Err(status) => return status,
    }
    match fill_database(alloc, site, seed, n) {
        Status::Ok => {}
        status => return status,
    }
    match site.say(text) {
        Ok(()) => Status::Ok,
        Err(_) => Status::SayFault,
    }
}

/// The same, with the summary of what the script answers for the text. It is counted before a file is changed.
fn load_described<S: Site>(
    alloc: Global,
    site: &mut S,
    desc: &Description,
    seed: u64,
    n: u32,
) -> Status
    requires few { n ≤ 20000 }
    requires short { length (spelling (as_described desc.now)) ≤ 65535 }
    requires formed { IsWellFormed (as_described desc.now) }
    requires is { as_described desc.now ≡ load_description }
    ensures does { LoadsOver S.Site (as_described desc.now) seed n (load_text (as_described desc.now) seed n) site.old site.new result }
    ensures disk { CountedAt (result ≡ Status.DiskFault) (S.disk_faults site.old) (S.disk_faults site.new) }
    ensures say { CountedAt (result ≡ Status.SayFault) (S.say_faults site.old) (S.say_faults site.new) }
    ensures same_site { S.same_site site.old site.new }
{
    let summary = match count_load(alloc, desc, seed, n) {
        Ok(summary) => summary,
        Err(CountFault::Memory) => return Status::Memory,
        Err(CountFault::Held) => return Status::Limit(LimitKind::Held),
    };
    match summary_text(alloc, &summary) {
        Ok(text) => load_and_say(alloc, site, desc, seed, n, text.as_slice()),
        Err(_) => Status::Memory,
    }
}

/// `load SEED N`: makes the empty database of its schema where no description is, runs the first four lines and N lines more of the script that is drawn
/// from the seed over it, and prints how they were answered, in seven lines. N is at most 20,000. It reads no input.
pub fn load_command<S: Site>(alloc: Global, site: &mut S, seed: u64, n: u32) -> Status
    requires { n ≤ 20000 }
    ensures does { LoadDoes S.Site seed n site.old site.new result }
    ensures disk { CountedAt (result ≡ Status.DiskFault) (S.disk_faults site.old) (S.disk_faults site.new) }
    ensures say { CountedAt (result ≡ Status.SayFault) (S.say_faults site.old) (S.say_faults site.new) }
    ensures same_site { S.same_site site.old site.new }
{
    let desc = match judge(alloc, schema_text()) {
        JudgedSchema::Description(desc) => desc,
        JudgedSchema::Refused(_) => unreachable!(),
        JudgedSchema::Memory => return Status::Memory,
    };
    match read_description(alloc, site) {
        Err(FileFault::Disk) => Status::DiskFault,
        Err(FileFault::Memory) => Status::Memory,
        Ok(Some(_)) => Status::Exists,
        Ok(None) => load_described(alloc, site, &desc, seed, n),
    }
}
