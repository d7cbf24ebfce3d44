use crate::command::{End, perform_words};
use crate::walk::walk;
use dms_site::Site;
use dms_sitemem::MemSite;
use std::alloc::Global;
use std::test::Fail;

/// Few buffers and small audit files. Nine records fit into a block, and ten entries of the set.
const SCHEMA: &[u8] = b"PARAMETERS (BUFFERS = 8 BLOCKS);
AUDIT TRAIL (BLOCKS = 8);
RDS RESTART DATA SET (PID ALPHA(10););
D DATA SET (X ALPHA(90););
D-SET SET OF D KEY IS X;
";

/// The file of the data set, and that of its set.
const RECORDS: u32 = 30_002;

const SET: u32 = 30_003;

/// An entry: the owner's number, the item's presence and bytes, the record's number.
const ENTRY: usize = 4 + 91 + 4;

/// Does a command that must end well. Answers what it printed.
fn done<'a>(
    alloc: Global,
    site: &'a mut MemSite,
    words: &[&'static str],
    input: &[u8],
) -> Result<&'a [u8], Fail> {
    let printed = site.text().len();
    let end = perform_words(alloc, site, words, input, Vec::new(alloc))?;
    match site.text().get(printed..) {
        Some(said) if end == End::Done => Ok(said),
        _ => Err(Fail::new(format_args!("{end:?}"))),
    }
}

/// Stores 1,000 records in one transaction, with the texts 0001 to 1000.
fn stores(alloc: Global) -> Result<String, Fail> {
    let mut lines = String::from_str(alloc, "A: OPEN UPDATE\nA: BEGIN-TRANSACTION NO-AUDIT RDS\n")?;
    for n in 0..1000u32 {
        let text = n + 1;
        let verbs = format!(in alloc; "A: CREATE D\nA: PUT D X = \"{text:04}\"\nA: STORE D\n")?;
        lines.push_str(verbs.as_str())?;
    }
    lines.push_str("A: END-TRANSACTION NO-AUDIT RDS\n")?;
    Ok(lines)
}

/// A database of 1,000 records, opened and closed six times since, of whose audit only the last two files are there.
fn large(alloc: Global) -> Result<MemSite, Fail> {
    let mut site = MemSite::new(alloc, Vec::new(alloc), None)?;
    done(alloc, &mut site, &["compile"], SCHEMA)?;
    done(alloc, &mut site, &["initialize"], b"")?;
    done(alloc, &mut site, &["run"], stores(alloc)?.as_bytes())?;
    for _turn in 0..6u32 {
        done(alloc, &mut site, &["run"], b"")?;
    }
    let last = site.last_present(10_001, 19_999)?;
    for file in 10_001..last.saturating_sub(1) {
        site.overwrite(alloc, file, b"")?;
    }
    Ok(site)
}

/// Runs a script whose lines must all be answered DONE. Answers how many bytes were read of structure files.
fn bytes_read(alloc: Global, site: &mut MemSite, script: &str, lines: u32) -> Result<u64, Fail> {
    let before = site.bytes_given();
    let mut answers = String::new(alloc);
    for n in 0..lines {
        let answer = format!(in alloc; "{} A DONE\n", n.saturating_add(1))?;
        answers.push_str(answer.as_str())?;
    }
    let said = done(alloc, site, &["run"], script.as_bytes())?;
    if said != answers.as_bytes() {
        return Err(Fail::new("a line isn't answered DONE"));
    }
    Ok(site.bytes_given().saturating_sub(before))
}

/// A run neither scans nor loads the whole database: its 212 blocks are 217,088 bytes. A find in the set reads at most 13 blocks, where a walk
/// through a list would pass 90 of them, so that 100 finds read at most 1,331,200 bytes.
fn reads_few_blocks(alloc: Global, site: &mut MemSite) -> Result<bool, Fail> {
    let opened = bytes_read(alloc, site, "A: OPEN INQUIRY\n", 1)?;
    let mut finds = String::from_str(alloc, "A: OPEN INQUIRY\n")?;
    for n in 0..100u32 {
        let find = format!(in alloc; "A: FIND D-SET AT X = \"{:04}\"\n", n + 901)?;
        finds.push_str(find.as_str())?;
    }
    let found = bytes_read(alloc, site, finds.as_str(), 101)?;
    Ok(opened <= 102_400 && found <= 2_048_000)
}

/// The set is walked over by the format alone, as the runs left it.
#[test]
fn a_large_set_is_a_tree_of_which_a_run_reads_little(rt: HostRuntime) -> Result<(), Fail> {
    let alloc = rt.alloc();
    let mut site = large(alloc)?;
    assert!(rt; site.bytes(RECORDS).len() >= 112 * 1024);
    let walked = walk(alloc, site.bytes(SET), ENTRY)?;
    assert_eq!(rt; walked.entries, 1000);
    assert!(rt; walked.leaves >= 100);
    let few = reads_few_blocks(alloc, &mut site)?;
    assert!(rt; few);
    Ok(())
}
