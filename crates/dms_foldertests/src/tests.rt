use dms_base::Memory;
use dms_folder::FolderSite;
use dms_memcalls::MemCalls;
use dms_sitemem::MemSource;
use dms_top::{Status, dms};
use std::alloc::Global;
use std::test::Fail;

/// A schema of two structures.
const SCHEMA: &[u8] = b"RDS RESTART DATA SET (PID ALPHA(10););\nD DATA SET (X NUMBER(4););\n";

/// Its description file.
const SEALED: [u8; 68] = [
    0x01, 0x00, 0x00, 0x00, 0x00, 0x3e, 0x44, 0x4d, 0x53, 0x53, 0x00, 0x01, 0x00, 0x64, 0x00, 0x0a,
    0x01, 0x00, 0x02, 0x00, 0x27, 0x0f, 0x00, 0x02, 0x02, 0x03, 0x52, 0x44, 0x53, 0x00, 0x00, 0x00,
    0x0f, 0x42, 0x40, 0x01, 0x03, 0x50, 0x49, 0x44, 0x01, 0x0a, 0x00, 0x00, 0x00, 0x00, 0x00, 0x00,
    0x01, 0x01, 0x44, 0x00, 0x00, 0x00, 0x0f, 0x42, 0x40, 0x01, 0x01, 0x58, 0x02, 0x04, 0x00, 0x00,
    0x00, 0x00, 0x00, 0x00,
];

const NAME: &[u8] = b"F00001.DMS";

/// A folder in which `compile` ran, and how it ended.
#[derive(Drop)]
struct Compiled {
    status: Status,
    site: FolderSite<MemCalls>,
}

/// Runs `compile` in a folder without files. The calls whose numbers are listed fail.
fn run_compile(alloc: Global, fails: Vec<usize>) -> Result<Compiled, Fail> {
    let words = vec![in alloc; String::from_str(alloc, "compile")?]?;
    let mut site = FolderSite::new(MemCalls::new(alloc, fails), alloc)?;
    let mut source = MemSource::new(Vec::from_slice(alloc, SCHEMA)?, Vec::new(alloc), 512);
    let status = dms(alloc, words.as_slice(), &mut site, &mut source);
    Ok(Compiled { status, site })
}

/// Whether the description file is there, and exactly what is to be made.
fn is_whole(calls: &MemCalls) -> bool {
    calls.bytes(NAME) == Some(SEALED.as_slice())
}

/// Whether the description file has an open gate and the length that it says.
fn looks_sealed(calls: &MemCalls) -> bool {
    match calls.bytes(NAME) {
        Some(file) if file.len() >= 6 => {
            file[0] == 1 && &file[2..6] == &((file.len() - 6) as u64).to_be_bytes()[4..]
        }
        _ => false,
    }
}

/// Whether a stop within a call leaves what it may: a name that is stable from call 10 on, a whole description from call 14 on,
/// and before it none that looks whole, with nothing printed. An odd pick keeps the made name.
fn leaves_what_it_may(
    alloc: Global,
    calls: &MemCalls,
    call: usize,
    pick: u64,
) -> Result<bool, Memory> {
    if call > calls.calls() {
        return Ok(false);
    }
    let left = calls.crash(alloc, call, pick)?;
    let named = call >= 10 || (call >= 7 && pick % 2 == 1);
    let unmade = call < 14 && !looks_sealed(&left) && left.text().is_empty();
    Ok(left.bytes(NAME).is_some() == named && (unmade || is_whole(&left)))
}

#[test]
fn a_stop_leaves_no_half_description(rt: HostRuntime) -> Result<(), Fail> {
    let alloc = rt.alloc();
    let made = run_compile(alloc, Vec::new(alloc))?;
    let calls = made.site.calls();
    assert_eq!(rt; made.status, Status::Ok);
    assert_eq!(rt; calls.text(), b"COMPILED 2 STRUCTURES\n".as_slice());
    assert!(rt; is_whole(calls));
    assert_eq!(rt; calls.calls(), 15);
    for call in 1..16usize {
        for pick in [0u64, 1, 7, 2] {
            let well = leaves_what_it_may(alloc, calls, call, pick)?;
            assert!(rt; well, "call {call}, pick {pick}");
        }
    }
    Ok(())
}

#[test]
fn no_call_follows_one_that_failed(rt: HostRuntime) -> Result<(), Fail> {
    let alloc = rt.alloc();
    for call in 1..16usize {
        let made = run_compile(alloc, vec![in alloc; call]?)?;
        let wanted = if call == 15 {
            Status::SayFault
        } else {
            Status::DiskFault
        };
        assert_eq!(rt; made.status, wanted, "call {call}");
        assert_eq!(rt; made.site.calls().calls(), call);
        assert_eq!(rt; made.site.calls().text(), b"".as_slice());
    }
    Ok(())
}
