use dms_audfile::{AudFault, AuditEnd, AuditStart, EntryPlace, EntryReader};
use dms_audrec::Entry;
use dms_site::Site;
use dms_sitemem::MemSite;
use std::alloc::Global;
use std::test::Fail;

/// A description of two structures.
pub(crate) const DESCRIPTION: [u8; 62] = [
    0x44, 0x4d, 0x53, 0x53, 0x00, 0x01, 0x00, 0x64, 0x00, 0x0a, 0x01, 0x00, 0x02, 0x00, 0x27, 0x0f,
    0x00, 0x02, 0x02, 0x03, 0x52, 0x44, 0x53, 0x00, 0x00, 0x00, 0x0f, 0x42, 0x40, 0x01, 0x03, 0x50,
    0x49, 0x44, 0x01, 0x0a, 0x00, 0x00, 0x00, 0x00, 0x00, 0x00, 0x01, 0x01, 0x44, 0x00, 0x00, 0x00,
    0x0f, 0x42, 0x40, 0x01, 0x01, 0x58, 0x02, 0x04, 0x00, 0x00, 0x00, 0x00, 0x00, 0x00,
];

/// Counts of two structures without blocks.
pub(crate) const COUNTS: [u8; 16] = [0, 0, 0x75, 0x31, 0, 0, 0, 0, 0, 0, 0x75, 0x32, 0, 0, 0, 0];

#[test]
#[tactic(auto, unfolding(dms_audrec::specs::Reading::counts_at))]
fn a_first_block_is_sealed_and_found(rt: HostRuntime) -> Result<(), Fail> {
    let alloc = rt.alloc();
    let mut site = MemSite::new(alloc, Vec::new(alloc), None).expect(&rt, "memory");
    let mut end = AuditEnd::create(alloc, &mut site, 8, 9999, 7).expect(&rt, "created");
    assert!(rt; refusal(alloc, &mut site) == Some(AudFault::NoDatabase));
    site.write_at(1, 0, &[1, 1, 0, 0, 0, 62])
        .expect(&rt, "written");
    site.write_at(1, 6, &DESCRIPTION).expect(&rt, "written");
    assert!(rt; refusal(alloc, &mut site) == Some(AudFault::Damaged(10001, 0)));
    end.append(&mut site, &Entry::Schema(1, 1, &DESCRIPTION))
        .expect(&rt, "appended");
    end.append(&mut site, &Entry::Control(0, 1, &COUNTS))
        .expect(&rt, "appended");
    end.seal(&mut site).expect(&rt, "sealed");
    let file = site.bytes(10001);
    assert!(rt; file.len() == 8192);
    assert_eq!(rt;
        &file[0..18],
        b"DMSA\0\0\0\x01\0\x08\0\0\0\0\0\0\0\x07".as_slice()
    );
    assert_eq!(rt; &file[511..514], b"\0\x01\0".as_slice());
    assert_eq!(rt;
        &file[4096..4105],
        b"\0\x68\x01\0\x01\0\x01\0\x3e".as_slice()
    );
    let found = AuditStart::scan(alloc, &mut site).expect(&rt, "found");
    assert!(rt; found.places.len() == 2);
    assert_eq!(rt;
        found.places[1],
        EntryPlace {
            file: 10001,
            block: 1,
            offset: 71
        }
    );
    let mut reader = EntryReader::new(alloc).expect(&rt, "memory");
    reader
        .load(&mut site, &found.places[1])
        .expect(&rt, "loaded");
    match reader.entry(&found.places[1]) {
        Some(Entry::Control(n, next, _)) => assert_eq!(rt; (n, next), (0, 1)),
        _ => assert!(rt; false),
    }
    assert_eq!(rt; found.places[1].audit_file(), 1);
    assert_eq!(rt;
        (found.first, found.reach.count, found.reach.tag),
        (10001, 1, 7)
    );
    let mut end = AuditEnd::new(alloc, &found.reach, 1).expect(&rt, "memory");
    for _block in 0..7u32 {
        end.append(&mut site, &Entry::Quiet(1))
            .expect(&rt, "appended");
        end.seal(&mut site).expect(&rt, "sealed");
    }
    assert_eq!(rt; site.bytes(10002).len(), 4096);
    assert_eq!(rt;
        end.append(&mut site, &Entry::Quiet(1)),
        Err(AudFault::Full(1))
    );
    end.set_limit(2);
    assert_eq!(rt; end.append(&mut site, &Entry::Quiet(1)), Ok(()));
    Ok(())
}

/// Why a scan is refused.
pub(crate) fn refusal(alloc: Global, site: &mut MemSite) -> Option<AudFault> {
    match AuditStart::scan(alloc, site) {
        Ok(_) => None,
        Err(fault) => Some(fault),
    }
}

#[test]
#[tactic(auto, unfolding(dms_audrec::specs::Reading::counts_at))]
fn a_trail_is_refused_by_the_first_cause(rt: HostRuntime) -> Result<(), Fail> {
    let alloc = rt.alloc();
    let mut site = MemSite::new(alloc, Vec::new(alloc), None).expect(&rt, "memory");
    site.write_at(1, 0, &[1, 1, 0, 0, 0, 62])
        .expect(&rt, "written");
    site.write_at(1, 6, &DESCRIPTION).expect(&rt, "written");
    let mut end = AuditEnd::create(alloc, &mut site, 8, 9999, 7).expect(&rt, "created");
    end.append(&mut site, &Entry::Schema(1, 1, &DESCRIPTION))
        .expect(&rt, "appended");
    end.append(&mut site, &Entry::Control(0, 1, &COUNTS))
        .expect(&rt, "appended");
    for _block in 0..17u32 {
        end.append(&mut site, &Entry::Quiet(1))
            .expect(&rt, "appended");
        end.seal(&mut site).expect(&rt, "sealed");
    }
    assert!(rt; refusal(alloc, &mut site) == None);
    site.write_at(10003, 17, &[8]).expect(&rt, "written");
    assert!(rt; refusal(alloc, &mut site) == Some(AudFault::Foreign(3)));
    site.write_at(10002, 513, &[0]).expect(&rt, "written");
    assert!(rt; refusal(alloc, &mut site) == Some(AudFault::Damaged(10002, 0)));
    site.write_at(10002, 513, &[1]).expect(&rt, "written");
    site.write_at(10003, 17, &[7]).expect(&rt, "written");
    site.cut(10001, 0).expect(&rt, "cut");
    assert!(rt; refusal(alloc, &mut site) == Some(AudFault::Missing(1)));
    Ok(())
}
