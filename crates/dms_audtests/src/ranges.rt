ghost use Rattle.std.specs.Prelude.{◌<◌};

use crate::files::{COUNTS, DESCRIPTION, refusal};
use dms_audfile::{AudFault, AuditEnd, AuditStart, EntryPlace, EntryReader};
use dms_audrec::Entry;
use dms_site::Site;
use dms_sitemem::MemSite;
use std::test::Fail;

#[test]
#[tactic(auto, unfolding(dms_audrec::specs::Reading::counts_at))]
fn a_range_is_sealed_and_found(rt: HostRuntime) -> Result<(), Fail> {
    let alloc = rt.alloc();
    let mut site = MemSite::new(alloc, Vec::new(alloc), None).expect(&rt, "memory");
    site.write_at(1, 0, &[1, 1, 0, 0, 0, 62])
        .expect(&rt, "written");
    site.write_at(1, 6, &DESCRIPTION).expect(&rt, "written");
    let mut end = AuditEnd::create(alloc, &mut site, 8, 9999, 7).expect(&rt, "created");
    end.append(&mut site, &Entry::Schema(1, 1, &DESCRIPTION))
        .expect(&rt, "appended");
    end.append(&mut site, &Entry::Control(0, 1, &COUNTS))
        .expect(&rt, "appended");
    end.append(&mut site, &Entry::Range(30001, 3, 1021, &[1, 2, 3]))
        .expect(&rt, "appended");
    end.seal(&mut site).expect(&rt, "sealed");
    // The count of bytes, the Schema part's 69, the Control's 35, and the Range's 16.
    let file = site.bytes(10001);
    if file.len() < 8192 {
        return Err(Fail::new("no whole block"));
    }
    assert_eq!(rt; &file[4096..4098], [0u8, 120].as_slice());
    assert_eq!(rt;
        &file[4202..4219],
        [6u8, 0, 0, 0x75, 0x31, 0, 0, 0, 3, 3, 0xfd, 0, 3, 1, 2, 3, 0].as_slice()
    );
    let found = AuditStart::scan(alloc, &mut site).expect(&rt, "found");
    assert!(rt; found.places.len() == 3);
    assert_eq!(rt;
        found.places[2],
        EntryPlace {
            file: 10001,
            block: 1,
            offset: 106
        }
    );
    let mut reader = EntryReader::new(alloc).expect(&rt, "memory");
    reader
        .load(&mut site, &found.places[2])
        .expect(&rt, "loaded");
    match reader.entry(&found.places[2]) {
        Some(Entry::Range(file, block, place, bytes)) => {
            assert_eq!(rt; (file, block, place), (30001, 3, 1021));
            assert_eq!(rt; bytes, [1u8, 2, 3].as_slice());
        }
        _ => assert!(rt; false),
    }
    // Its last byte would stand behind the block's end.
    site.write_at(10001, 4211, &[3, 0xfe])
        .expect(&rt, "written");
    assert!(rt; refusal(alloc, &mut site) == Some(AudFault::Damaged(10001, 1)));
    // No byte would change.
    site.write_at(10001, 4096, &[0, 117]).expect(&rt, "written");
    site.write_at(10001, 4211, &[3, 0xfd, 0, 0, 0, 0, 0])
        .expect(&rt, "written");
    assert!(rt; refusal(alloc, &mut site) == Some(AudFault::Damaged(10001, 1)));
    Ok(())
}

/// Appends an Image of a new block of the first structure file.
fn append_new(end: &mut AuditEnd, site: &mut MemSite, block: u32) -> Result<(), AudFault>
    requires { block < 2097152 }
{
    let after = [7u8; 1024];
    end.append(site, &Entry::Image(30001, block, None, &after))
}

#[test]
fn an_image_waits_until_it_is_sealed(rt: HostRuntime) -> Result<(), Fail> {
    let alloc = rt.alloc();
    let mut site = MemSite::new(alloc, Vec::new(alloc), None).expect(&rt, "memory");
    let mut end = AuditEnd::create(alloc, &mut site, 8, 9999, 7).expect(&rt, "created");
    assert!(rt; !end.holds_image(30001, 0));
    append_new(&mut end, &mut site, 0).expect(&rt, "appended");
    end.append(&mut site, &Entry::Range(30001, 9, 0, &[1]))
        .expect(&rt, "appended");
    assert!(rt; end.holds_image(30001, 0));
    assert!(rt; !end.holds_image(30001, 9));
    assert!(rt; !end.holds_image(30002, 0));
    // The fourth Image has no room in a block with three others.
    append_new(&mut end, &mut site, 1).expect(&rt, "appended");
    append_new(&mut end, &mut site, 2).expect(&rt, "appended");
    append_new(&mut end, &mut site, 3).expect(&rt, "appended");
    assert_eq!(rt; end.full, 1);
    assert!(rt; end.holds_image(30001, 0));
    assert!(rt; end.holds_image(30001, 3));
    assert!(rt; !end.holds_image(30001, 4));
    end.seal(&mut site).expect(&rt, "sealed");
    assert!(rt; !end.holds_image(30001, 0));
    assert!(rt; !end.holds_image(30001, 3));
    Ok(())
}
