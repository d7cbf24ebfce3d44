ghost use Rattle.std.specs.Prelude.{◌≤◌};

use dms_audfile::{AudFault, AuditEnd};
use dms_audrec::Entry;
use dms_sitemem::MemSite;
use std::alloc::Global;
use std::test::Fail;

/// How many calls of the site were made when so many full blocks wait in a new audit, and when the next one is begun.
fn calls_made(alloc: Global, total: u32, blocks: u32) -> Result<(u64, u64), AudFault>
    requires least { 8 ≤ total }
    requires most { total ≤ 512 }
{
    let filling = [0u8; 4000];
    let mut site = match MemSite::new(alloc, Vec::new(alloc), None) {
        Ok(site) => site,
        Err(_) => return Err(AudFault::Memory),
    };
    let mut end = AuditEnd::create(alloc, &mut site, total, 9999, 7)?;
    for _block in 0..blocks {
        end.append(&mut site, &Entry::Schema(1, 1, &filling))?;
    }
    let waiting = site.calls();
    end.append(&mut site, &Entry::Schema(1, 1, &filling))?;
    Ok((waiting, site.calls()))
}

#[test]
fn full_blocks_wait_and_share_the_sync_of_their_contents(rt: HostRuntime) -> Result<(), Fail> {
    // The header of a file is a cut, a write and a sync. Of n blocks each content is a write, all contents are a sync, and
    // each gate is a write and a sync; at a file's end the next header stands between.
    assert_eq!(rt; calls_made(rt.alloc(), 512, 16), Ok((3, 3 + 16 + 1 + 32)));
    assert_eq!(rt; calls_made(rt.alloc(), 8, 8), Ok((3, 3 + 8 + 1 + 3 + 16)));
    Ok(())
}
