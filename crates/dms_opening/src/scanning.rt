//! A database that was found, and the places of the entries of its audit trail.

ghost use Rattle.std.specs.Prelude.{◌≡◌, ◌≤◌, IfOk, IfErr, IsTrue};
ghost use Rattle.dms_moments.specs.Moments.{Steps};
ghost use Rattle.dms_site.specs.Files.{Same};
ghost use Rattle.dms_audfile.specs.Counting.{CountedAt};
ghost use Rattle.dms_audfile.specs.Reads.{Refuses};
ghost use Rattle.dms_audfile.specs.AuditTrail.{IsFound};
ghost use Rattle.dms_audfile.specs.TrailEntries.{trail_entries};
ghost use Rattle.dms_restore.specs.Views.{view_of, LogStarts};
ghost use Rattle.dms_restore.specs.Scanned.{AreEntryPlaces};
ghost use Rattle.dms_restore.specs.Traces.{IsTraceOf, StaysTraced};

use dms_audfile::laws::{entries_stand_at_their_places, what_is_found_are_the_entries};
use dms_audfile::{AudFault, AuditEnd, EntryPlace};
use dms_restore::{Log, TrailScan, TrailTrace, scan_trail};
use dms_site::Site;
use std::alloc::Global;

/// The files of a database at which nothing was looked yet.
pub struct Found<S: Site> {
    pub site: S,
}

/// A database whose audit trail was scanned.
pub struct Scanned<S: Site> {
    /// The end of its trail.
    pub log: Log<S>,
    /// Where the entries of its trail begin, in order.
    pub places: Vec<EntryPlace>,
    /// What its entries tell.
    pub trace: TrailTrace,
}

impl<S: Site> Found<S> {
    /// Syncs, scans the audit trail, and reads its entries. What they tell stays so while the trail grows. What is appended may go on
    /// up to audit file `limit`, from 1 to 9,999.
    ///
    /// Nothing changes. Answers the first refusal of the trail, Disk where a call of the site failed, and Memory.
    pub fn scan(self, alloc: Global, limit: u32) -> Result<Scanned<S>, (AudFault, Found<S>)>
        requires { limit ≤ 9999 }
        ensures starts { IfOk result (λ s. IsTrue S.tells → LogStarts (view_of S.Site s.log)) }
        ensures low { IfOk result (λ s. 10001 ≤ s.log.first) }
        ensures found { IfOk result (λ s. IsTrue S.tells → IsFound (S.files self.site) s.log.first s.places.items) }
        ensures places { IfOk result (λ s. IsTrue S.tells → AreEntryPlaces s.log.end.total s.log.first (S.files self.site) s.places.items) }
        ensures traced { IfOk result (λ s. IsTrue S.tells → IsTraceOf (S.files self.site) (trail_entries s.log.end.total s.log.first (S.files self.site)) s.trace) }
        ensures stays { IfOk result (λ s. IsTrue S.tells → StaysTraced s.log.end.total s.log.first (S.files self.site) s.trace) }
        ensures limit { IfOk result (λ s. s.log.end.limit ≡ limit) }
        ensures refused { IfErr result (λ e. IsTrue S.tells → Refuses (S.files self.site) e.0) }
        ensures files { IfOk result (λ s. IsTrue S.tells → S.files s.log.site ≡ S.files self.site) }
        ensures files_then { IfErr result (λ e. IsTrue S.tells → S.files e.1.site ≡ S.files self.site) }
        ensures moments { IfOk result (λ s. Steps Same (S.clock self.site) (S.clock s.log.site)) }
        ensures moments_then { IfErr result (λ e. Steps Same (S.clock self.site) (S.clock e.1.site)) }
        ensures same { IfOk result (λ s. S.same_site self.site s.log.site) }
        ensures same_then { IfErr result (λ e. S.same_site self.site e.1.site) }
        ensures said { IfOk result (λ s. S.said s.log.site ≡ S.said self.site) }
        ensures said_then { IfErr result (λ e. S.said e.1.site ≡ S.said self.site) }
        ensures clean { IfOk result (λ s. S.disk_faults s.log.site ≡ S.disk_faults self.site) }
        ensures disk { IfErr result (λ e. CountedAt (e.0 ≡ AudFault.Disk) (S.disk_faults self.site) (S.disk_faults e.1.site)) }
        ensures say_faults { IfOk result (λ s. S.say_faults s.log.site ≡ S.say_faults self.site) }
        ensures say_faults_then { IfErr result (λ e. S.say_faults e.1.site ≡ S.say_faults self.site) }
    {
        entries_stand_at_their_places();
        what_is_found_are_the_entries();
        let Found { mut site } = self;
        match site.sync() {
            Ok(()) => {}
            Err(_) => return Err((AudFault::Disk, Found { site })),
        }
        let read = match scan_trail(alloc, &mut site) {
            Ok(read) => read,
            Err(fault) => return Err((fault, Found { site })),
        };
        let TrailScan { scan, trace } = read;
        match AuditEnd::new(alloc, &scan.reach, limit) {
            Ok(end) => Ok(Scanned {
                log: Log {
                    site,
                    end,
                    first: scan.first,
                },
                places: scan.places,
                trace,
            }),
            Err(_) => Err((AudFault::Memory, Found { site })),
        }
    }
}
