//! A database is opened: from the files that were found to a database that runs.

ghost use Rattle.std.specs.Prelude.{◌≡◌, ◌⊎◌, [], ℕ, ◌<◌, ◌≤◌, IfOk, IfErr, IsTrue};
ghost use Rattle.dms_moments.specs.Moments.{Steps};
ghost use Rattle.dms_site.specs.Files.{Files, Same};
ghost use Rattle.dms_audfile.specs.Counting.{CountedAt};
ghost use Rattle.dms_restore.specs.Logging.{telling_of, waits};
ghost use Rattle.dms_wal.specs.Database.{IsRunningUsable, running_held};
ghost use Rattle.dms_wal.specs.Lifting.{AreCounts};
ghost use Rattle.dms_wal.specs.Marks.{IsDescription};
ghost use Rattle.dms_opening.specs.Claims.{IsOpenedFrom, StartsAsOpened};
ghost use Rattle.dms_opening.specs.Openings.{NamesStructures, OpensAt, RunsWhere, OpenedRuns, ReopensSince, TellsOpened, IsFullFault, HasFullTrail, OpeningGrows, MayHaveWritten, IsOpenable, IsNoRefusal};
ghost use Rattle.dms_opening.specs.Whole.{NoShortOf, OnFault, RefusesWhole, CanOpenWhole, StaysUnopenedWhole};

use crate::carrying::site_of;
use crate::whole::look_whole;
use crate::{Found, OpenFault, OpenRefusal};
use dms_audfile::AudFault;
use dms_base::Memory;
use dms_restore::Log;
use dms_site::Site;
use dms_wal::{Running, Start};
use std::alloc::Global;

/// A database that was opened at its last point.
pub struct Opened<S: Site> {
    /// The end of its trail. The audit may go on up to file 9,999.
    pub log: Log<S>,
    /// The bytes of its description, 1 to 65,535.
    pub schema: Vec<u8>,
    /// How many blocks each structure file has, from file 30,001 on.
    pub counts: Vec<u32>,
    /// The number of the next quiet point, and of the last point.
    pub next: u64,
    pub point: u64,
    /// The number, from 1 on, of the audit file in which the Schema was sealed with which it was opened. The tag of the trail is that of its end.
    pub audit: u32,
}

impl<S: Site> Opened<S> {
    /// Blocks over the database, with no block in memory: at most `frames` are held, each `every`-th sync makes a control point, and what is
    /// appended may go on up to audit file `limit`. Makes no call of the site. Answers Memory alone.
    pub fn into_running(
        self,
        alloc: Global,
        frames: u32,
        every: u32,
        limit: u32,
    ) -> Result<Running<S>, (Memory, S)>
        requires frames { 0 < frames }
        requires limit { limit ≤ 9999 }
        requires described { IsDescription self.schema.items }
        requires table { AreCounts self.counts.items }
        ensures usable { IfOk result (λ r. (IsTrue S.tells → OpenedRuns S.Site self) → IsRunningUsable S.Site r) }
        ensures tells { IfOk result (λ r. (files : Files) → IsOpenedFrom S.Site files self
            → TellsOpened (telling_of self.log.end.total self.log.first) files self.next (running_held S.Site r)) }
        ensures log { IfOk result (λ r. (r.log.site ≡ self.log.site) × (r.log.first ≡ self.log.first) × (r.log.end.total ≡ self.log.end.total) × (r.log.end.limit ≡ limit)) }
        ensures kept { IfOk result (λ r. StartsAsOpened self every r) }
        ensures nothing { IfOk result (λ r. waits self.log.end ≡ [] → waits r.log.end ≡ []) }
        ensures site { IfErr result (λ e. e.1 ≡ self.log.site) }
    {
        let Opened {
            log,
            schema,
            counts,
            next,
            point,
            audit: _,
        } = self;
        let marks = match counts.to_vec(alloc) {
            Ok(marks) => marks,
            Err(_) => return Err((Memory, site_of(log))),
        };
        let start = Start {
            counts,
            marks,
            schema,
            next,
            point,
            every,
            changed: false,
        };
        match Running::new(alloc, log, start, frames) {
            Ok(mut running) => {
                running.log.end.limit = limit;
                Ok(running)
            }
            Err((memory, log)) => Err((memory, site_of(log))),
        }
    }
}
