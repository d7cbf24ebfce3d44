//! A site is guarded.

ghost use Rattle.std.specs.Prelude.{◌≡◌, length, IsTrue};
ghost use Rattle.dms_opening.specs.Carrying.{IsFitPlan};
ghost use Rattle.dms_opening.specs.Looking.{IsLookedAt};
ghost use Rattle.dms_opening.specs.Openings.{NamesStructures};
ghost use Rattle.dms_opening.specs.Whole.{StaysRead};

use crate::site::RunSite;
use dms_opening::PlannedOpening;
use dms_restore::Log;
use dms_site::Site;
use std::marker::{Brand, PhantomData};

/// A planned opening over a guarded site: of it the files of as many structures are written as the opening needs. Makes no call.
pub fn guarded<S: Site>(planned: PlannedOpening<S>) -> PlannedOpening<RunSite<S, Brand>>
    requires ready { IsFitPlan planned.plan }
    requires named { NamesStructures planned.plan.schema.items planned.plan.counts.items }
    ensures ready { IsFitPlan result.plan }
    ensures named { NamesStructures result.plan.schema.items result.plan.counts.items }
    ensures looked { IsTrue S.tells → IsLookedAt S.Site planned → IsLookedAt ⟦<RunSite<S, Brand> as Site>⟧ result }
    ensures stays { (from : S) → StaysRead S.Site from planned.log.site → StaysRead S.Site from result.log.site.site }
    ensures site { result.log.site.site ≡ planned.log.site }
    ensures many { (result.log.site.structures ≡ length planned.plan.counts.items) × (result.log.site.refused ≡ 0) }
    ensures kept { (result.log.end ≡ planned.log.end) × (result.log.first ≡ planned.log.first) × (result.plan ≡ planned.plan) }
{
    let PlannedOpening { log, plan } = planned;
    let Log { site, end, first } = log;
    let by: PhantomData<Brand> = PhantomData;
    let structures = plan.counts.len() as u8;
    PlannedOpening {
        log: Log {
            site: RunSite {
                site,
                structures,
                refused: 0,
                by,
            },
            end,
            first,
        },
        plan,
    }
}
