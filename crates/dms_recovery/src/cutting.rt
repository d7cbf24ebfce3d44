//! A plan whose counts are cut to the structures of its description.

ghost use Rattle.std.specs.Prelude.{◌≡◌, ℕ, List, IfOk, IfErr};
ghost use Rattle.dms_site.specs.Files.{Files};
ghost use Rattle.dms_history.specs.declared.event.Row as row;
ghost use Rattle.dms_opening.specs.declared.asked.Asked as meant;
ghost use Rattle.dms_opening.specs.Behind.{PlansBehind};
ghost use Rattle.dms_opening.specs.Carrying.{IsFitPlan};
ghost use Rattle.dms_opening.specs.Openings.{NamesStructures};
ghost use Rattle.dms_opening.specs.Plans.{FitsOpening, PlansFor};

use dms_audfile::AudFault;
use dms_opening::{OpenFault, OpeningPlan};
use std::alloc::Global;

/// The same plan with no count behind those of its structures but those of files that have a block. Answers Memory alone.
pub(crate) fn cut(alloc: Global, plan: OpeningPlan) -> Result<OpeningPlan, OpenFault>
    requires fits { FitsOpening plan }
    ensures fit { IfOk result IsFitPlan }
    ensures named { IfOk result (λ p. NamesStructures p.schema.items p.counts.items) }
    ensures plans { IfOk result (λ p. (total first : ℕ) (files : Files) (asked : meant.Asked) (rows : List row.Row) → PlansFor total first files asked rows plan → PlansFor total first files asked rows p) }
    ensures behind { IfOk result (λ p. (total first : ℕ) (files : Files) (asked : meant.Asked) (rows : List row.Row) → PlansBehind total first files asked rows plan → PlansBehind total first files asked rows p) }
    ensures choice { IfOk result (λ p. p.choice ≡ plan.choice) }
    ensures memory { IfErr result (λ e. e ≡ OpenFault.Audit AudFault.Memory) }
{
    let mut plan = plan;
    match plan.cut_counts(alloc) {
        Ok(()) => Ok(plan),
        Err(_) => Err(OpenFault::Audit(AudFault::Memory)),
    }
}
