//! Deciding a capacity by the lower bound.

ghost use Rattle.std.specs.Prelude.{◌<◌, ◌↔◌, IfOk, IsSome, IfSome};
ghost use Rattle.dsa_terms.specs.Bounds.{lower_bound};
ghost use Rattle.lifetime.specs.Runs.{AreRuns};
ghost use Rattle.lifetime.specs.SectionList.{AreSectionsOf};
ghost use Rattle.lifetime.specs.Thin.{IsThin, StandForAll};
ghost use Rattle.planner.specs.Decides.{IsStackRefutation};
ghost use Rattle.planner.specs.FirstBracket.{IsLowerBound};

use dsa_model::{Instance, NoMemory};
use dsa_start_laws::sections_reach_the_bound;
use lifetime::Sections;
use lower_bounds::{Bound, bound, bound_moment_is_one};
use refute_log::ClosedLog;
use std::alloc::Global;

/// The lower bound of the instance. The caller owes that the sections are the instance's one list.
pub(crate) fn bound_of(
    alloc: Global,
    instance: &Instance,
    sections: &Sections,
) -> Result<Bound, NoMemory>
    requires sections { AreSectionsOf instance.now sections.now }
    requires runs { AreRuns instance.now sections.now }
    requires thin { IsThin sections.now }
    requires stand { StandForAll instance.now sections.now }
    ensures { IfOk result (IsLowerBound instance.now) }
{
    sections_reach_the_bound();
    bound_moment_is_one();
    Ok(bound(alloc, instance, sections)?)
}

/// The log of one line that refutes the capacity, where it is below the lower bound.
pub(crate) fn stack_refutation(
    alloc: Global,
    instance: &Instance,
    bound: Bound,
    capacity: u64,
) -> Result<Option<ClosedLog>, NoMemory>
    requires { IsLowerBound instance.now bound }
    ensures some { IfOk result (λ found. IsSome found ↔ (capacity < lower_bound instance.now)) }
    ensures refutation { IfOk result (λ found.
        IfSome found (IsStackRefutation instance.now capacity)) }
{
    let _count = instance.len();
    if bound.capacity <= capacity {
        return Ok(None);
    }
    Ok(Some(bound.log(alloc, instance, capacity)?))
}
