//! The least capacity of an instance.

ghost use Rattle.std.specs.Prelude.{IfOk};
ghost use Rattle.lifetime.specs.SectionList.{AreSectionsOf};
ghost use Rattle.min_capacity.specs.Brackets.{bracket_of};
ghost use Rattle.planner.specs.FirstBracket.{IsFirstBracket};
ghost use Rattle.planner.specs.LeastCapacity.{FindsLeast, HasHalved, IsByBoundAtLow};
ghost use Rattle.planner.specs.LeastCapacity.{IsWithinSteps};

use crate::bracketing::first_bracket;
use crate::one_stack::bound_of;
use crate::searching::budget_of;
use crate::starting::best_of_starts;
use dsa_model::{Instance, NoMemory};
use lifetime::Sections;
use min_capacity::{Bracket, Least, least};
use search_core::Search;
use split_sections::parts;
use std::alloc::Global;

/// The least capacity that has a layout, in bytes, with the layout that is planned for it and a log
/// by which none fits within one less; there is no log where the capacity is 0.
///
/// All searches together have a budget of `steps` units, one for each claim that they open, if a
/// number is given. Where they are used up before the least capacity is known, it stays open
/// between the two ends that are reached; without a number that never comes.
pub fn least_capacity(
    alloc: Global,
    instance: &Instance,
    steps: Option<u64>,
) -> Result<Least, NoMemory>
    ensures value { IfOk result (FindsLeast instance.now steps) }
    ensures left { IfOk result (HasHalved instance.now steps) }
    ensures steps { IfOk result (λ found. IsWithinSteps instance.now steps (bracket_of found)) }
    ensures by_bound { IfOk result (λ found. IsByBoundAtLow instance.now (bracket_of found)) }
{
    let best = best_of_starts(alloc, instance)?;
    let sections = Sections::build(alloc, instance)?;
    let bound = bound_of(alloc, instance, &sections)?;
    let start = first_bracket(alloc, instance, bound, best)?;
    least_from(alloc, instance, &sections, start, steps)
}

/// The least capacity, sought from the first bracket. The caller owes that the sections are the
/// instance's.
fn least_from(
    alloc: Global,
    instance: &Instance,
    sections: &Sections,
    start: Bracket,
    steps: Option<u64>,
) -> Result<Least, NoMemory>
    requires sections { AreSectionsOf instance.now sections.now }
    requires start { IsFirstBracket instance.now start }
    ensures value { IfOk result (FindsLeast instance.now steps) }
    ensures left { IfOk result (HasHalved instance.now steps) }
    ensures steps { IfOk result (λ found. IsWithinSteps instance.now steps (bracket_of found)) }
    ensures by_bound { IfOk result (λ found. IsByBoundAtLow instance.now (bracket_of found)) }
{
    let _count = instance.len();
    let parts = parts(alloc, instance)?;
    let mut search = Search::new(alloc, instance, sections, &parts, budget_of(steps))?;
    let found = least(instance, start, &mut search)?;
    let _used = search.used();
    Ok(found)
}
