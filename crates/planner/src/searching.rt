//! Deciding a capacity by the search.

ghost use Rattle.std.specs.Prelude.{◌≡◌, ◌<◌, ◌≤◌, ◌^◌, length, IfOk, IfSome};
ghost use Rattle.dsa_model.specs.Limits.{number_limit};
ghost use Rattle.lifetime.specs.SectionList.{AreSectionsOf};
ghost use Rattle.planner.specs.Openings.{AreGiven};
ghost use Rattle.planner.specs.Searches.{EndsSearch, search_steps};

use dsa_model::{Instance, NoMemory};
use lifetime::Sections;
use refute_log::{Decided, Decider};
use search_core::{Budget, Search};
use split_sections::parts;
use std::alloc::Global;

/// The budget of that many units, if there is a number.
pub(crate) fn budget_of(steps: Option<u64>) -> Budget
    ensures value { result ≡ steps }
    ensures range { IfSome steps (λ k. k < 2 ^ 64) }
{
    match steps {
        Some(units) => Budget::units(units),
        None => Budget::unlimited(),
    }
}

/// The search's layout at the capacity, the log of a search that finds none, or neither where the
/// steps are used up.
pub(crate) fn search(
    alloc: Global,
    instance: &Instance,
    sections: &Sections,
    capacity: u64,
    steps: Option<u64>,
) -> Result<Decided, NoMemory>
    requires sections { AreSectionsOf instance.now sections.now }
    requires limit { capacity ≤ number_limit }
    ensures value { IfOk result (EndsSearch instance.now capacity steps) }
    ensures steps { 0 < length instance.now →
        IfOk result (λ d. AreGiven steps (search_steps d)) }
{
    let _count = instance.len();
    let parts = parts(alloc, instance)?;
    let mut search = Search::new(alloc, instance, sections, &parts, budget_of(steps))?;
    let decided = search.decide(capacity)?;
    let _used = search.used();
    Ok(decided)
}
