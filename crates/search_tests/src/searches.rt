//! One search of an instance.

ghost use Rattle.lifetime.specs.SectionList.{AreSectionsOf};

use dsa_model::{Instance, NoMemory};
use lifetime::Sections;
use refute_log::{Decided, Decider};
use search_core::{Budget, Search};
use split_sections::parts;
use std::alloc::Global;

/// What the search answers at the capacity within the budget, by the instance's sections.
fn searched_by(
    alloc: Global,
    instance: &Instance,
    sections: &Sections,
    capacity: u32,
    budget: Budget,
) -> Result<Decided, NoMemory>
    requires { AreSectionsOf instance.now sections.now }
{
    let parts = parts(alloc, instance)?;
    let mut search = Search::new(alloc, instance, sections, &parts, budget)?;
    search.decide(capacity as u64)
}

/// What the search answers at the capacity within the budget.
pub(crate) fn searched(
    alloc: Global,
    instance: &Instance,
    capacity: u32,
    budget: Budget,
) -> Result<Decided, NoMemory> {
    let sections = Sections::build(alloc, instance)?;
    searched_by(alloc, instance, &sections, capacity, budget)
}
