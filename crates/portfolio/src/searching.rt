//! One search.

ghost use Rattle.std.specs.Prelude.{◌≡◌, ◌≤◌, IfOk};
ghost use Rattle.dsa_model.specs.Limits.{number_limit};
ghost use Rattle.refute_log.specs.Decided.{IfSpent, IsRight};
ghost use Rattle.narrowing.specs.Narrowed.{lines_of};

use dsa_model::{Instance, NoMemory};
use lifetime::Sections;
use refute_log::{Decided, Decider};
use search_core::{Budget, Search};
use split_sections::parts;
use std::alloc::Global;

/// What a search comes to, and how many units it used.
#[derive(Drop)]
pub(crate) struct Searched {
    pub(crate) decided: Decided,
    pub(crate) used: u64,
}

/// Searches the capacity, in bytes, in the order of the buffers as they stand in the instance.
pub(crate) fn search(
    alloc: Global,
    instance: &Instance,
    capacity: u64,
    units: u64,
) -> Result<Searched, NoMemory>
    requires { capacity ≤ number_limit }
    ensures right { IfOk result (λ s. IsRight instance.now capacity s.decided) }
    ensures used { IfOk result (λ s. s.used ≤ units) }
    ensures exhausted { IfOk result (λ s. IfSpent s.decided (s.used ≡ units)) }
    ensures charged { IfOk result (λ s. lines_of s.decided ≤ s.used) }
{
    let sections = Sections::build(alloc, instance)?;
    let parts = parts(alloc, instance)?;
    let mut search = Search::new(alloc, instance, &sections, &parts, Budget::units(units))?;
    let decided = search.decide(capacity)?;
    let used = search.used();
    Ok(Searched { decided, used })
}
