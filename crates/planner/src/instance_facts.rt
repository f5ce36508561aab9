//! The facts of an instance.

ghost use Rattle.std.specs.Prelude.{◌≡◌, IfOk};
ghost use Rattle.dsa_terms.specs.Plans.{layout_height};
ghost use Rattle.dsa_terms.specs.Starts.{best_start};
ghost use Rattle.planner.specs.InstanceFacts.{AreFactsOf};

use crate::starting::best_of_starts;
use dsa_model::{Instance, NoMemory};
use layout_report::Facts;
use lifetime::Sections;
use load_profile::Profile;
use lower_bounds::bound;
use split_sections::parts;
use std::alloc::Global;

/// The facts of the instance. The caller owes the height of its best start.
fn facts_with_best(alloc: Global, instance: &Instance, best: u64) -> Result<Facts, NoMemory>
    requires { best ≡ layout_height instance.now (best_start instance.now) }
    ensures { IfOk result (AreFactsOf instance.now) }
{
    let sections = Sections::build(alloc, instance)?;
    let profile = Profile::build(alloc, instance, &sections)?;
    let parts = parts(alloc, instance)?;
    let bound = bound(alloc, instance, &sections)?;
    Ok(Facts {
        buffers: instance.len(),
        peak: profile.peak(),
        parts: parts.count(),
        bound: bound.capacity,
        modulus: bound.modulus,
        best,
    })
}

/// The facts of the instance: how many buffers it has, the least moment of greatest load with that
/// load in bytes, how many parts it has, the lower bound on a capacity that has a layout with the
/// least modulus that reaches it, and the height of its best start, in bytes.
pub fn facts_of(alloc: Global, instance: &Instance) -> Result<Facts, NoMemory>
    ensures value { IfOk result (AreFactsOf instance.now) }
{
    let best = best_of_starts(alloc, instance)?;
    facts_with_best(alloc, instance, best.height)
}
