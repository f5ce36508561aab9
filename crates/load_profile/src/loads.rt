//! The sums of sizes.

ghost use Rattle.std.specs.Prelude.{◌≡◌, ◌<◌, ◌≤◌, ◌↔◌, length, IfOk, IsTrue};
ghost use Rattle.std.specs.List.{All};
ghost use Rattle.dsa_model.specs.Buffer.{buffer_limit};
ghost use Rattle.lifetime.specs.SectionList.{AreSectionsOf, count_of};
ghost use Rattle.load_profile.specs.LoadProfile.{Exceeds, IsGreatestOf, load_of, loads_of};

use dsa_model::Instance;
use lifetime::Sections;
use std::alloc::{AllocError, Global};

/// The sum of the sizes of these buffers.
fn load_of(instance: &Instance, members: &[u32]) -> u64
    requires in_range { All (λ b. b < length instance.now) members.now }
    requires few { length members.now ≤ buffer_limit }
    ensures { result ≡ load_of instance.now members.now }
{
    let mut load = 0;
    for b in members {
        load += instance.buffer(*b).size();
    }
    load
}

/// The load of each section.
pub(crate) fn loads(
    alloc: Global,
    instance: &Instance,
    sections: &Sections,
) -> Result<Vec<u64>, AllocError>
    requires sections { AreSectionsOf instance.now sections.now }
    requires few { length instance.now ≤ buffer_limit }
    ensures { IfOk result (λ loads. loads.items ≡ loads_of instance.now sections.now) }
{
    let mut loads = Vec::new(alloc);
    for s in 0..sections.count() {
        loads.push(load_of(instance, sections.members(s)))?;
    }
    Ok(loads)
}

/// Whether the load is greater than that of the peak so far.
fn exceeds(load: u64, peak: Option<(u64, u64)>) -> bool
    ensures { IsTrue result ↔ Exceeds load peak }
{
    match peak {
        None => true,
        Some((_, most)) => load > most,
    }
}

/// The start and the load of the first section of greatest load.
pub(crate) fn greatest(sections: &Sections, loads: &[u64]) -> Option<(u64, u64)>
    requires { length loads.now ≡ count_of sections.now }
    ensures { IsGreatestOf sections.now loads.now (count_of sections.now) result }
{
    let mut peak = None;
    for s in 0..sections.count() {
        let load = loads[s as usize];
        if exceeds(load, peak) {
            peak = Some((sections.start(s), load));
        }
    }
    peak
}
