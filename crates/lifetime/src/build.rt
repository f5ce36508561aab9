//! Making the sections of an instance.

ghost use Rattle.std.specs.Prelude.{◌+◌, ◌*◌, ◌≤◌, IfOk, length, map};
ghost use Rattle.dsa_model.specs.Buffer.{gap_limit};
ghost use Rattle.lifetime.specs.SectionList.{AreSectionsOf};
ghost use Rattle.lifetime.specs.Runs.{AreRuns};
ghost use Rattle.lifetime.specs.Thin.{AreThinRuns, IsThin, StandForAll};
ghost use Rattle.lifetime.specs.Views.{section_of};

use crate::Sections;
use crate::edges::edges;
use crate::places::places;
use crate::section_list::Section;
use crate::sweep::thinned_runs;
use dsa_model::{Instance, NoMemory};
use std::alloc::{AllocError, Global};

/// The runs of moments in which the same buffers, at least one, are live, without those that say
/// less than a neighbour.
fn thin_runs(alloc: Global, instance: &Instance) -> Result<Vec<Section>, AllocError>
    ensures runs { IfOk result (λ sections. AreThinRuns instance.now
        (map section_of sections.items)) }
    ensures limit { IfOk result (λ sections. length sections.items ≤
        (2 + 2 * gap_limit) * length instance.now) }
{
    let edges = edges(alloc, instance)?;
    Ok(thinned_runs(alloc, instance, &edges)?.into_sections())
}

impl Sections {
    /// The sections of the instance: one for each greatest run of moments in which the same
    /// buffers, at least one, are live, but for those that say less than a neighbour. A section
    /// stays only if its members are not all among those of the section before it or after it in
    /// the finished list; of two equal neighbours the earlier stays.
    pub fn build(alloc: Global, instance: &Instance) -> Result<Sections, NoMemory>
        ensures sections { IfOk result (λ made. AreSectionsOf instance.now made) }
        ensures runs { IfOk result (λ made. AreRuns instance.now made) }
        ensures thin { IfOk result (λ made. IsThin made) }
        ensures stand { IfOk result (λ made. StandForAll instance.now made) }
    {
        let sections = thin_runs(alloc, instance)?;
        let of_buffers = places(alloc, &sections, instance.len() as usize)?;
        Ok(Sections::of_lists(sections, of_buffers))
    }
}
