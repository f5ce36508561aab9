//! The greatest stack of all moments, moduli and heights.

ghost use Rattle.std.specs.Prelude.{◌≡◌, ◌≤◌, length, IfOk};
ghost use Rattle.std.specs.List.{All};
ghost use Rattle.dsa_terms.specs.Bounds.{bound_modulus, lower_bound};
ghost use Rattle.dsa_start_laws.specs.Reaching.{bound_height, bound_moment};
ghost use Rattle.dsa_model.specs.Buffer.{IsBuffer, buffer_limit};
ghost use Rattle.lifetime.specs.Runs.{starts_of};
ghost use Rattle.lifetime.specs.SectionList.{AreSectionsOf, count_of};
ghost use Rattle.lower_bounds.specs.Best.{IsBoundOf, IsRaised};
ghost use Rattle.lower_bounds.specs.Stacks.{IsFalling, IsModulus};
ghost use Rattle.lower_bounds.specs.Tallies.{AreTallies};

use crate::Bound;
use crate::crude::crude;
use crate::falling::falling;
use crate::moduli::moduli;
use crate::tallies::{Tally, tally_all};
use dsa_model::{Instance, NoMemory};
use dsa_start_laws::{bound_is_low, bound_modulus_is_least, sections_reach_the_bound};
use lifetime::Sections;
use std::alloc::Global;

/// The bound, or what is stacked by this modulus at the first section that comes to more than all
/// before it.
fn highest(
    instance: &Instance,
    sections: &Sections,
    order: &[u32],
    modulus: u64,
    tallies: &[Tally],
    bound: Bound,
) -> Bound
    requires sections { AreSectionsOf instance.now sections.now }
    requires buffers { All IsBuffer instance.now }
    requires order { IsFalling instance.now order.now }
    requires modulus { IsModulus modulus }
    requires tallies { AreTallies instance.now sections.now modulus order.now tallies.now }
    ensures { IsRaised instance.now sections.now modulus (count_of sections.now) bound result }
{
    let mut best = bound;
    for s in 0..sections.count() {
        let tally = tallies[s as usize];
        if tally.value > best.capacity {
            best = Bound {
                capacity: tally.value,
                moment: sections.start(s),
                modulus,
                height: tally.height,
            };
        }
    }
    best
}

/// The bound, or the highest stack by this modulus where it comes to more. The tallies are looked
/// at only where they can come to more; what they are before does not matter.
fn raised(
    instance: &Instance,
    sections: &Sections,
    order: &[u32],
    modulus: u64,
    tallies: &mut [Tally],
    bound: Bound,
) -> Bound
    requires sections { AreSectionsOf instance.now sections.now }
    requires buffers { All IsBuffer instance.now }
    requires few { length instance.now ≤ buffer_limit }
    requires order { IsFalling instance.now order.now }
    requires modulus { IsModulus modulus }
    requires count { length tallies.old ≡ count_of sections.now }
    ensures raised { IsRaised instance.now sections.now modulus
        (count_of sections.now) bound result }
    ensures count { length tallies.new ≡ count_of sections.now }
{
    if crude(instance, modulus) <= bound.capacity {
        return bound;
    }
    tally_all(instance, sections, order, modulus, tallies);
    highest(instance, sections, order, modulus, tallies, bound)
}

/// The greatest that any section comes to by any modulus among 1 and the alignments, from any
/// height among 0 and the floors, with the least modulus that comes to it, the start of the first
/// section that does so, and the least height from which it does so there; 0, 0, 1 and 0 for no
/// buffers. Capacity and height are in bytes. The caller owes that the sections are the instance's.
pub fn bound(alloc: Global, instance: &Instance, sections: &Sections) -> Result<Bound, NoMemory>
    requires { AreSectionsOf instance.now sections.now }
    ensures capacity { IfOk result (λ found. found.capacity ≡ lower_bound instance.now) }
    ensures modulus { IfOk result (λ found. found.modulus ≡ bound_modulus instance.now) }
    ensures moment { let starts = starts_of sections.now.sections in
        IfOk result (λ found. found.moment ≡ bound_moment instance.now starts) }
    ensures height { let starts = starts_of sections.now.sections in
        IfOk result (λ found. found.height ≡ bound_height instance.now starts) }
    ensures bound { IfOk result (λ found. IsBoundOf instance.now found) }
{
    bound_is_low();
    bound_modulus_is_least();
    sections_reach_the_bound();
    let _buffers = instance.len();
    let mut best = Bound {
        capacity: 0,
        moment: 0,
        modulus: 1,
        height: 0,
    };
    let candidates = moduli(alloc, instance)?;
    let order = falling(alloc, instance)?;
    let mut tallies = vec![in alloc; Tally::NONE; sections.count() as usize]?;
    for modulus in &candidates {
        best = raised(instance, sections, &order, *modulus, &mut tallies, best);
    }
    Ok(best)
}
