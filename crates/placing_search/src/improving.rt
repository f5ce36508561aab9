//! A layout that is no higher than the one given.

ghost use Rattle.std.specs.Prelude.{◌≡◌, ◌<◌, ◌≤◌, IfOk};
ghost use Rattle.first_fit.specs.Starts.{IsStart};

use crate::beginnings::{beginning, first_beginning, is_snug, next_beginning};
use crate::climbing::climb;
use crate::draws::Draws;
use crate::meetings::Meetings;
use dsa_model::{Instance, NoMemory};
use first_fit::Start;
use std::alloc::Global;

/// A layout, and what it took to find it.
#[derive(Drop)]
pub struct Improved {
    /// The layout with its height.
    pub start: Start,
    /// How often all buffers were placed.
    pub passes: u64,
}

/// The lowest layout that is found by placing all buffers at most `passes` times; the one given
/// where none is lower. The search stops at the first whose height is at most `floor`, in bytes.
///
/// It climbs from one order of the buffers after another, from that of the lowest stack first, two
/// of them changing places: an order is judged by stacking the buffers from below, and kept where
/// the stack is no higher than the one before. A climb ends where many stacks have not lowered the
/// height, with first-fit in the order of its lowest stack, whose layout counts.
pub fn improve(
    alloc: Global,
    instance: &Instance,
    start: Start,
    floor: u64,
    passes: u64,
) -> Result<Improved, NoMemory>
    requires { IsStart instance.now start }
    ensures layout { IfOk result (λ improved. IsStart instance.now improved.start) }
    ensures height { IfOk result (λ improved. improved.start.height ≤ start.height) }
    ensures passes { IfOk result (λ improved. improved.passes ≤ passes) }
    ensures idle { start.height ≤ floor →
        IfOk result (λ improved. (improved.start ≡ start) × (improved.passes ≡ 0)) }
    ensures spent { IfOk result (λ improved.
        improved.passes < passes → improved.start.height ≤ floor) }
{
    if start.height <= floor || passes == 0 {
        return Ok(Improved { start, passes: 0 });
    }
    let mut best = start;
    let meetings = Meetings::of(alloc, instance)?;
    let (mut number, mut made) = first_beginning(alloc, instance, &meetings, &best, passes)?;
    let mut draws = Draws::new();
    while made < passes && floor < best.height {
        let order = beginning(alloc, instance, &best, number)?;
        let climbed = climb(
            alloc,
            instance,
            &meetings,
            order,
            is_snug(number),
            &mut draws,
            floor,
            passes - made,
        )?;
        made += climbed.passes;
        if climbed.start.height < best.height {
            best = climbed.start;
        }
        number = next_beginning(number);
    }
    Ok(Improved {
        start: best,
        passes: made,
    })
}
