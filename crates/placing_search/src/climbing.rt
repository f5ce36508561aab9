//! An order that is made better swap by swap.

ghost use Rattle.std.specs.Prelude.{◌<◌, ◌≤◌, IfOk, length};
ghost use Rattle.first_fit.specs.Rules.{IsOrderOf};
ghost use Rattle.first_fit.specs.Starts.{IsStart};
ghost use Rattle.placing_search.specs.Meetings.{AreMeetingsOf};

use crate::draws::Draws;
use crate::improving::Improved;
use crate::meetings::Meetings;
use crate::rankings::Ranking;
use crate::stacking::{HIGHEST, Stack};
use crate::swaps::two_places;
use dsa_model::{Instance, NoMemory, height};
use first_fit::{Start, first_fit};
use std::alloc::Global;
use std::mem;

/// How many placings in a row may fail to lower the height.
const PATIENCE: u64 = 500;

/// All buffers placed by first-fit in the order.
pub(crate) fn place_all(
    alloc: Global,
    instance: &Instance,
    order: &[u32],
) -> Result<Start, NoMemory>
    requires { IsOrderOf instance.now order.now }
    ensures { IfOk result (IsStart instance.now) }
{
    let offsets = first_fit(alloc, instance, order)?;
    Ok(Start {
        height: height(instance, &offsets),
        offsets,
    })
}

/// The order in which the lowest stack of a climb was stacked, and how often all buffers were
/// stacked. The climb begins with the order given. Two buffers change their places, and change
/// back where the stack gets higher. It ends at the floor, where the placings are used up, or where
/// many of them have not lowered the height.
fn climbed(
    alloc: Global,
    instance: &Instance,
    meetings: &Meetings,
    order: Vec<u32>,
    snug: bool,
    draws: &mut Draws,
    floor: u64,
    passes: u64,
) -> Result<(Vec<u32>, u64), NoMemory>
    requires meetings { AreMeetingsOf instance.now meetings.now }
    requires order { IsOrderOf instance.now order.items }
    requires some { 0 < length instance.now }
    ensures order { IfOk result (λ climbed. IsOrderOf instance.now climbed.0.items) }
    ensures passes { IfOk result (λ climbed. climbed.1 ≤ passes) }
{
    if passes == 0 {
        return Ok((order, 0));
    }
    let mut ranking = Ranking::of(alloc, instance, order)?;
    let mut best = Stack::of(alloc, instance, &ranking.order, snug)?;
    let mut next = Stack::of(alloc, instance, &ranking.order, snug)?;
    let mut height = best
        .restack(instance, meetings, &ranking.places, HIGHEST)
        .unwrap_or(HIGHEST);
    let mut made = 1;
    let mut idle = 0;
    while made < passes && idle < PATIENCE && floor < height {
        let (later, earlier) = two_places(instance, &ranking, &best, height, draws);
        ranking.swap(instance, later, earlier);
        made += 1;
        idle += 1;
        match next.restack(instance, meetings, &ranking.places, height) {
            Some(found) => {
                if found < height {
                    idle = 0;
                }
                height = found;
                mem::swap(&mut best, &mut next);
            }
            None => ranking.swap(instance, later, earlier),
        }
    }
    Ok((best.order, made))
}

/// The layout by first-fit in the order in which the lowest stack of a climb from this order was
/// stacked.
///
/// The caller owes at least one placing, and some buffers.
pub(crate) fn climb(
    alloc: Global,
    instance: &Instance,
    meetings: &Meetings,
    order: Vec<u32>,
    snug: bool,
    draws: &mut Draws,
    floor: u64,
    passes: u64,
) -> Result<Improved, NoMemory>
    requires meetings { AreMeetingsOf instance.now meetings.now }
    requires order { IsOrderOf instance.now order.items }
    requires buffers { 0 < length instance.now }
    requires some { 0 < passes }
    ensures layout { IfOk result (λ climbed. IsStart instance.now climbed.start) }
    ensures some { IfOk result (λ climbed. 0 < climbed.passes) }
    ensures passes { IfOk result (λ climbed. climbed.passes ≤ passes) }
{
    let (order, made) = climbed(
        alloc,
        instance,
        meetings,
        order,
        snug,
        draws,
        floor,
        passes - 1,
    )?;
    Ok(Improved {
        start: place_all(alloc, instance, &order)?,
        passes: made + 1,
    })
}
