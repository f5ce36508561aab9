//! The orders and the rules with which climbs begin.

ghost use Rattle.std.specs.Prelude.{◌≡◌, ◌<◌, ◌≤◌, IfOk};
ghost use Rattle.first_fit.specs.Rules.{IsOrderOf};
ghost use Rattle.placing_search.specs.Meetings.{AreMeetingsOf};

use crate::meetings::Meetings;
use crate::rankings::Ranking;
use crate::stacking::{HIGHEST, Stack};
use dsa_model::{Instance, NoMemory};
use first_fit::Start;
use row_orders::{Order, in_order};
use std::alloc::Global;

/// How many orders there are to begin with.
const ORDERS: usize = 6;

/// How many beginnings there are: each order with snug stacks, and then each with others.
const BEGINNINGS: usize = 2 * ORDERS;

/// By offset rising in a layout. First-fit in this order puts no buffer above its offset there.
fn by_offset(alloc: Global, instance: &Instance, layout: &Start) -> Result<Vec<u32>, NoMemory>
    ensures { IfOk result (λ order. IsOrderOf instance.now order.items) }
{
    let mut order = in_order(alloc, instance, Order::File)?;
    order.sort_unstable_by_key(|b| layout.offsets.get(*b as usize).copied());
    Ok(order)
}

/// Whether the stacks of a beginning are snug.
pub(crate) fn is_snug(number: usize) -> bool {
    number < ORDERS
}

/// The beginning after this one: by the next order, and mostly by the other rule. Each comes once
/// in turn.
pub(crate) fn next_beginning(number: usize) -> usize
    requires { number < 12 }
    ensures { result < 12 }
{
    (number + ORDERS + 1) % BEGINNINGS
}

/// The order of a beginning; one is that of the offsets of the best layout so far.
pub(crate) fn beginning(
    alloc: Global,
    instance: &Instance,
    best: &Start,
    number: usize,
) -> Result<Vec<u32>, NoMemory>
    ensures { IfOk result (λ order. IsOrderOf instance.now order.items) }
{
    match number % ORDERS {
        0 => in_order(alloc, instance, Order::Met),
        1 => in_order(alloc, instance, Order::Area),
        2 => by_offset(alloc, instance, best),
        3 => in_order(alloc, instance, Order::Lifetime),
        4 => in_order(alloc, instance, Order::Upper),
        _ => in_order(alloc, instance, Order::File),
    }
}

/// The height of the stack by this order, snug or not, in bytes.
fn stack_height(
    alloc: Global,
    instance: &Instance,
    meetings: &Meetings,
    order: Vec<u32>,
    snug: bool,
) -> Result<u64, NoMemory>
    requires meetings { AreMeetingsOf instance.now meetings.now }
    requires order { IsOrderOf instance.now order.items }
{
    let mut stack = Stack::of(alloc, instance, &order, snug)?;
    let ranking = Ranking::of(alloc, instance, order)?;
    Ok(
        stack
            .restack(instance, meetings, &ranking.places, HIGHEST)
            .unwrap_or(HIGHEST),
    )
}

/// The beginning with the lowest stack, of equals the first.
fn lowest_beginning(
    alloc: Global,
    instance: &Instance,
    meetings: &Meetings,
    best: &Start,
) -> Result<usize, NoMemory>
    requires { AreMeetingsOf instance.now meetings.now }
    ensures { IfOk result (λ number. number < 12) }
{
    let mut lowest = 0;
    let mut least = u64::MAX;
    for number in 0..BEGINNINGS {
        let order = beginning(alloc, instance, best, number)?;
        let height = stack_height(alloc, instance, meetings, order, is_snug(number))?;
        if height < least {
            least = height;
            lowest = number;
        }
    }
    Ok(lowest % BEGINNINGS)
}

/// The beginning with which a search by placing begins, and how often all buffers were stacked to
/// find it: it has the lowest stack, where there are placings enough to try all.
pub(crate) fn first_beginning(
    alloc: Global,
    instance: &Instance,
    meetings: &Meetings,
    best: &Start,
    passes: u64,
) -> Result<(usize, u64), NoMemory>
    requires { AreMeetingsOf instance.now meetings.now }
    ensures number { IfOk result (λ first. first.0 < 12) }
    ensures passes { IfOk result (λ first. first.1 ≤ passes) }
{
    if passes <= BEGINNINGS as u64 {
        return Ok((0, 0));
    }
    let number = lowest_beginning(alloc, instance, meetings, best)?;
    Ok((number, BEGINNINGS as u64))
}
