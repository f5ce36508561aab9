//! Worked instances, tried in one order after another.

ghost use Rattle.std.specs.Prelude.{◌+◌, ◌<◌, ◌≤◌, ◌^◌, IfOk};
ghost use Rattle.min_capacity.specs.Brackets.{IsBracket};

use crate::instances::{THREE, TWO, instance_of};
use dsa_model::{Instance, NoMemory, height};
use first_fit::first_fit;
use min_capacity::{Bracket, Least};
use narrowing::{Tries, narrow, settle};
use portfolio::Portfolio;
use refute_log::Decided;
use row_orders::{Order, in_order};
use std::alloc::Global;

/// Whether a layout of the three buffers at 5 is carried back from another order.
fn is_carried(answer: &Decided) -> bool {
    match answer {
        Decided::Layout(offsets) => offsets.as_slice() == [2, 4, 0].as_slice(),
        _ => false,
    }
}

/// Whether within twelve units such a layout is found by four.
fn is_found(alloc: Global, three: &Instance) -> Result<bool, NoMemory> {
    let mut tries = Portfolio::new(alloc, three)?;
    let answer = tries.attempt(alloc, 5, 12)?;
    Ok(is_carried(&answer) && tries.used() == 4)
}

#[test]
fn a_layout_that_another_order_finds_is_carried_back(rt: HostRuntime) {
    let three = instance_of(rt.alloc(), THREE).expect(&rt, "memory");
    assert!(rt; is_found(rt.alloc(), &three) == Ok(true));
}

/// Whether 5 stays open within the limit, and all units are used.
fn is_spent(alloc: Global, three: &Instance, limit: u32) -> Result<bool, NoMemory> {
    let mut tries = Portfolio::new(alloc, three)?;
    let answer = tries.attempt(alloc, 5, limit as u64)?;
    Ok(matches!(answer, Decided::Spent) && tries.used() == limit as u64)
}

#[test]
fn units_that_are_too_few_are_all_used(rt: HostRuntime) {
    let three = instance_of(rt.alloc(), THREE).expect(&rt, "memory");
    for limit in 0..10u32 {
        assert!(rt;
            is_spent(rt.alloc(), &three, limit) == Ok(true),
            "within {limit}"
        );
    }
}

/// Whether a log of the three buffers comes that refutes 4.
fn refutes_four(alloc: Global, tries: &mut Portfolio, limit: u64) -> Result<bool, NoMemory>
    requires { tries.old.units + limit < 2 ^ 64 }
    ensures { tries.new.units ≤ tries.old.units + limit }
{
    match tries.attempt(alloc, 4, limit)? {
        Decided::Refuted(log) => Ok(log.capacity() == 4 && log.count() == 3),
        _ => Ok(false),
    }
}

/// Whether 4 is refuted within 5 units, within 15 more and within 5 more, each with the units that
/// are used then.
fn refutations(alloc: Global, three: &Instance) -> Result<[(bool, u64); 3], NoMemory> {
    let mut tries = Portfolio::new(alloc, three)?;
    let few = (refutes_four(alloc, &mut tries, 5)?, tries.used());
    let more = (refutes_four(alloc, &mut tries, 15)?, tries.used());
    let again = (refutes_four(alloc, &mut tries, 5)?, tries.used());
    Ok([few, more, again])
}

/// Five units are too few for three searches, and enough for one.
#[test]
fn what_another_order_refutes_is_searched_in_the_instance_alone(rt: HostRuntime) {
    let three = instance_of(rt.alloc(), THREE).expect(&rt, "memory");
    let want = [(false, 5), (true, 15), (true, 20)];
    assert!(rt; refutations(rt.alloc(), &three) == Ok(want));
}

/// The bracket from 0 to first-fit.
fn first_bracket(alloc: Global, instance: &Instance) -> Result<Bracket, NoMemory>
    ensures { IfOk result (IsBracket instance.now) }
{
    let order = in_order(alloc, instance, Order::File)?;
    let layout = first_fit(alloc, instance, &order)?;
    let high = height(instance, &layout);
    Ok(Bracket {
        low: 0,
        log: None,
        high,
        layout,
    })
}

/// Whether the bracket ends at 4, by a layout and by a log.
fn is_of_4(found: &Least) -> bool {
    match found {
        Least::Exact(bracket) => {
            bracket.high == 4
                && bracket.layout.as_slice() == [1, 0].as_slice()
                && bracket.log.is_some()
        }
        Least::Open(_) => false,
    }
}

/// Whether the bracket is narrowed to such a one.
fn is_narrowed(alloc: Global, two: &Instance, start: Bracket) -> Result<bool, NoMemory>
    requires { IsBracket two.now start }
{
    let mut tries = Portfolio::new(alloc, two)?;
    let found = narrow(alloc, two, start, 100, &mut tries)?;
    Ok(is_of_4(&found))
}

/// Whether that from 0 to 5 is.
fn is_narrowed_to_4(alloc: Global, two: &Instance) -> bool {
    match first_bracket(alloc, two) {
        Ok(start) => start.high == 5 && is_narrowed(alloc, two, start) == Ok(true),
        Err(_) => false,
    }
}

#[test]
fn a_bracket_is_narrowed_to_the_least_capacity(rt: HostRuntime) {
    let two = instance_of(rt.alloc(), TWO).expect(&rt, "memory");
    assert!(rt; is_narrowed_to_4(rt.alloc(), &two));
}

/// The ends of the bracket once the capacity inside it is settled.
fn settled(
    alloc: Global,
    two: &Instance,
    start: Bracket,
    capacity: u32,
    steps: u32,
) -> Result<(u64, u64), NoMemory>
    requires bracket { IsBracket two.now start }
    requires low { start.low ≤ capacity }
    requires high { capacity < start.high }
{
    let mut tries = Portfolio::new(alloc, two)?;
    let bracket = settle(alloc, two, start, capacity as u64, steps as u64, &mut tries)?;
    Ok((bracket.low, bracket.high))
}

/// The same of the bracket from 0 to first-fit, and none where the capacity is not inside.
fn ends_settled(alloc: Global, two: &Instance, capacity: u32, steps: u32) -> Option<(u64, u64)> {
    let start = first_bracket(alloc, two).ok()?;
    if (capacity as u64) < start.low || start.high <= capacity as u64 {
        return None;
    }
    settled(alloc, two, start, capacity, steps).ok()
}

/// Capacities and units, each with the ends once the one is settled by the other.
static SETTLED: [(u32, u32, (u64, u64)); 3] = [(4, 0, (0, 5)), (4, 100, (0, 4)), (3, 100, (4, 5))];

#[test]
fn one_capacity_is_settled_where_the_units_suffice(rt: HostRuntime) {
    let two = instance_of(rt.alloc(), TWO).expect(&rt, "memory");
    for &(capacity, steps, ends) in &SETTLED {
        let met = ends_settled(rt.alloc(), &two, capacity, steps) == Some(ends);
        assert!(rt; met, "at {capacity} within {steps}");
    }
}
