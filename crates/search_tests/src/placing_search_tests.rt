//! Instances that are laid out lower by another order than that of the file.

ghost use Rattle.std.specs.Prelude.{IfOk};
ghost use Rattle.first_fit.specs.Starts.{IsStart};

use crate::instances::{FOURS, Row, TWO, instance_of};
use dsa_model::{Instance, NoMemory, height};
use first_fit::{Start, first_fit};
use placing_search::improve;
use row_orders::{Order, in_order};
use std::alloc::Global;

/// A rectangle of height 12 over ten moments, cut into ten buffers, so that 12 is the least
/// capacity. The best of the six starts is 16 high.
const CUT: &[Row] = &[
    (0, 10, 1, 1),
    (0, 8, 4, 1),
    (0, 7, 2, 1),
    (9, 10, 5, 1),
    (0, 9, 2, 1),
    (7, 9, 3, 1),
    (0, 10, 1, 1),
    (0, 7, 1, 1),
    (0, 10, 1, 1),
    (8, 10, 4, 1),
];

/// Another such rectangle, cut into twelve buffers. Of the beginnings only snug ones stack it
/// within 12.
const CUT_FINER: &[Row] = &[
    (2, 8, 3, 1),
    (8, 10, 1, 1),
    (0, 9, 2, 1),
    (9, 10, 3, 1),
    (0, 2, 3, 1),
    (2, 7, 3, 1),
    (7, 9, 3, 1),
    (8, 10, 2, 1),
    (9, 10, 2, 1),
    (0, 10, 2, 1),
    (0, 2, 3, 1),
    (0, 10, 2, 1),
];

/// What is found from the first layout of some buffers.
struct Case {
    rows: &'static [Row],
    /// The height at which no lower one is sought.
    floor: u64,
    passes: u64,
    /// How high the layout by first-fit in the file's order is.
    before: u64,
    /// How high what is found is.
    found: u64,
}

static CASES: [Case; 9] = [
    Case {
        rows: TWO,
        floor: 4,
        passes: 40,
        before: 5,
        found: 4,
    },
    Case {
        rows: TWO,
        floor: 4,
        passes: 1,
        before: 5,
        found: 5,
    },
    Case {
        rows: TWO,
        floor: 5,
        passes: 40,
        before: 5,
        found: 5,
    },
    Case {
        rows: FOURS,
        floor: 6,
        passes: 40,
        before: 7,
        found: 7,
    },
    Case {
        rows: CUT,
        floor: 12,
        passes: 40,
        before: 18,
        found: 12,
    },
    Case {
        rows: CUT,
        floor: 12,
        passes: 0,
        before: 18,
        found: 18,
    },
    Case {
        rows: CUT_FINER,
        floor: 12,
        passes: 2,
        before: 14,
        found: 12,
    },
    Case {
        rows: CUT_FINER,
        floor: 12,
        passes: 400,
        before: 14,
        found: 12,
    },
    Case {
        rows: &[],
        floor: 0,
        passes: 40,
        before: 0,
        found: 0,
    },
];

/// The layout by first-fit in the file's order.
fn first_start(alloc: Global, instance: &Instance) -> Result<Start, NoMemory>
    ensures { IfOk result (IsStart instance.now) }
{
    let order = in_order(alloc, instance, Order::File)?;
    let offsets = first_fit(alloc, instance, &order)?;
    let height = height(instance, &offsets);
    Ok(Start { offsets, height })
}

/// How high the layout is that is found from there, and how many placings it took, where it was as
/// high before.
fn improved(
    alloc: Global,
    instance: &Instance,
    before: u64,
    floor: u64,
    passes: u64,
) -> Option<(u64, u64)> {
    let start = first_start(alloc, instance).ok()?;
    if start.height != before {
        return None;
    }
    let found = improve(alloc, instance, start, floor, passes).ok()?;
    Some((found.start.height, found.passes))
}

/// Whether the layout that is found of the case is as high as it says.
fn is_met(alloc: Global, case: &Case) -> bool {
    match instance_of(alloc, case.rows) {
        Ok(instance) => match improved(alloc, &instance, case.before, case.floor, case.passes) {
            Some((found, _passes)) => found == case.found,
            None => false,
        },
        Err(_) => false,
    }
}

#[test]
fn other_orders_are_lower(rt: HostRuntime) {
    for (place, case) in CASES.iter().enumerate() {
        assert!(rt; is_met(rt.alloc(), case), "case {place}");
    }
}

/// A stack for each of twelve beginnings, one more for the first, one with the two buffers changed,
/// and first-fit in its order.
#[test]
fn each_stack_and_each_first_fit_is_a_placing(rt: HostRuntime) {
    let two = instance_of(rt.alloc(), TWO).expect(&rt, "memory");
    assert!(rt; improved(rt.alloc(), &two, 5, 4, 40) == Some((4, 15)));
}
