//! Worked instances, and each call that takes memory with ample memory.

use crate::instances::{Row, instance_of};
use dsa_model::{Instance, NoMemory};
use first_fit::{Start, best_fit, best_start, first_fit, first_within, starts};
use std::alloc::Global;

/// Buffers with their starts, and which of these is the best.
struct Case {
    rows: &'static [Row],
    /// The offsets by first-fit in each of three orders, and those by best-fit where they differ.
    starts: &'static [&'static [u64]],
    best: u32,
}

/// Buffers of which the six starts differ, and best-fit by lower is the best.
const UNLIKE: &[Row] = &[
    (1, 5, 1, 3),
    (4, 5, 4, 3),
    (2, 4, 5, 1),
    (4, 7, 1, 2),
    (4, 8, 5, 1),
    (2, 5, 2, 2),
];

/// All but the last are placed by hand.
static CASES: [Case; 13] = [
    Case {
        rows: &[(1, 4, 3, 3), (1, 4, 4, 1), (0, 2, 4, 1), (0, 3, 3, 3)],
        starts: &[&[9, 0, 4, 12], &[9, 12, 0, 6], &[6, 0, 12, 9]],
        best: 0,
    },
    Case {
        rows: &[(1, 3, 1, 1), (1, 3, 3, 1), (1, 4, 3, 2), (1, 4, 4, 1)],
        starts: &[&[7, 4, 8, 0], &[0, 1, 4, 7], &[10, 7, 4, 0]],
        best: 0,
    },
    Case {
        rows: &[(1, 3, 4, 1), (1, 4, 4, 1), (0, 1, 2, 2), (0, 1, 3, 3)],
        starts: &[&[0, 4, 4, 0], &[0, 4, 0, 3], &[4, 0, 4, 0]],
        best: 0,
    },
    Case {
        rows: &[(1, 3, 2, 3), (1, 3, 3, 1), (0, 1, 1, 1), (1, 2, 3, 1)],
        starts: &[&[6, 0, 0, 3], &[0, 2, 0, 5], &[3, 0, 0, 5]],
        best: 0,
    },
    Case {
        rows: &[(2, 3, 3, 1), (2, 4, 2, 1), (2, 4, 4, 3), (2, 4, 2, 3)],
        starts: &[&[4, 7, 0, 9], &[0, 3, 6, 12], &[8, 4, 0, 6]],
        best: 0,
    },
    Case {
        rows: &[(1, 4, 1, 1), (2, 3, 4, 2), (1, 4, 2, 3), (2, 4, 1, 1)],
        starts: &[
            &[4, 0, 6, 5],
            &[0, 6, 3, 1],
            &[6, 2, 0, 7],
            &[4, 0, 6, 5],
            &[0, 6, 3, 5],
            &[6, 2, 0, 7],
        ],
        best: 0,
    },
    Case {
        rows: &[(2, 3, 4, 1), (1, 4, 4, 2), (0, 2, 1, 1), (1, 4, 2, 3)],
        starts: &[
            &[0, 4, 0, 9],
            &[8, 2, 0, 6],
            &[8, 0, 4, 6],
            &[0, 4, 8, 9],
            &[8, 2, 0, 6],
            &[8, 0, 4, 6],
        ],
        best: 0,
    },
    Case {
        rows: &[(2, 3, 2, 2), (1, 3, 1, 1), (1, 3, 2, 3), (2, 4, 1, 1)],
        starts: &[
            &[0, 2, 3, 5],
            &[6, 0, 3, 1],
            &[2, 4, 0, 5],
            &[0, 2, 3, 5],
            &[6, 0, 3, 5],
            &[2, 4, 0, 5],
        ],
        best: 0,
    },
    Case {
        rows: &[(1, 3, 1, 1), (2, 3, 3, 2), (1, 3, 3, 3), (2, 5, 4, 1)],
        starts: &[
            &[7, 4, 9, 0],
            &[0, 6, 3, 9],
            &[4, 10, 6, 0],
            &[7, 4, 9, 0],
            &[0, 6, 3, 9],
            &[9, 10, 6, 0],
        ],
        best: 0,
    },
    Case {
        rows: &[(2, 5, 4, 1), (1, 3, 3, 1), (0, 2, 2, 1), (0, 3, 3, 3)],
        starts: &[
            &[0, 4, 0, 9],
            &[9, 6, 0, 3],
            &[0, 9, 0, 6],
            &[0, 4, 7, 9],
            &[9, 6, 0, 3],
            &[0, 9, 0, 6],
        ],
        best: 0,
    },
    Case {
        rows: &[(0, 2, 1, 1), (1, 4, 3, 2), (1, 3, 2, 2), (2, 3, 4, 1)],
        starts: &[
            &[0, 4, 8, 0],
            &[0, 2, 6, 8],
            &[3, 0, 4, 6],
            &[7, 4, 8, 0],
            &[0, 2, 6, 8],
            &[3, 0, 4, 6],
        ],
        best: 0,
    },
    Case {
        rows: &[(0, 3, 1, 2), (2, 4, 1, 1), (0, 3, 2, 3), (0, 3, 1, 3)],
        starts: &[
            &[2, 3, 0, 6],
            &[0, 1, 3, 6],
            &[2, 4, 0, 3],
            &[2, 3, 0, 6],
            &[0, 5, 3, 6],
            &[2, 4, 0, 3],
        ],
        best: 2,
    },
    Case {
        rows: &[],
        starts: &[&[]],
        best: 0,
    },
];

/// Whether these are the starts of the case, and which of them is the best.
fn are_of(made: &[Start], case: &Case) -> bool {
    let count = case.starts.len();
    if made.len() != 6 || count == 0 {
        return false;
    }
    for s in 0..6 {
        if made[s].offsets.as_slice() != case.starts[s % count] {
            return false;
        }
    }
    best_start(made) == case.best
}

/// Whether the starts of the instance are those of the case.
fn has_starts(alloc: Global, instance: &Instance, case: &Case) -> bool {
    match starts(alloc, instance) {
        Ok(made) => are_of(&made, case),
        Err(_) => false,
    }
}

/// Whether the case is met.
fn is_met(alloc: Global, case: &Case) -> bool {
    match instance_of(alloc, case.rows) {
        Ok(instance) => has_starts(alloc, &instance, case),
        Err(_) => false,
    }
}

#[test]
fn the_starts_are_first_fit_and_best_fit_over_three_orders(rt: HostRuntime) {
    for (place, case) in CASES.iter().enumerate() {
        assert!(rt; is_met(rt.alloc(), case), "instance {place}");
    }
}

/// Whether of starts of which the first is 15 high and the lowest, the fifth, 13, the first one
/// within a capacity is found.
fn are_found(made: &[Start]) -> bool {
    first_within(made, 15) == Some(0)
        && first_within(made, 14) == Some(4)
        && first_within(made, 12).is_none()
}

#[test]
fn the_first_start_within_a_capacity_is_found(rt: HostRuntime) {
    let instance = instance_of(rt.alloc(), UNLIKE).expect(&rt, "memory");
    let made = starts(rt.alloc(), &instance).expect(&rt, "memory");
    assert!(rt; are_found(&made));
}

/// Buffers of which the third one, the first one and the second one are placed in turn.
static IN_TURN: [Row; 3] = [(0, 1, 3, 1), (0, 1, 1, 1), (0, 1, 2, 2)];

/// Whether the offsets were found, and are those of the three in turn.
fn are_in_turn(found: Result<Vec<u64>, NoMemory>) -> bool {
    match found {
        Ok(offsets) => offsets.as_slice() == [2, 5, 0].as_slice(),
        Err(_) => false,
    }
}

/// Whether the three are so placed by first-fit and by best-fit.
fn are_placed(alloc: Global, three: &Instance) -> bool {
    let order = [2, 0, 1];
    three.len() == 3
        && are_in_turn(first_fit(alloc, three, &order))
        && are_in_turn(best_fit(alloc, three, &order))
}

#[test]
fn the_buffers_are_placed_in_the_given_order(rt: HostRuntime) {
    let three = instance_of(rt.alloc(), &IN_TURN).expect(&rt, "memory");
    assert!(rt; are_placed(rt.alloc(), &three));
}
