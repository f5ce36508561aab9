//! Worked cases, and each call that takes memory with ample memory.

use crate::made::{FIVE, ONE_THEN_THREE, Row, instance_of, with_gaps};
use dsa_model::{Instance, NoMemory};
use lifetime::Sections;
use lower_bounds::bound;
use refute_log::{ClosedLog, Line};
use std::alloc::Global;

/// The bound of the instance with its moment and its modulus.
fn bound_of(alloc: Global, instance: &Instance) -> Result<(u64, u64, u64), NoMemory> {
    let sections = Sections::build(alloc, instance)?;
    let found = bound(alloc, instance, &sections)?;
    Ok((found.capacity, found.moment, found.modulus))
}

/// Whether this is the bound of the buffers, of which the first one has the gaps.
fn has_bound(alloc: Global, rows: &[Row], gaps: &[(u64, u64)], want: (u64, u64, u64)) -> bool {
    match with_gaps(alloc, rows, 0, gaps) {
        Ok(instance) => bound_of(alloc, &instance) == Ok(want),
        Err(_) => false,
    }
}

/// Two buffers at multiples of four.
const FOURS: &[Row] = &[(0, 1, 3, 4), (0, 1, 3, 4)];

/// Two buffers, of which the first outlasts the second.
const ENCLOSED: &[Row] = &[(0, 10, 4, 1), (4, 6, 4, 1)];

/// The same, and the second lives on for one moment.
const OUTLASTING: &[Row] = &[(0, 10, 4, 1), (4, 7, 4, 1)];

/// Buffers, the gaps of the first one, and their bound with its moment and its modulus. A gap
/// lowers the bound where no other buffer outlasts it.
static BOUNDS: [(&[Row], &[(u64, u64)], (u64, u64, u64)); 6] = [
    (&[], &[], (0, 0, 1)),
    (FIVE, &[], (12, 0, 1)),
    (FOURS, &[], (7, 0, 4)),
    (ONE_THEN_THREE, &[], (4, 2, 1)),
    (ENCLOSED, &[(4, 6)], (4, 0, 1)),
    (OUTLASTING, &[(4, 6)], (8, 6, 1)),
];

#[test]
fn the_bound_is_the_greatest_stack(rt: HostRuntime) {
    for &(rows, gaps, want) in &BOUNDS {
        assert!(rt; has_bound(rt.alloc(), rows, gaps, want), "{want:?}");
    }
}

/// The log that refutes one byte less than the bound of the instance, which is none of 0.
fn refuted(alloc: Global, instance: &Instance) -> Result<ClosedLog, NoMemory> {
    let sections = Sections::build(alloc, instance)?;
    let found = bound(alloc, instance, &sections)?;
    if found.capacity == 0 {
        return Err(NoMemory);
    }
    found.log(alloc, instance, found.capacity - 1)
}

/// Whether the log refutes 6 by one line of two buffers at multiples of four, all live at 0.
fn is_one_line(log: &ClosedLog) -> bool {
    if log.capacity() != 6 || log.len() != 1 {
        return false;
    }
    match log.line(0) {
        Line::Over {
            claim,
            moment,
            height,
            modulus,
        } => claim.len() == 2 && *moment == 0 && *height == 0 && *modulus == 4,
        Line::Cases { .. } => false,
    }
}

/// Two buffers at multiples of four, and one after them.
static REFUTED: [Row; 3] = [(0, 1, 3, 4), (0, 1, 3, 4), (2, 3, 1, 1)];

#[test]
fn the_log_of_a_bound_is_one_line(rt: HostRuntime) {
    let three = instance_of(rt.alloc(), &REFUTED).expect(&rt, "memory");
    let log = refuted(rt.alloc(), &three).expect(&rt, "memory");
    assert!(rt; is_one_line(&log));
}
