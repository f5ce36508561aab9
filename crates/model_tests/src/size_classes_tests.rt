//! Worked instances, and each call that takes memory with ample memory.

use crate::made::{FIVE, Row, instance_of, with_gaps};
use dsa_model::{Fail, Instance};
use size_classes::{NotPlain, classes};
use std::alloc::Global;

/// Sizes 3 and 4 are of one class, size 1 is of a lower one.
const MIXED: &[Row] = &[(0, 2, 3, 1), (1, 3, 4, 1), (0, 1, 1, 1)];

/// A buffer that begins where another ends gets its slot, though a third is live at both.
const IN_TURN: &[Row] = &[(0, 2, 3, 1), (2, 3, 3, 1), (1, 3, 3, 1)];

/// Whether the plan of the instance has this height, this load and these offsets.
fn is_plan(alloc: Global, instance: &Instance, want: (u64, u64), offsets: &[u64]) -> bool {
    match classes(alloc, instance) {
        Ok(plan) => (plan.height, plan.load) == want && plan.offsets.as_slice() == offsets,
        Err(_) => false,
    }
}

/// The same of the buffers.
fn has_plan(alloc: Global, rows: &[Row], want: (u64, u64), offsets: &[u64]) -> bool {
    match instance_of(alloc, rows) {
        Ok(instance) => is_plan(alloc, &instance, want, offsets),
        Err(_) => false,
    }
}

/// Buffers with the height and the load of their plan, and its offsets.
static PLANS: [(&[Row], (u64, u64), &[u64]); 5] = [
    (&[], (0, 0), &[]),
    (FIVE, (12, 12), &[0, 0, 4, 0, 8]),
    (MIXED, (9, 7), &[1, 5, 0]),
    (IN_TURN, (6, 6), &[0, 0, 3]),
    (&[(0, 1, 8, 1), (0, 1, 9, 1)], (17, 17), &[0, 8]),
];

#[test]
fn the_classes_stand_by_rising_size(rt: HostRuntime) {
    for &(rows, want, offsets) in &PLANS {
        assert!(rt; has_plan(rt.alloc(), rows, want, offsets), "{offsets:?}");
    }
}

/// Whether this is the least buffer that has no plan by size class, where buffer `holed` has a gap
/// from 3 to 5.
fn is_rough(alloc: Global, rows: &[Row], holed: u32, want: u32) -> bool {
    match with_gaps(alloc, rows, holed, &[(3, 5)]) {
        Ok(instance) => {
            classes(alloc, &instance).err() == Some(Fail::Fault(NotPlain { buffer: want }))
        }
        Err(_) => false,
    }
}

/// Buffers without a gap, of which two have an alignment.
static ALIGNED: [Row; 2] = [(2, 3, 1, 2), (2, 3, 1, 2)];

/// Buffers of which the second has an alignment, and the third gets a gap.
static BOTH: [Row; 3] = [(0, 9, 4, 1), (0, 1, 1, 4), (0, 9, 4, 1)];

#[test]
fn the_least_buffer_with_a_gap_or_an_alignment_is_told(rt: HostRuntime) {
    assert!(rt; is_rough(rt.alloc(), &ALIGNED, 2, 0));
    assert!(rt; is_rough(rt.alloc(), FIVE, 4, 4));
    assert!(rt; is_rough(rt.alloc(), &BOTH, 2, 1));
}
