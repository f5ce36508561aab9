//! Worked cases, and each call that takes memory with ample memory.

use crate::made::{FIVE, ONE_THEN_THREE, Row, is_list, with_gaps};
use dsa_model::Instance;
use split_sections::{Parts, parts};
use std::alloc::{AllocError, Global};

/// The buffers of each part, with 99 behind each part.
fn listed(alloc: Global, parts: &Parts) -> Result<Vec<u64>, AllocError> {
    let mut found = Vec::new(alloc);
    for p in 0..parts.count() {
        for b in parts.members(p) {
            found.push(*b as u64)?;
        }
        found.push(99)?;
    }
    Ok(found)
}

/// The parts of the instance as `listed` has them.
fn parts_listed(alloc: Global, instance: &Instance) -> Option<Vec<u64>> {
    match parts(alloc, instance) {
        Ok(found) => listed(alloc, &found).ok(),
        Err(_) => None,
    }
}

/// Whether these are the parts of the buffers, of which the first one has the gaps.
fn has_parts(alloc: Global, rows: &[Row], gaps: &[(u64, u64)], want: &[u64]) -> bool {
    match with_gaps(alloc, rows, 0, gaps) {
        Ok(instance) => is_list(parts_listed(alloc, &instance), want),
        Err(_) => false,
    }
}

/// The first buffer is live last.
const LATE_FIRST: &[Row] = &[(5, 7, 1, 1), (0, 3, 1, 1), (3, 5, 1, 1)];

/// No buffer is live between the two.
const APART: &[Row] = &[(0, 2, 1, 1), (4, 5, 1, 1)];

/// The third buffer goes on where the others are cut.
const BRIDGED: &[Row] = &[(0, 2, 1, 1), (2, 4, 1, 1), (1, 3, 1, 1)];

/// The second buffer is live in the gap of the first.
const FILLING: &[Row] = &[(0, 10, 4, 1), (4, 6, 4, 1)];

/// Buffers, the gaps of the first one, and their parts as `listed` has them.
static PARTS: [(&[Row], &[(u64, u64)], &[u64]); 7] = [
    (&[], &[], &[]),
    (FIVE, &[], &[0, 1, 2, 3, 4, 99]),
    (ONE_THEN_THREE, &[], &[0, 99, 1, 2, 3, 99]),
    (LATE_FIRST, &[], &[1, 99, 2, 99, 0, 99]),
    (APART, &[], &[0, 99, 1, 99]),
    (BRIDGED, &[], &[0, 1, 2, 99]),
    (FILLING, &[(4, 6)], &[0, 1, 99]),
];

#[test]
fn parts_are_cut_where_no_lifetime_goes_on_and_at_no_gap(rt: HostRuntime) {
    for &(rows, gaps, want) in &PARTS {
        assert!(rt; has_parts(rt.alloc(), rows, gaps, want), "{want:?}");
    }
}
