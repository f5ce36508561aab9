//! Worked instances at chosen capacities, and their least capacities.

use crate::instances::{FIVE, FOURS, Row, THREE, TWO, instance_of};
use dsa_model::Instance;
use layout_report::Facts;
use min_capacity::{Bracket, Least};
use planner::{Decision, facts_of, least_capacity, plan};
use std::alloc::Global;

/// The buffers of `THREE`, four times as large.
const EIGHTS: &[Row] = &[(0, 1, 4, 8), (0, 1, 4, 8), (0, 1, 8, 1)];

/// One buffer, and then two at even offsets and a third one of their sizes together.
const PARTS: &[Row] = &[(0, 2, 1, 1), (2, 3, 1, 2), (2, 3, 1, 2), (2, 3, 2, 1)];

/// What is wanted of a capacity.
#[derive(Clone, Copy)]
enum Want {
    Offsets(&'static [u64]),
    OneLine,
    MoreLines,
    Open(Ends),
}

/// The ends of a bracket, and the offsets of its layout.
type Ends = (u64, u64, &'static [u64]);

/// Whether the bracket has these ends and offsets, and a log exactly where the lower end is not 0,
/// at the capacity below it.
fn has_ends(bracket: &Bracket, ends: Ends) -> bool {
    let (low, high, offsets) = ends;
    let refuted = match &bracket.log {
        Some(log) => Some(log.capacity()),
        None => None,
    };
    bracket.low == low
        && bracket.high == high
        && bracket.layout.as_slice() == offsets
        && refuted == low.checked_sub(1)
}

/// Whether the decision at the capacity is the one that is wanted.
fn is_wanted(decision: &Decision, capacity: u32, want: Want) -> bool {
    match (decision, want) {
        (Decision::Layout(found), Want::Offsets(offsets)) => found.as_slice() == offsets,
        (Decision::Refuted(log), Want::OneLine) => {
            log.capacity() == capacity as u64 && log.len() == 1
        }
        (Decision::Refuted(log), Want::MoreLines) => {
            log.capacity() == capacity as u64 && log.len() > 1
        }
        (Decision::Open(bracket), Want::Open(ends)) => has_ends(bracket, ends),
        _ => false,
    }
}

/// Whether the plan of the instance at the capacity within the steps is the one that is wanted.
fn has_plan(
    alloc: Global,
    instance: &Instance,
    capacity: u32,
    steps: Option<u64>,
    want: Want,
) -> bool {
    match plan(alloc, instance, capacity as u64, steps) {
        Ok(decision) => is_wanted(&decision, capacity, want),
        Err(_) => false,
    }
}

/// The same of the buffers.
fn is_planned(alloc: Global, rows: &[Row], capacity: u32, steps: Option<u64>, want: Want) -> bool {
    match instance_of(alloc, rows) {
        Ok(instance) => has_plan(alloc, &instance, capacity, steps, want),
        Err(_) => false,
    }
}

/// Buffers with a capacity, the steps of a search and what is wanted.
static PLANS: [(&[Row], u32, Option<u64>, Want); 14] = [
    (FIVE, 12, None, Want::Offsets(&[0, 0, 4, 0, 8])),
    (FIVE, 11, None, Want::OneLine),
    (FOURS, 7, None, Want::Offsets(&[0, 4])),
    (FOURS, 6, None, Want::OneLine),
    (THREE, 5, None, Want::Offsets(&[2, 4, 0])),
    (THREE, 4, None, Want::MoreLines),
    (TWO, 5, None, Want::Offsets(&[0, 4])),
    (TWO, 4, None, Want::Offsets(&[1, 0])),
    (TWO, 3, None, Want::OneLine),
    (&[], 0, None, Want::Offsets(&[])),
    (TWO, 4, Some(4), Want::Offsets(&[1, 0])),
    (TWO, 4, Some(0), Want::Open((4, 5, &[0, 4]))),
    (TWO, 5, Some(0), Want::Offsets(&[0, 4])),
    (TWO, 3, Some(0), Want::OneLine),
];

/// A capacity that needs a search is open without steps.
#[test]
fn a_capacity_has_a_start_or_the_layout_of_the_search_or_a_log(rt: HostRuntime) {
    for (place, &(rows, capacity, steps, want)) in PLANS.iter().enumerate() {
        let planned = is_planned(rt.alloc(), rows, capacity, steps, want);
        assert!(rt; planned, "another plan at {place}");
    }
}

/// Buffers with the steps of a search, and the bracket that it leaves.
static LEASTS: [(&[Row], Option<u64>, Ends); 11] = [
    (FIVE, None, (12, 12, &[0, 0, 4, 0, 8])),
    (THREE, None, (5, 5, &[2, 4, 0])),
    (THREE, Some(6), (5, 5, &[2, 4, 0])),
    (THREE, Some(5), (5, 5, &[2, 4, 0])),
    (THREE, Some(0), (4, 5, &[2, 4, 0])),
    (TWO, None, (4, 4, &[1, 0])),
    (FOURS, None, (7, 7, &[0, 4])),
    (&[], None, (0, 0, &[])),
    (EIGHTS, None, (20, 20, &[8, 16, 0])),
    (EIGHTS, Some(0), (16, 20, &[8, 16, 0])),
    (EIGHTS, Some(8), (19, 20, &[8, 16, 0])),
];

/// Whether the least capacity has a bracket with these ends, and is told to be open exactly where
/// they differ.
fn is_bracketed(found: &Least, ends: Ends) -> bool {
    match found {
        Least::Exact(bracket) => ends.0 == ends.1 && has_ends(bracket, ends),
        Least::Open(bracket) => ends.0 != ends.1 && has_ends(bracket, ends),
    }
}

/// Whether that of the instance within the steps is so.
fn has_least(alloc: Global, instance: &Instance, steps: Option<u64>, ends: Ends) -> bool {
    match least_capacity(alloc, instance, steps) {
        Ok(found) => is_bracketed(&found, ends),
        Err(_) => false,
    }
}

/// The same of the buffers.
fn is_found(alloc: Global, rows: &[Row], steps: Option<u64>, ends: Ends) -> bool {
    match instance_of(alloc, rows) {
        Ok(instance) => has_least(alloc, &instance, steps, ends),
        Err(_) => false,
    }
}

#[test]
fn the_least_capacity_is_found_or_stays_open(rt: HostRuntime) {
    for (place, &(rows, steps, ends)) in LEASTS.iter().enumerate() {
        let found = is_found(rt.alloc(), rows, steps, ends);
        assert!(rt; found, "another least capacity at {place}");
    }
}

static FACTS: [(&[Row], Facts); 2] = [
    (
        PARTS,
        Facts {
            buffers: 4,
            peak: Some((2, 4)),
            parts: 2,
            bound: 4,
            modulus: 1,
            best: 5,
        },
    ),
    (
        &[],
        Facts {
            buffers: 0,
            peak: None,
            parts: 0,
            bound: 0,
            modulus: 1,
            best: 0,
        },
    ),
];

/// Whether these are the facts of the buffers.
fn has_facts(alloc: Global, rows: &[Row], want: Facts) -> bool {
    match instance_of(alloc, rows) {
        Ok(instance) => facts_of(alloc, &instance) == Ok(want),
        Err(_) => false,
    }
}

#[test]
fn the_facts_of_two_parts_and_of_no_buffers_are_told(rt: HostRuntime) {
    for &(rows, facts) in &FACTS {
        assert!(rt; has_facts(rt.alloc(), rows, facts), "{facts:?}");
    }
}
