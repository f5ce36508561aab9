//! Worked cases, and each call that takes memory with ample memory.

use crate::made::{FIVE, ONE_THEN_THREE, Row, instance_of, is_list, with_gaps};
use dsa_model::{Instance, NoMemory};
use lifetime::Sections;
use load_profile::Profile;
use std::alloc::Global;

/// The moment of the instance's peak and its load, if it has a peak.
fn peak_of(alloc: Global, instance: &Instance) -> Result<Option<(u64, u64)>, NoMemory> {
    let sections = Sections::build(alloc, instance)?;
    Ok(Profile::build(alloc, instance, &sections)?.peak())
}

/// Whether this is the peak of the buffers, of which the first one has the gaps.
fn has_peak(alloc: Global, rows: &[Row], gaps: &[(u64, u64)], want: Option<(u64, u64)>) -> bool {
    match with_gaps(alloc, rows, 0, gaps) {
        Ok(instance) => peak_of(alloc, &instance) == Ok(want),
        Err(_) => false,
    }
}

/// Buffers, the gaps of the first one, and the moment of their peak with its load.
static PEAKS: [(&[Row], &[(u64, u64)], Option<(u64, u64)>); 4] = [
    (&[], &[], None),
    (FIVE, &[], Some((0, 12))),
    (ONE_THEN_THREE, &[], Some((2, 4))),
    (&[(0, 10, 4, 1), (4, 7, 4, 1)], &[(4, 6)], Some((6, 8))),
];

#[test]
fn the_peak_is_the_first_moment_of_greatest_load(rt: HostRuntime) {
    for &(rows, gaps, want) in &PEAKS {
        assert!(rt; has_peak(rt.alloc(), rows, gaps, want), "{want:?}");
    }
}

/// The load of each section of the instance.
fn loads_of(alloc: Global, instance: &Instance) -> Option<Vec<u64>> {
    let sections = Sections::build(alloc, instance).ok()?;
    let profile = Profile::build(alloc, instance, &sections).ok()?;
    let mut loads = Vec::new(alloc);
    for s in 0..sections.count() {
        loads.push(profile.load(s)).ok()?;
    }
    Some(loads)
}

#[test]
fn the_load_of_a_section_is_the_sum_of_its_sizes(rt: HostRuntime) {
    let five = instance_of(rt.alloc(), FIVE).expect(&rt, "memory");
    assert!(rt; is_list(loads_of(rt.alloc(), &five), &[12, 12, 8]));
}
