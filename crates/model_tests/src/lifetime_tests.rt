//! Worked cases, and each call that takes memory with ample memory.

ghost use Rattle.std.specs.Prelude.{◌<◌, length};

use crate::made::{FIVE, Row, add, instance_of, is_list, with_gaps};
use dsa_model::{BufferFault, Fail, Instance};
use lifetime::Sections;
use std::alloc::{AllocError, Global};

/// The start and the members of each section, with 99 behind each section.
fn listed(alloc: Global, sections: &Sections) -> Result<Vec<u64>, AllocError> {
    let mut found = Vec::new(alloc);
    for s in 0..sections.count() {
        found.push(sections.start(s))?;
        for b in sections.members(s) {
            found.push(*b as u64)?;
        }
        found.push(99)?;
    }
    Ok(found)
}

/// The sections of the instance as `listed` has them.
fn sections_listed(alloc: Global, instance: &Instance) -> Option<Vec<u64>> {
    match Sections::build(alloc, instance) {
        Ok(sections) => listed(alloc, &sections).ok(),
        Err(_) => None,
    }
}

/// Whether these are the sections of the buffers, of which the first one has the gaps.
fn has_sections(alloc: Global, rows: &[Row], gaps: &[(u64, u64)], want: &[u64]) -> bool {
    match with_gaps(alloc, rows, 0, gaps) {
        Ok(instance) => is_list(sections_listed(alloc, &instance), want),
        Err(_) => false,
    }
}

/// Buffers, the gaps of the first one, and their sections as `listed` has them.
static SECTIONS: [(&[Row], &[(u64, u64)], &[u64]); 6] = [
    (&[], &[], &[]),
    (FIVE, &[], &[0, 0, 2, 4, 99, 3, 1, 2, 4, 99, 9, 3, 4, 99]),
    (
        &[(0, 10, 4, 1), (4, 6, 4, 1)],
        &[(4, 6)],
        &[0, 0, 99, 4, 1, 99, 6, 0, 99],
    ),
    (&[(0, 10, 4, 1), (4, 7, 4, 1)], &[(4, 6)], &[6, 0, 1, 99]),
    (&[(0, 10, 4, 1), (0, 10, 4, 1)], &[(4, 6)], &[0, 0, 1, 99]),
    (&[(1, 9, 1, 1)], &[(2, 5), (3, 6)], &[1, 0, 99]),
];

#[test]
fn a_section_within_a_neighbour_is_left_out(rt: HostRuntime) {
    for &(rows, gaps, want) in &SECTIONS {
        assert!(rt; has_sections(rt.alloc(), rows, gaps, want), "{want:?}");
    }
}

/// Eight buffers with a gap each, from a made sequence of numbers.
fn made_instance(alloc: Global, start: u64) -> Result<Instance, Fail<BufferFault>> {
    let mut instance = Instance::new(alloc);
    let mut seed = start;
    for _b in 0..8 {
        seed = seed
            .wrapping_mul(6364136223846793005)
            .wrapping_add(1442695040888963407);
        let lower = (seed >> 30) % 16;
        let from = lower + (seed >> 36) % 6;
        let to = from + 1 + (seed >> 42) % 4;
        let upper = to + 1 + (seed >> 48) % 6;
        let row = (lower as u32, upper as u32, 1, 1);
        add(alloc, &mut instance, row, &[(from, to)], 0)?;
    }
    Ok(instance)
}

/// Those of the first eight buffers that are live at a moment, as bits.
fn live_bits(instance: &Instance, moment: u64) -> u32 {
    let mut bits = 0;
    for b in 0..8 {
        if b < instance.len() && instance.buffer(b).live_at(moment) {
            bits |= 1 << b;
        }
    }
    bits
}

/// The start and the buffers of each run up to moment 32, found moment by moment.
fn runs_by_moment(alloc: Global, instance: &Instance) -> Result<Vec<(u64, u32)>, AllocError> {
    let mut runs = Vec::new(alloc);
    let mut before = 0;
    for start in 0..32 {
        let bits = live_bits(instance, start);
        if bits != 0 && bits != before {
            runs.push((start, bits))?;
        }
        before = bits;
    }
    Ok(runs)
}

/// Whether section s has no member that a neighbour lacks, the earlier of equals aside.
fn says_less(sections: &[(u64, u32)], s: usize) -> bool
    requires { s < length sections.now }
{
    let own = sections[s].1;
    if s > 0 && own & !sections[s - 1].1 == 0 {
        return true;
    }
    s + 1 < sections.len() && own != sections[s + 1].1 && own & !sections[s + 1].1 == 0
}

/// The sections without those that say less than a neighbour, taken out one by one.
fn thinned_one_by_one(mut sections: Vec<(u64, u32)>) -> Vec<(u64, u32)> {
    for _round in 0..sections.len() {
        for s in 0..sections.len() {
            if s < sections.len() && says_less(&sections, s) {
                sections.remove(s);
            }
        }
    }
    sections
}

/// The start and the members of each of these, with 99 behind each.
fn listed_bits(alloc: Global, sections: &[(u64, u32)]) -> Result<Vec<u64>, AllocError> {
    let mut found = Vec::new(alloc);
    for &(start, bits) in sections {
        found.push(start)?;
        for b in 0..8 {
            if (bits >> b) & 1 == 1 {
                found.push(b)?;
            }
        }
        found.push(99)?;
    }
    Ok(found)
}

/// The sections that are left of the runs of the instance, of which some are taken out.
fn thinned_listed(alloc: Global, instance: &Instance) -> Option<Vec<u64>> {
    let runs = runs_by_moment(alloc, instance).ok()?;
    let count = runs.len();
    let thinned = thinned_one_by_one(runs);
    if thinned.len() == count {
        return None;
    }
    listed_bits(alloc, &thinned).ok()
}

/// Whether the sections of the instance are those that are left of its runs.
fn has_thinned(alloc: Global, instance: &Instance) -> bool {
    match thinned_listed(alloc, instance) {
        Some(want) => is_list(sections_listed(alloc, instance), &want),
        None => false,
    }
}

/// The same of a made instance.
fn has_thinned_runs(alloc: Global, start: u64) -> bool {
    match made_instance(alloc, start) {
        Ok(instance) => has_thinned(alloc, &instance),
        Err(_) => false,
    }
}

#[test]
fn the_order_of_leaving_out_makes_no_difference(rt: HostRuntime) {
    for start in 0..20 {
        assert!(rt; has_thinned_runs(rt.alloc(), start), "from {start}");
    }
}

/// The sections of each buffer of the instance, with 99 behind those of each.
fn listed_by_buffer(alloc: Global, instance: &Instance) -> Option<Vec<u64>> {
    let sections = Sections::build(alloc, instance).ok()?;
    let mut found = Vec::new(alloc);
    for b in 0..instance.len() {
        for s in sections.sections_of(b) {
            found.push(*s as u64).ok()?;
        }
        found.push(99).ok()?;
    }
    Some(found)
}

/// The sections of each of the five buffers.
static OF_FIVE: [u64; 13] = [0, 99, 1, 99, 0, 1, 99, 2, 99, 0, 1, 2, 99];

#[test]
fn the_sections_of_a_buffer_are_those_that_have_it(rt: HostRuntime) {
    let five = instance_of(rt.alloc(), FIVE).expect(&rt, "memory");
    assert!(rt; is_list(listed_by_buffer(rt.alloc(), &five), &OF_FIVE));
}
