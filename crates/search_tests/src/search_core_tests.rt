//! Worked instances at chosen capacities.

use crate::instances::{Row, THREE, TWO, add_row, instance_above, instance_of};
use crate::searches::searched;
use dsa_model::{BufferFault, Fail, Instance, NoMemory};
use refute_log::{ClosedLog, Decided};
use search_core::Budget;
use std::alloc::Global;

/// The buffers of `THREE` after one that is a part of its own.
const LATE: &[Row] = &[(0, 2, 1, 1), (2, 3, 1, 2), (2, 3, 1, 2), (2, 3, 2, 1)];

/// Buffers with the least offsets that they may have, and their first layout at a capacity.
struct Case {
    rows: &'static [Row],
    /// One for each buffer, or none where each is 0.
    lowest: &'static [u64],
    capacity: u32,
    offsets: &'static [u64],
}

static LAID: [Case; 6] = [
    Case {
        rows: &[],
        lowest: &[],
        capacity: 0,
        offsets: &[],
    },
    Case {
        rows: THREE,
        lowest: &[],
        capacity: 5,
        offsets: &[0, 4, 1],
    },
    Case {
        rows: LATE,
        lowest: &[],
        capacity: 5,
        offsets: &[0, 0, 4, 1],
    },
    Case {
        rows: TWO,
        lowest: &[],
        capacity: 4,
        offsets: &[1, 0],
    },
    // one that may start at 1 or above stands best on one that may start at 0
    Case {
        rows: &[(0, 1, 3, 1), (0, 1, 2, 1)],
        lowest: &[1, 0],
        capacity: 5,
        offsets: &[2, 0],
    },
    // one that may start at 6 or above leaves room below it
    Case {
        rows: &[(0, 1, 4, 1), (0, 1, 4, 1)],
        lowest: &[6, 0],
        capacity: 10,
        offsets: &[6, 0],
    },
];

/// Whether the answer is a layout of these offsets.
fn is_layout(answer: Result<Decided, NoMemory>, offsets: &[u64]) -> bool {
    match answer {
        Ok(Decided::Layout(found)) => found.as_slice() == offsets,
        _ => false,
    }
}

/// Whether the first layout of the case is found.
fn is_laid(alloc: Global, case: &Case) -> bool {
    match instance_above(alloc, case.rows, case.lowest) {
        Ok(instance) => {
            let answer = searched(alloc, &instance, case.capacity, Budget::unlimited());
            is_layout(answer, case.offsets)
        }
        Err(_) => false,
    }
}

#[test]
fn the_first_layout_of_each_part_is_found(rt: HostRuntime) {
    for (place, case) in LAID.iter().enumerate() {
        assert!(rt; is_laid(rt.alloc(), case), "another answer at {place}");
    }
}

/// Whether a line of the log has the buffer.
fn names(log: &ClosedLog, b: u32) -> bool {
    for k in 0..log.len() {
        if log.line(k).claim().bound(b).is_some() {
            return true;
        }
    }
    false
}

/// Whether the log is one at 4 of at most five lines, which name the second and the third buffer,
/// and the first one just where it is of the same part.
fn is_of_one_part(log: &ClosedLog, has_first: bool) -> bool {
    log.capacity() == 4
        && log.len() <= 5
        && names(log, 0) == has_first
        && names(log, 1)
        && names(log, 2)
}

/// Whether the answer is such a log.
fn is_refuted(answer: Result<Decided, NoMemory>, has_first: bool) -> bool {
    match answer {
        Ok(Decided::Refuted(log)) => is_of_one_part(&log, has_first),
        _ => false,
    }
}

#[test]
fn a_refutation_names_buffers_of_one_part(rt: HostRuntime) {
    let three = instance_of(rt.alloc(), THREE).expect(&rt, "memory");
    let late = instance_of(rt.alloc(), LATE).expect(&rt, "memory");
    assert!(rt; is_refuted(searched(rt.alloc(), &three, 4, Budget::unlimited()), true));
    assert!(rt; is_refuted(searched(rt.alloc(), &late, 4, Budget::unlimited()), false));
}

/// How many buffers the tower has.
const STOREYS: u32 = 512;

/// Many buffers of size 1, all live at one moment.
fn tower(alloc: Global) -> Result<Instance, Fail<BufferFault>> {
    let mut instance = Instance::new(alloc);
    for _ in 0..STOREYS {
        add_row(alloc, &mut instance, (0, 1, 1, 1), 0)?;
    }
    Ok(instance)
}

/// Whether each of the buffers stands on the one before it.
fn is_tower(offsets: &[u64]) -> bool {
    for (b, offset) in offsets.iter().enumerate() {
        if *offset != b as u64 {
            return false;
        }
    }
    offsets.len() == STOREYS as usize
}

/// Whether the answer is a layout in which it is so.
fn stands(answer: Result<Decided, NoMemory>) -> bool {
    match answer {
        Ok(Decided::Layout(found)) => is_tower(&found),
        _ => false,
    }
}

#[test]
fn many_buffers_stand_one_on_another(rt: HostRuntime) {
    let tower = tower(rt.alloc()).expect(&rt, "memory");
    assert!(rt; stands(searched(rt.alloc(), &tower, STOREYS, Budget::unlimited())));
}

/// Whether so many units are enough at 4.
fn suffice(alloc: Global, instance: &Instance, units: u64) -> Result<bool, NoMemory> {
    match searched(alloc, instance, 4, Budget::units(units))? {
        Decided::Spent => Ok(false),
        _ => Ok(true),
    }
}

#[test]
fn a_budget_of_the_work_is_enough_and_one_unit_less_is_not(rt: HostRuntime) {
    let two = instance_of(rt.alloc(), TWO).expect(&rt, "memory");
    assert!(rt; suffice(rt.alloc(), &two, 0) == Ok(false));
    assert!(rt; suffice(rt.alloc(), &two, 3) == Ok(false));
    assert!(rt; suffice(rt.alloc(), &two, 4) == Ok(true));
}

/// Six claims are met, and a line that was learned before covers the last of them.
#[test]
fn a_claim_that_a_line_covers_takes_no_unit(rt: HostRuntime) {
    let three = instance_of(rt.alloc(), THREE).expect(&rt, "memory");
    assert!(rt; suffice(rt.alloc(), &three, 4) == Ok(false));
    assert!(rt; suffice(rt.alloc(), &three, 5) == Ok(true));
}
