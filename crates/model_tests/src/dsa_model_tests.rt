//! Worked cases, and each call that takes memory with ample memory.

use crate::made::{Row, add, with_gaps};
use dsa_model::{Buffer, BufferFault, Fail, Instance, LayoutFault, height, judge};
use std::alloc::Global;

/// The numbers of a buffer, or of none.
#[derive(Clone, Copy)]
struct Numbers {
    lower: u32,
    upper: u32,
    size: u64,
    alignment: u64,
    gaps: &'static [(u64, u64)],
    lowest: u64,
}

/// Why these numbers are no buffer, where they are none.
fn refusal(alloc: Global, numbers: &Numbers) -> Option<Fail<BufferFault>> {
    if numbers.gaps.len() > 65 {
        return Some(Fail::NoMemory);
    }
    let (lower, upper) = (numbers.lower as u64, numbers.upper as u64);
    let (size, alignment) = (numbers.size, numbers.alignment);
    Buffer::new(
        alloc,
        lower,
        upper,
        size,
        alignment,
        numbers.gaps,
        numbers.lowest,
    )
    .err()
}

/// The numbers of a buffer.
const PLAIN: Numbers = Numbers {
    lower: 0,
    upper: 1,
    size: 4,
    alignment: 1,
    gaps: &[],
    lowest: 0,
};

/// Numbers, each with the first fault of them as a buffer.
static REFUSED: [(Numbers, BufferFault); 10] = [
    (
        Numbers {
            lower: 1,
            upper: 1,
            size: 0,
            alignment: 0,
            ..PLAIN
        },
        BufferFault::EmptyLifetime,
    ),
    (
        Numbers {
            size: 0,
            alignment: 0,
            ..PLAIN
        },
        BufferFault::ZeroSize,
    ),
    (
        Numbers {
            size: 1099511627777,
            alignment: 0,
            ..PLAIN
        },
        BufferFault::TooLarge,
    ),
    (
        Numbers {
            alignment: 0,
            gaps: &[(1, 1)],
            ..PLAIN
        },
        BufferFault::ZeroAlignment,
    ),
    (
        Numbers {
            alignment: 4294967297,
            ..PLAIN
        },
        BufferFault::AlignmentTooLarge,
    ),
    (
        Numbers {
            lower: 2,
            upper: 9,
            gaps: &[(1, 3), (5, 5)],
            ..PLAIN
        },
        BufferFault::GapEmpty { gap: 1 },
    ),
    (
        Numbers {
            lower: 2,
            upper: 9,
            gaps: &[(3, 4), (8, 10)],
            ..PLAIN
        },
        BufferFault::GapOutside { gap: 1 },
    ),
    (
        Numbers {
            gaps: &[(0, 1); 65],
            ..PLAIN
        },
        BufferFault::TooManyGaps,
    ),
    (
        Numbers {
            upper: 10,
            gaps: &[(0, 6), (4, 10)],
            ..PLAIN
        },
        BufferFault::NeverLive,
    ),
    (
        Numbers {
            lowest: 1099511627777,
            ..PLAIN
        },
        BufferFault::LowestTooLarge,
    ),
];

/// The greatest size, alignment and lowest offset.
static GREATEST: Numbers = Numbers {
    size: 1099511627776,
    alignment: 4294967296,
    lowest: 1099511627776,
    ..PLAIN
};

#[test]
fn the_first_fault_of_a_buffer_is_answered(rt: HostRuntime) {
    for (numbers, fault) in &REFUSED {
        let refused = refusal(rt.alloc(), numbers) == Some(Fail::Fault(*fault));
        assert!(rt; refused, "{fault:?}");
    }
    assert!(rt; refusal(rt.alloc(), &GREATEST).is_none());
}

/// That the first two buffers overlap from moment 4 on.
const OVERLAP_AT_4: LayoutFault = LayoutFault::Overlap {
    first: 0,
    second: 1,
    moment: 4,
};

/// That the first two buffers overlap from moment 6 on.
const OVERLAP_AT_6: LayoutFault = LayoutFault::Overlap {
    first: 0,
    second: 1,
    moment: 6,
};

/// A capacity with offsets of some buffers, and what is wrong with these.
type Judged = (u64, &'static [u64], Option<LayoutFault>);

/// Whether the offsets of each case are judged so.
fn are_judged(instance: &Instance, cases: &[Judged]) -> bool {
    for &(capacity, offsets, want) in cases {
        if judge(instance, capacity, offsets).err() != want {
            return false;
        }
    }
    true
}

/// The same of the buffers, of which the first one has the gaps.
fn are_judged_of(alloc: Global, rows: &[Row], gaps: &[(u64, u64)], cases: &[Judged]) -> bool {
    match with_gaps(alloc, rows, 0, gaps) {
        Ok(instance) => are_judged(&instance, cases),
        Err(_) => false,
    }
}

/// Two buffers that are live together at moment 4.
static CROSSED: [Row; 2] = [(0, 5, 4, 1), (4, 8, 4, 1)];

static CROSSED_OFFSETS: [Judged; 6] = [
    (10, &[0, 2], Some(OVERLAP_AT_4)),
    (8, &[0, 4], None),
    (7, &[0, 4], Some(LayoutFault::Above { buffer: 1 })),
    (
        u64::MAX,
        &[0, u64::MAX],
        Some(LayoutFault::Above { buffer: 1 }),
    ),
    (3, &[u64::MAX, 0], Some(LayoutFault::Above { buffer: 0 })),
    (7, &[0], Some(LayoutFault::WrongCount)),
];

#[test]
fn two_buffers_that_share_a_moment_must_be_apart(rt: HostRuntime) {
    assert!(rt; are_judged_of(rt.alloc(), &CROSSED, &[], &CROSSED_OFFSETS));
}

/// The second buffer is live in a gap of the first from 4 to 6.
static FILLING: [Row; 2] = [(0, 10, 4, 1), (4, 6, 4, 1)];

static FILLING_OFFSETS: [Judged; 1] = [(4, &[0, 0], None)];

/// The second buffer is still live after that gap.
static OVERRUNNING: [Row; 2] = [(0, 10, 4, 1), (4, 7, 4, 1)];

static OVERRUNNING_OFFSETS: [Judged; 2] = [(4, &[0, 0], Some(OVERLAP_AT_6)), (8, &[0, 4], None)];

#[test]
fn a_gap_lets_two_buffers_share_an_offset(rt: HostRuntime) {
    let gaps = [(4, 6)];
    assert!(rt; are_judged_of(rt.alloc(), &FILLING, &gaps, &FILLING_OFFSETS));
    assert!(rt; are_judged_of(rt.alloc(), &OVERRUNNING, &gaps, &OVERRUNNING_OFFSETS));
}

/// Two buffers at multiples of six.
static SIXES: [Row; 2] = [(0, 1, 3, 6), (0, 1, 3, 6)];

static SIXES_OFFSETS: [Judged; 2] = [
    (2, &[0, 4], Some(LayoutFault::Unaligned { buffer: 1 })),
    (9, &[6, 0], None),
];

#[test]
fn an_alignment_is_kept(rt: HostRuntime) {
    assert!(rt; are_judged_of(rt.alloc(), &SIXES, &[], &SIXES_OFFSETS));
}

/// A buffer of size 4 whose offset is a multiple of 4 and at least 6, and one that may be anywhere.
fn with_lowest(alloc: Global) -> Result<Instance, Fail<BufferFault>> {
    let mut instance = Instance::new(alloc);
    add(alloc, &mut instance, (0, 1, 4, 4), &[], 6)?;
    add(alloc, &mut instance, (0, 1, 4, 1), &[], 0)?;
    Ok(instance)
}

static LOWEST_OFFSETS: [Judged; 4] = [
    (12, &[8, 0], None),
    (11, &[8, 0], Some(LayoutFault::Above { buffer: 0 })),
    (7, &[4, 8], Some(LayoutFault::TooLow { buffer: 0 })),
    (12, &[6, 0], Some(LayoutFault::Unaligned { buffer: 0 })),
];

#[test]
fn a_buffer_stands_at_or_above_its_lowest(rt: HostRuntime) {
    let both = with_lowest(rt.alloc()).expect(&rt, "memory");
    assert!(rt; are_judged(&both, &LOWEST_OFFSETS));
}

/// How high the second, the first and again the second of two buffers are at 0 and twice at 6.
fn height_of_some(alloc: Global, both: &Instance) -> Option<u64> {
    if both.len() != 2 {
        return None;
    }
    let some = both.some_of(alloc, &[1, 0, 1]).ok()?;
    if some.len() != 3 {
        return None;
    }
    Some(height(&some, &[0, 6, 6]))
}

/// Two buffers, of sizes 4 and 6.
static BOTH: [Row; 2] = [(0, 5, 4, 1), (5, 8, 6, 2)];

#[test]
fn some_buffers_are_an_instance_of_their_own(rt: HostRuntime) {
    let both = with_gaps(rt.alloc(), &BOTH, 0, &[(1, 2)]).expect(&rt, "memory");
    assert!(rt; height_of_some(rt.alloc(), &both) == Some(12));
}
