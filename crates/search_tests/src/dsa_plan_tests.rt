//! The planner over arrays, of a few buffers.

use dsa_model::BufferFault;
use dsa_plan::{Answer, Arrays, LeastAnswer, NumbersFault, pack, plan_at, plan_least};
use std::alloc::Global;

/// The offsets before a call.
const BEFORE: [u64; 2] = [77, 77];

/// Two buffers that live at one moment.
static LOWER: [u64; 2] = [0, 0];

static UPPER: [u64; 2] = [1, 1];

/// A large one, and a small one at multiples of four, which is best put below it: no start has it
/// there.
static SIZE: [u64; 2] = [3, 1];

static ALIGNMENT: [u64; 2] = [1, 4];

static LOWEST: [u64; 2] = [0, 0];

/// What is answered of these sizes at the capacity within the steps, and the offsets.
type PlanAt = (&'static [u64], u64, Option<u64>, Answer, [u64; 2]);

static PLANS: [PlanAt; 5] = [
    (&[3, 1], 4, None, Answer::Fits, [1, 0]),
    (&[3, 1], 4, Some(0), Answer::Open, [77, 77]),
    (&[3, 1], 3, None, Answer::DoesNotFit, [77, 77]),
    (&[3], 4, None, Answer::LengthsDiffer, [77, 77]),
    (
        &[3, 0],
        4,
        None,
        Answer::BadBuffer {
            buffer: 1,
            fault: NumbersFault::Buffer(BufferFault::ZeroSize),
        },
        [77, 77],
    ),
];

/// Whether the sizes are answered so at the capacity within the steps, with these offsets.
fn is_answered(alloc: Global, case: &PlanAt) -> bool {
    let &(size, capacity, steps, answer, want) = case;
    let mut offsets = BEFORE;
    let told = plan_at(
        alloc,
        &LOWER,
        &UPPER,
        size,
        &ALIGNMENT,
        &LOWEST,
        capacity,
        steps,
        &mut offsets,
    );
    told == answer && offsets == want
}

#[test]
fn a_capacity_is_answered_or_a_fault_of_the_slices(rt: HostRuntime) {
    for (place, case) in PLANS.iter().enumerate() {
        assert!(rt; is_answered(rt.alloc(), case), "another answer at {place}");
    }
}

/// What is answered of the least capacity within the steps, and the offsets after it.
fn planned(alloc: Global, steps: u64) -> (LeastAnswer, [u64; 2]) {
    let mut offsets = BEFORE;
    let answer = plan_least(
        alloc,
        &LOWER,
        &UPPER,
        &SIZE,
        &ALIGNMENT,
        &LOWEST,
        Some(steps),
        &mut offsets,
    );
    (answer, offsets)
}

/// What is answered of the lowest layout within the steps, and the offsets after it.
fn packed(alloc: Global, steps: u64) -> (LeastAnswer, [u64; 2]) {
    let mut offsets = BEFORE;
    let answer = pack(
        alloc,
        &LOWER,
        &UPPER,
        &SIZE,
        &ALIGNMENT,
        &LOWEST,
        steps,
        &mut offsets,
    );
    (answer, offsets)
}

/// Steps, with what is answered of the least capacity and the offsets.
static LEASTS: [(u64, LeastAnswer, [u64; 2]); 2] = [
    (1000, LeastAnswer::Least { capacity: 4 }, [1, 0]),
    (0, LeastAnswer::Open { low: 4, high: 5 }, [0, 4]),
];

#[test]
fn the_least_capacity_is_found_or_stays_open(rt: HostRuntime) {
    for &(steps, answer, offsets) in &LEASTS {
        let want = (answer, offsets);
        assert!(rt; planned(rt.alloc(), steps) == want, "planned in {steps}");
        assert!(rt; packed(rt.alloc(), steps) == want, "packed in {steps}");
    }
}

/// Whether the buffers are answered so at 4, and have this least capacity with these offsets, as
/// they are planned and as they are packed.
fn are_answered(
    alloc: Global,
    arrays: &Arrays,
    answer: Answer,
    capacity: u64,
    want: [u64; 2],
) -> bool {
    let (mut within, mut least, mut low) = (BEFORE, BEFORE, BEFORE);
    let least_answer = LeastAnswer::Least { capacity };
    arrays.plan_at(alloc, 4, None, &mut within) == answer
        && arrays.plan_least(alloc, None, &mut least) == least_answer
        && arrays.pack(alloc, 0, &mut low) == least_answer
        && least == want
        && low == want
}

#[test]
fn a_gap_lets_two_buffers_share_an_offset(rt: HostRuntime) {
    let alloc = rt.alloc();
    let plain = Arrays::without_gaps(&[0, 4], &[10, 6], &[4, 4], &[1, 1], &[0, 0]);
    assert!(rt; are_answered(alloc, &plain, Answer::DoesNotFit, 8, [0, 4]));
    let gapped = plain.with_gaps(&[(4, 6)], &[1, 0]);
    assert!(rt; are_answered(alloc, &gapped, Answer::Fits, 4, [0, 0]));
}
