//! Statuses and details.

ghost use Rattle.std.specs.Prelude.{◌≡◌};
ghost use Rattle.dsaplan_c.specs.Told.{bad_buffer, ends, fault_number, faulty, gap_number};
ghost use Rattle.dsaplan_c.specs.Told.{least_detail, least_status, plan_detail, plan_status};

use crate::detail::Detail;
use dsa_model::BufferFault;
use dsa_plan::{Answer, LeastAnswer, NumbersFault};

/// Nothing is told.
const NOTHING: Detail = Detail {
    low: 0,
    high: 0,
    buffer: 0,
    fault: 0,
    gap: 0,
};

/// The number of a fault of a buffer.
fn fault_number(fault: BufferFault) -> u32
    ensures { result ≡ fault_number fault }
{
    match fault {
        BufferFault::EmptyLifetime => 3,
        BufferFault::ZeroSize => 4,
        BufferFault::TooLarge => 5,
        BufferFault::ZeroAlignment => 6,
        BufferFault::AlignmentTooLarge => 7,
        BufferFault::GapEmpty { gap: _ } => 8,
        BufferFault::GapOutside { gap: _ } => 9,
        BufferFault::TooManyGaps => 10,
        BufferFault::NeverLive => 11,
        BufferFault::LowestTooLarge => 12,
    }
}

/// The gap that has the fault, and 0 where no gap has.
fn gap_number(fault: BufferFault) -> u32
    ensures { result ≡ gap_number fault }
{
    match fault {
        BufferFault::GapEmpty { gap } => gap,
        BufferFault::GapOutside { gap } => gap,
        _ => 0,
    }
}

/// What is told of a fault.
fn faulty(buffer: u32, fault: u32, gap: u32) -> Detail
    ensures { result ≡ faulty buffer fault gap }
{
    Detail {
        low: 0,
        high: 0,
        buffer,
        fault,
        gap,
    }
}

/// What is told of a bad buffer.
fn bad_buffer(buffer: u32, fault: NumbersFault) -> Detail
    ensures { result ≡ bad_buffer buffer fault }
{
    match fault {
        NumbersFault::TimeTooLarge => faulty(buffer, 2, 0),
        NumbersFault::Buffer(fault) => faulty(buffer, fault_number(fault), gap_number(fault)),
    }
}

/// The two ends of the least capacity.
fn ends(low: u64, high: u64) -> Detail
    ensures { result ≡ ends low high }
{
    Detail {
        low,
        high,
        buffer: 0,
        fault: 0,
        gap: 0,
    }
}

/// The status of an answer on a capacity.
pub(crate) fn plan_status(answer: Answer) -> u32
    ensures { result ≡ plan_status answer }
{
    match answer {
        Answer::Fits => 0,
        Answer::DoesNotFit => 1,
        Answer::Open => 2,
        Answer::LengthsDiffer => 3,
        Answer::TooMany | Answer::BadBuffer { .. } => 4,
        Answer::NoMemory => 6,
    }
}

/// What is told beside it.
pub(crate) fn plan_detail(answer: Answer) -> Detail
    ensures { result ≡ plan_detail answer }
{
    match answer {
        Answer::TooMany => faulty(0, 1, 0),
        Answer::BadBuffer { buffer, fault } => bad_buffer(buffer, fault),
        _ => NOTHING,
    }
}

/// The status of an answer on the least capacity.
pub(crate) fn least_status(answer: LeastAnswer) -> u32
    ensures { result ≡ least_status answer }
{
    match answer {
        LeastAnswer::Least { .. } => 0,
        LeastAnswer::Open { .. } => 2,
        LeastAnswer::LengthsDiffer => 3,
        LeastAnswer::TooMany | LeastAnswer::BadBuffer { .. } => 4,
        LeastAnswer::NoMemory => 6,
    }
}

/// What is told beside it.
pub(crate) fn least_detail(answer: LeastAnswer) -> Detail
    ensures { result ≡ least_detail answer }
{
    match answer {
        LeastAnswer::Least { capacity } => ends(capacity, capacity),
        LeastAnswer::Open { low, high } => ends(low, high),
        LeastAnswer::TooMany => faulty(0, 1, 0),
        LeastAnswer::BadBuffer { buffer, fault } => bad_buffer(buffer, fault),
        _ => NOTHING,
    }
}
