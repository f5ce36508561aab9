//! What is answered of a capacity, and of the least capacity.

use crate::fault::{ArraysFault, NumbersFault};
use dsa_model::Fail;

/// What is answered of a capacity.
#[derive(Clone, Copy, Debug, PartialEq, Eq)]
pub enum Answer {
    /// The offsets are a layout within the capacity: the plan.
    Fits,
    /// No layout fits within the capacity.
    DoesNotFit,
    /// The steps are used up before either is known.
    Open,
    /// The slices are not as long as the offsets, or the counts of gaps do not add up to the number
    /// of gaps.
    LengthsDiffer,
    /// There are more than `dsa_model::BUFFER_LIMIT` buffers.
    TooMany,
    /// This buffer, the first with a fault, has this fault, its first.
    BadBuffer { buffer: u32, fault: NumbersFault },
    /// Memory has run out. No contract says when it does.
    NoMemory,
}

/// What is answered of the least capacity.
#[derive(Clone, Copy, Debug, PartialEq, Eq)]
pub enum LeastAnswer {
    /// This is the least capacity, in bytes, and the offsets are a layout of that height.
    Least { capacity: u64 },
    /// The steps are used up. No layout fits within less than `low` bytes, and the offsets are a
    /// layout of height `high`.
    Open { low: u64, high: u64 },
    /// The slices are not as long as the offsets, or the counts of gaps do not add up to the number
    /// of gaps.
    LengthsDiffer,
    /// There are more than `dsa_model::BUFFER_LIMIT` buffers.
    TooMany,
    /// This buffer, the first with a fault, has this fault, its first.
    BadBuffer { buffer: u32, fault: NumbersFault },
    /// Memory has run out. No contract says when it does.
    NoMemory,
}

impl From<Fail<ArraysFault>> for Answer {
    ghost use Rattle.std.specs.Prelude.{◌≡◌};
    ghost use Rattle.dsa_plan.specs.Answers.{plan_failed};

    ghost from_gives = { λ failure answer. answer ≡ plan_failed failure };

    fn from(failure: Fail<ArraysFault>) -> Self {
        match failure {
            Fail::Fault(ArraysFault::LengthsDiffer) => Answer::LengthsDiffer,
            Fail::Fault(ArraysFault::TooMany) => Answer::TooMany,
            Fail::Fault(ArraysFault::BadBuffer { buffer, fault }) => {
                Answer::BadBuffer { buffer, fault }
            }
            Fail::NoMemory => Answer::NoMemory,
        }
    }
}

impl From<Fail<ArraysFault>> for LeastAnswer {
    ghost use Rattle.std.specs.Prelude.{◌≡◌};
    ghost use Rattle.dsa_plan.specs.Answers.{least_failed};

    ghost from_gives = { λ failure answer. answer ≡ least_failed failure };

    fn from(failure: Fail<ArraysFault>) -> Self {
        match failure {
            Fail::Fault(ArraysFault::LengthsDiffer) => LeastAnswer::LengthsDiffer,
            Fail::Fault(ArraysFault::TooMany) => LeastAnswer::TooMany,
            Fail::Fault(ArraysFault::BadBuffer { buffer, fault }) => {
                LeastAnswer::BadBuffer { buffer, fault }
            }
            Fail::NoMemory => LeastAnswer::NoMemory,
        }
    }
}
