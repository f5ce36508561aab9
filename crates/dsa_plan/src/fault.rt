//! What is wrong with arrays that tell of no instance.

ghost use Rattle.std.specs.Prelude.{◌≡◌, ◌<◌, ◌^◌};

use dsa_model::BufferFault;

/// What is wrong with the numbers of a buffer, in order of precedence.
#[derive(Clone, Copy, Debug, PartialEq, Eq)]
pub enum NumbersFault {
    /// The lifetime begins or ends after `dsa_model::TIME_LIMIT`.
    TimeTooLarge,
    /// The first fault of the buffer that the numbers would make.
    Buffer(BufferFault),
}

/// What is wrong with arrays, in order of precedence.
#[derive(Clone, Copy, Debug, PartialEq, Eq)]
pub enum ArraysFault {
    /// An array is longer or shorter than the offsets are, or the counts of gaps do not add up to
    /// the number of gaps.
    LengthsDiffer,
    /// There are more than `dsa_model::BUFFER_LIMIT` buffers.
    TooMany,
    /// This buffer, the first such one, has this fault.
    BadBuffer { buffer: u32, fault: NumbersFault },
}
