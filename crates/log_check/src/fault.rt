//! What is wrong with a log.

use refute_log::Reason;

/// Why a log is not accepted for an instance, in order of precedence.
#[derive(Clone, Copy, Debug, PartialEq, Eq)]
pub enum CheckFault {
    /// The log says another count of buffers than the instance has.
    WrongCount { said: u64, actual: u32 },
    /// The least line that is not legal after those before it, with its first reason.
    Illegal { line: u64, reason: Reason },
    /// The end names no line.
    EndRange { end: u64 },
    /// The end names a line in which this buffer, the least such, has a bound above its floor.
    EndNotWhole { end: u64, buffer: u32 },
}
