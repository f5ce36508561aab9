//! What is wrong with the text of a log.

use thiserror::Error;

/// What is wrong with bytes that are no log's text; of several faults the one that is met first
/// when the text is read from the front. Lines have numbers from 0 after the header, and the end
/// has one too. On one line `BadLine` comes before `NumberTooLarge`, then `NotRising`, `BadBase`,
/// `BadChange` and `AfterEnd`.
#[derive(Clone, Copy, Debug, PartialEq, Eq, Error)]
pub enum TextFault {
    /// There is no header, or its version is above 2^64 - 1, or its count or its capacity above
    /// 2^60. It comes before BadVersion.
    #[error("the text is no log")]
    NotLog,
    /// The header is of another version than 1 and 2.
    #[error("the log is of version {version}")]
    BadVersion { version: u64 },
    /// The bytes up to the next newline have the form of no line and of no end, or no newline
    /// follows.
    #[error("line {line} has no line's form")]
    BadLine { line: u64 },
    /// A moment is above 2^62 - 1, or another number above 2^60.
    #[error("line {line} has a number above its limit")]
    NumberTooLarge { line: u64 },
    /// A buffer of a claim, of a list of changes or of a list of cites is not above the one before
    /// it.
    #[error("line {line} has a list that does not rise")]
    NotRising { line: u64 },
    /// A difference is of the claim of a line that is not earlier.
    #[error("line {line} is a difference from no earlier line")]
    BadBase { line: u64 },
    /// A difference drops a buffer that the claim has not, or gives one the bound that it has
    /// there, or leaves no buffer.
    #[error("line {line} has a change that changes nothing, or no buffer")]
    BadChange { line: u64 },
    /// The bytes stop where a line or the end would begin.
    #[error("the log has no end")]
    NoEnd,
    /// Bytes follow the end.
    #[error("bytes follow the end")]
    AfterEnd,
}
