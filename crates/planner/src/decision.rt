//! What is decided of a capacity.

use min_capacity::Bracket;
use refute_log::ClosedLog;

/// A layout at a capacity, a log by which there is none, or neither.
#[derive(Drop)]
pub enum Decision {
    /// Offsets in bytes, one for each buffer in order.
    Layout(Vec<u64>),
    /// A log that is accepted at the capacity, so no layout fits.
    Refuted(ClosedLog),
    /// The steps are used up before an answer is found: the lower bound with the log of its stack,
    /// and the best start with its height.
    Open(Bracket),
}
