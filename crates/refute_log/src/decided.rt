//! What a decider answers.

use crate::ClosedLog;

/// The answer of a decider at a capacity.
#[derive(Drop)]
pub enum Decided {
    /// Offsets in bytes, one for each buffer in order: a layout at the capacity.
    Layout(Vec<u64>),
    /// A log that is accepted at the capacity, so no layout fits.
    Refuted(ClosedLog),
    /// The budget is spent before an answer was found.
    Spent,
}
