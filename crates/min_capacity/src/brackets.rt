//! Brackets round the least capacity.

use refute_log::ClosedLog;

/// Two capacities, in bytes: the least one that has a layout is neither below `low` nor above
/// `high`.
#[derive(Drop)]
pub struct Bracket {
    /// No layout fits within a capacity below it.
    pub low: u64,
    /// A log that is accepted at `low - 1`; none where `low` is 0.
    pub log: Option<ClosedLog>,
    /// A capacity that has a layout.
    pub high: u64,
    /// Offsets in bytes, one for each buffer in order: a layout of height `high`.
    pub layout: Vec<u64>,
}

/// What is found of the least capacity.
#[derive(Drop)]
pub enum Least {
    /// The ends have met: they are the least capacity.
    Exact(Bracket),
    /// The budget is spent while the lower end is still below the upper one.
    Open(Bracket),
}
