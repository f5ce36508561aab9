//! The rows of a report.

/// Addresses that one buffer takes, or that are free.
#[derive(Clone, Copy)]
pub(crate) struct Row {
    /// The first of them, in bytes.
    pub(crate) place: u64,
    /// How many there are, in bytes.
    pub(crate) size: u64,
    /// The buffer's number; none where they are free.
    pub(crate) buffer: Option<u32>,
}
