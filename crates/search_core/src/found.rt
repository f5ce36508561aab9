//! What the search finds of a claim.

/// What the search finds of a claim.
#[derive(Drop)]
pub(crate) enum Found {
    /// The offsets of its buffers, in rising order of buffers.
    Seats(Vec<(u32, u64)>),
    /// The number of a line of the log whose claim covers it: it has no layout.
    Line(u64),
}
