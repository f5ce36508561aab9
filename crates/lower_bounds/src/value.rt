//! A lower bound.

/// A capacity below which no layout fits, by the buffers that are live at one moment, cannot start
/// below one height, and start at multiples of one modulus.
#[derive(Clone, Copy)]
pub struct Bound {
    /// The least capacity that the bound leaves open, in bytes.
    pub capacity: u64,
    /// A moment at which the counted buffers are live: what they come to, stacked from the height
    /// on, is the capacity. It says nothing where the capacity is 0.
    pub moment: u64,
    /// The number of bytes that the height and the alignments of the counted buffers are multiples
    /// of.
    pub modulus: u64,
    /// The height in bytes below which none of the counted buffers can start.
    pub height: u64,
}
