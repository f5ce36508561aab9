//! The arrays that tell of buffers.

ghost use Rattle.std.specs.Prelude.{◌≡◌};
ghost use Rattle.dsa_plan.specs.Arrays.{arrays_of, without_gaps};

/// Buffers, told of by arrays: a buffer's number is its place, from 0, and each array but `gaps`
/// has one item for each buffer. Moments and bytes are as in `dsa_model::Buffer`.
#[derive(Clone, Copy)]
pub struct Arrays<'a> {
    /// The first moment of each lifetime.
    pub lower: &'a [u64],
    /// The moment after each lifetime.
    pub upper: &'a [u64],
    /// The sizes, in bytes.
    pub size: &'a [u64],
    /// Of how many bytes each offset is a multiple.
    pub alignment: &'a [u64],
    /// The least offset that each may have, in bytes.
    pub lowest: &'a [u64],
    /// The gaps of all buffers, those of the first one first. Each is its first moment and the
    /// moment after its last.
    pub gaps: &'a [(u64, u64)],
    /// How many of the gaps each buffer has. It may be empty where there are no gaps.
    pub gap_counts: &'a [u32],
}

impl<'a> Arrays<'a> {
    /// The arrays of buffers that have no gaps.
    pub fn without_gaps(
        lower: &'a [u64],
        upper: &'a [u64],
        size: &'a [u64],
        alignment: &'a [u64],
        lowest: &'a [u64],
    ) -> Self
        ensures { arrays_of result ≡
            without_gaps lower.now upper.now size.now alignment.now lowest.now }
    {
        Arrays {
            lower,
            upper,
            size,
            alignment,
            lowest,
            gaps: &[],
            gap_counts: &[],
        }
    }

    /// The same buffers with these gaps.
    pub fn with_gaps(self, gaps: &'a [(u64, u64)], gap_counts: &'a [u32]) -> Self
        ensures { arrays_of result ≡
            record (arrays_of self.entry) { gaps = gaps.now; gap_counts = gap_counts.now } }
    {
        Arrays {
            gaps,
            gap_counts,
            ..self
        }
    }
}
