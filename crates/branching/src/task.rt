//! What a search is over.

ghost use Rattle.std.specs.Prelude.{◌≤◌};
ghost use Rattle.dsa_model.specs.Limits.{number_limit};
ghost use Rattle.dsa_model.specs.Buffer.{size_limit};
ghost use Rattle.branching.specs.Overs.{AreSizesWithin};
ghost use Rattle.branching.specs.TwinMarks.{AreTwinMarks};

use crate::twin_marks::TwinMarks;
use dsa_model::Instance;

/// The greatest size of a buffer of the instance, in bytes, and 0 where it has none.
pub fn greatest_size(instance: &Instance) -> u64
    ensures value { AreSizesWithin instance.now result }
    ensures limit { result ≤ size_limit }
{
    let mut most = 0;
    for b in 0..instance.len() {
        most = most.max(instance.buffer(b).size());
    }
    most
}

/// An instance, which of its buffers may have a twin, and a capacity. No buffer is larger than
/// `size`.
#[derive(Drop)]
pub struct Task<'a> {
    /// The instance.
    pub instance: &'a Instance,
    /// Which of its buffers may have a twin.
    pub twins: &'a TwinMarks,
    /// The capacity in bytes, at most 2^60.
    pub capacity: u64,
    /// A size in bytes that no buffer is above, at most 2^40.
    pub size: u64,
    ghost limit: { capacity ≤ number_limit },
    ghost sized: { AreSizesWithin instance.now size },
    ghost small: { size ≤ size_limit },
    ghost marked: { AreTwinMarks instance.now twins.now },
}
