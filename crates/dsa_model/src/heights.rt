//! How high a layout reaches.

ghost use Rattle.std.specs.Prelude.{◌≡◌, ◌≤◌, length, All};
ghost use Rattle.dsa_terms.specs.Plans.{layout_height};
ghost use Rattle.dsa_model.specs.Limits.{number_limit};

use crate::Instance;

/// The greatest end of a buffer, its offset and size together, in bytes; 0 for no buffers.
///
/// The caller owes as many offsets as there are buffers, each of at most 2^60.
pub fn height(instance: &Instance, offsets: &[u64]) -> u64
    requires count { length offsets.now ≡ length instance.now }
    requires limit { All (λ offset. offset ≤ number_limit) offsets.now }
    ensures { result ≡ layout_height instance.now offsets.now }
{
    let mut top = 0;
    for b in 0..instance.len() {
        top = top.max(offsets[b as usize] + instance.buffer(b).size());
    }
    top
}
