//! The order in which buffers are stacked.

ghost use Rattle.std.specs.Prelude.{IfOk};
ghost use Rattle.lower_bounds.specs.Stacks.{IsFalling};

use dsa_model::Instance;
use std::alloc::{AllocError, Global};

/// All buffers, by falling floor.
pub(crate) fn falling(alloc: Global, instance: &Instance) -> Result<Vec<u32>, AllocError>
    ensures { IfOk result (λ order. IsFalling instance.now order.items) }
{
    let mut keys = Vec::new(alloc);
    for b in 0..instance.len() {
        keys.push((u64::MAX - instance.buffer(b).floor(), b))?;
    }
    keys.sort_unstable_by_key(|key| key.0);
    keys.iter().map(|key| key.1).collect(alloc)
}
