//! The numbers of buffers, for tests of what takes all of them.

ghost use Rattle.std.specs.Prelude.{◌<◌, IfOk};
ghost use Rattle.std.specs.List.{All};
ghost use Rattle.dsa_terms.specs.Claims.{Rises};

use std::alloc::{AllocError, Global};

/// The numbers below the count.
pub(crate) fn numbers_below(alloc: Global, count: u32) -> Result<Vec<u32>, AllocError>
    ensures rises { IfOk result (λ v. Rises v.items) }
    ensures below { IfOk result (λ v. All (λ b. b < count) v.items) }
{
    let mut numbers = Vec::new(alloc);
    for b in 0..count {
        numbers.push(b)?;
    }
    Ok(numbers)
}
