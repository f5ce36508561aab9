//! Claims with lower bounds that mean the same.

ghost use Rattle.std.specs.Prelude.{◌≡◌, ◌+◌, ◌-◌, ◌<◌, ◌≤◌, map, IfOk, length};
ghost use Rattle.std.specs.Int.{next_multiple_of};
ghost use Rattle.dsa_model.specs.Limits.{number_limit};
ghost use Rattle.canonical_order.specs.Claims.{IsBoundedBy};
ghost use Rattle.canonical_order.specs.Stands.{Stands};
ghost use Rattle.conflicts.specs.Eased.{lowered};

use canonical_order::Claim;
use dsa_model::{Buffer, Instance, NoMemory};
use std::alloc::Global;

/// The least bound from which the buffer has the same least offset as from this one.
pub(crate) fn least_bound(buffer: &Buffer, bound: u64) -> u64
    requires { bound ≤ number_limit }
    ensures { let a = buffer.now.alignment in result ≡ next_multiple_of bound a + 1 - a }
{
    let alignment = buffer.alignment();
    (buffer.least_offset(bound) + 1).saturating_sub(alignment)
}

/// The claim with the least bounds that leave each buffer its low. So its children, its cites and
/// what covers it stay, and it covers no less.
pub(crate) fn lowered(alloc: Global, instance: &Instance, claim: &Claim) -> Result<Claim, NoMemory>
    requires stands { Stands instance.now claim.now }
    requires bounds { IsBoundedBy number_limit claim.now }
    ensures { IfOk result (λ made. made ≡ map (lowered instance.now) claim.now) }
{
    let mut pairs = Vec::with_capacity(alloc, claim.pairs().len())?;
    for pair in claim.pairs() {
        pairs.push((pair.0, least_bound(instance.buffer(pair.0), pair.1)))?;
    }
    Ok(Claim::from_vec(pairs))
}
