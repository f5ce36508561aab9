//! Claims with their lows as bounds, read off the levels.

ghost use Rattle.std.specs.Prelude.{◌^◌, ◌≤◌, IfOk, length};
ghost use Rattle.std.specs.List.{All};
ghost use Rattle.dsa_model.specs.Buffer.{buffer_limit};
ghost use Rattle.claim_levels.specs.Levels.{AreKept, AreLeft};

use canonical_order::Claim;
use dsa_model::NoMemory;
use std::alloc::Global;

/// The buffers that have a level, each with what is one less for its bound.
pub(crate) fn ground_of(alloc: Global, levels: &[u64], left: &[u32]) -> Result<Claim, NoMemory>
    requires few { length levels.now ≤ buffer_limit }
    requires low { All (λ level. level ≤ 2 ^ 55) levels.now }
    requires left { AreLeft levels.now left.now }
    ensures { IfOk result (AreKept levels.now) }
{
    let mut pairs = Vec::with_capacity(alloc, left.len())?;
    for i in 0..left.len() {
        let b = left[i];
        pairs.push((b, levels[b as usize] - 1))?;
    }
    Ok(Claim::from_vec(pairs))
}
