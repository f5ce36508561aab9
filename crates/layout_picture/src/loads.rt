//! The load of each column.

ghost use Rattle.std.specs.Prelude.{◌≡◌, ◌+◌, ◌*◌, ◌^◌, ◌<◌, ◌≤◌, ℕ, IfOk, length, map, slice_index, slice_index_or, if◌then◌else◌, false};
ghost use Rattle.std.specs.List.{All};
ghost use Rattle.dsa_terms.specs.Plans.{load};
ghost use Rattle.dsa_model.specs.Limits.{number_limit};

use crate::flags::live_columns;
use dsa_model::Instance;
use std::alloc::{AllocError, Global};

/// Adds the size to the load of each column in which the buffer is live.
fn add_live(loads: &mut [u64], flags: &[bool], size: u64)
    requires count { length flags.now ≡ length loads.old }
    requires room { All (λ load. load + size < 2 ^ 64) loads.old }
    ensures { (k : ℕ) → slice_index loads.new k
        ≡ slice_index loads.old k + (if slice_index_or flags.now k false then size else 0) }
{
    for k in 0..loads.len() {
        if flags[k] {
            loads[k] += size;
        }
    }
}

/// The load of each column, in bytes.
pub(crate) fn loads(
    alloc: Global,
    instance: &Instance,
    columns: &[u64],
) -> Result<Vec<u64>, AllocError>
    ensures value { IfOk result (λ loads. loads.items ≡ map (load instance.now) columns.now) }
    ensures limit { IfOk result (λ loads. All (λ load. load < number_limit) loads.items) }
{
    let mut loads = vec![in alloc; 0u64; columns.len()]?;
    for b in 0..instance.len() {
        let buffer = instance.buffer(b);
        let flags = live_columns(alloc, buffer, columns)?;
        add_live(&mut loads, &flags, buffer.size());
    }
    Ok(loads)
}
