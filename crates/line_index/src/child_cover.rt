//! A test that finds a child covered which is not made.

ghost use Rattle.std.specs.Prelude.{◌≡◌, ◌+◌, ◌^◌, ◌<◌, ◌≤◌, true, length, slice_index};
ghost use Rattle.std.specs.List.{All};
ghost use Rattle.dsa_terms.specs.Buffers.{buffer as buffer_at};
ghost use Rattle.dsa_terms.specs.Claims.{Claim as ClaimTerm, Covers, child as child_of};
ghost use Rattle.canonical_order.specs.Claims.{CoversEntry, entry_of};
ghost use Rattle.canonical_order.specs.Levels.{AreLevels};

use crate::levels::level_at;
use canonical_order::{Claim, meets_in_child};
use dsa_model::Instance;

/// Yes only where the child by b covers what the buffer with its bound asks. In the claim b takes
/// the bytes from `low_b` to `end_b`.
fn covers_pair(
    instance: &Instance,
    levels: &[u64],
    b: u32,
    low_b: u64,
    end_b: u64,
    c: u32,
    bound: u64,
) -> bool
    requires count { length levels.now ≡ length instance.now }
    requires low { All (λ level. level ≤ 2 ^ 61) levels.now }
    requires b_in { low_b + 1 ≡ slice_index levels.now b }
    requires end { end_b ≡ low_b + (buffer_at instance.now b).size }
    ensures { let I = instance.now in (l : ClaimTerm) → AreLevels I l levels.now → result ≡ true →
        CoversEntry I (child_of I l (entry_of l b)) (c, bound) }
{
    let level = level_at(levels, c as usize);
    if c == b || level == 0 {
        return false;
    }
    meets_in_child(instance, b, low_b, end_b, c, level - 1, bound)
}

/// Yes only where k covers the child by b of the claim of the levels, which has b. The child is not
/// made, and no memory is taken.
pub(crate) fn covers_child(instance: &Instance, levels: &[u64], k: &Claim, b: u32) -> bool
    requires count { length levels.now ≡ length instance.now }
    requires low { All (λ level. level ≤ 2 ^ 61) levels.now }
    requires b_in { 0 < slice_index levels.now b }
    ensures { let I = instance.now in (l : ClaimTerm) → AreLevels I l levels.now → result ≡ true →
        Covers I k.now (child_of I l (entry_of l b)) }
{
    let low_b = level_at(levels, b as usize) - 1;
    let end_b = low_b + instance.buffer(b).size();
    for pair in k.pairs() {
        if !covers_pair(instance, levels, b, low_b, end_b, pair.0, pair.1) {
            return false;
        }
    }
    true
}
