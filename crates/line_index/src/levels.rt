//! The levels of a claim: for each buffer of an instance one more than its low in bytes, and 0
//! where it is not in the claim. So the claim meets a bound exactly where the bound is below the
//! buffer's level.

ghost use Rattle.std.specs.Prelude.{◌≡◌, ℕ, ◌<◌, ◌≤◌, length, slice_index};
ghost use Rattle.std.specs.List.{All};

/// The level of the buffer, and 0 for a number that is no buffer's.
pub fn level_at(levels: &[u64], b: usize) -> u64
    ensures value { result ≡ slice_index levels.now b }
    ensures some { 0 < result → b < length levels.now }
    ensures limit { (most : ℕ) → All (λ level. level ≤ most) levels.now → result ≤ most }
{
    if b < levels.len() { levels[b] } else { 0 }
}
