//! The levels of a claim, read off a skyline.

ghost use Rattle.std.specs.Prelude.{◌≡◌, ◌^◌, ◌≤◌, length};
ghost use Rattle.std.specs.List.{All};
ghost use Rattle.dsa_model.specs.Buffer.{buffer_limit};
ghost use Rattle.canonical_order.specs.Levels.{AreLevels, IsLevel};
ghost use Rattle.skyline.specs.Skies.{last_claim};

use canonical_order::Lows;
use skyline::Skyline;

/// One more than the low of the buffer in the last claim, in bytes; 0 where it is not in it.
fn level(sky: &Skyline, b: u32) -> u64
    ensures level { IsLevel sky.now.instance (last_claim sky.now.claims) b result }
    ensures limit { result ≤ 2 ^ 55 }
{
    if sky.is_free(b) { sky.low(b) + 1 } else { 0 }
}

/// Writes the levels of the last claim.
pub(crate) fn fill(levels: &mut [u64], sky: &Skyline)
    requires { length levels.old ≡ length sky.now.instance }
    ensures levels { AreLevels sky.now.instance (last_claim sky.now.claims) levels.new }
    ensures few { length levels.new ≤ buffer_limit }
    ensures low { All (λ level. level ≤ 2 ^ 55) levels.new }
{
    for b in 0..sky.instance().len() {
        levels[b as usize] = level(sky, b);
    }
}

/// The greatest of the levels, and 0 for none.
pub(crate) fn greatest_level(levels: &[u64]) -> u64
    ensures top { All (λ level. level ≤ result) levels.now }
    ensures limit { All (λ level. level ≤ 2 ^ 55) levels.now → result ≤ 2 ^ 55 }
{
    let mut top = 0;
    for level in levels {
        if top < *level {
            top = *level;
        }
    }
    top
}
