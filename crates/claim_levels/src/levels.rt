//! The lows of a claim, one after another by buffer.

ghost use Rattle.std.specs.Prelude.{◌≡◌, ◌≢◌, ℕ, ◌^◌, ◌<◌, ◌≤◌, [], true, false, IfOk, length, slice_index};
ghost use Rattle.std.specs.List.{All};
ghost use Rattle.dsa_terms.specs.Buffers.{Instance as InstanceTerm};
ghost use Rattle.dsa_terms.specs.Claims.{Claim as ClaimTerm};
ghost use Rattle.dsa_model.specs.Buffer.{buffer_limit};
ghost use Rattle.dsa_model.specs.Limits.{number_limit};
ghost use Rattle.canonical_order.specs.Claims.{IsBoundedBy};
ghost use Rattle.canonical_order.specs.Levels.{AreLevels};
ghost use Rattle.claim_levels.specs.Firsts.{IsFirst};
ghost use Rattle.claim_levels.specs.Levels.{AreLed, AreLeft, IsLeastLevel};
ghost use Rattle.claim_levels.specs.Lifted.{lifted};

use crate::grounds::ground_of;
use canonical_order::Claim;
use dsa_model::NoMemory;
use line_index::level_at;
use std::alloc::Global;
use std::marker::Model;

/// The least number of a buffer of least level among those that are left, and 0 where none is.
fn first_level(levels: &[u64], left: &[u32]) -> u32
    requires low { All (λ level. level ≤ 2 ^ 55) levels.now }
    requires left { AreLeft levels.now left.now }
    ensures { IsLeastLevel levels.now result }
{
    let mut first = 0;
    let mut least = u64::MAX;
    for i in 0..left.len() {
        let b = left[i];
        let level = levels[b as usize];
        if level < least {
            least = level;
            first = b;
        }
    }
    first
}

/// For each buffer of an instance one more than its low in a claim, in bytes, and 0 where it is not
/// in the claim: so the claim meets a bound exactly where the bound is below the buffer's level.
/// Beside them stand the buffers that have a level, in rising order, and a number that none is
/// above. Contracts see the levels by buffer.
#[derive(Drop)]
pub struct Levels<'a> {
    numbers: &'a [u64],
    left: &'a [u32],
    top: u64,
}

impl<'a> Model for Levels<'a> {
    ghost use Rattle.std.specs.Prelude.{ℕ, List};
    ghost use Rattle.claim_levels.specs.Levels.{AreLed};

    ghost Value = { List ℕ };

    ghost view = { λ v. v.numbers.now };

    ghost invariant = { λ v. AreLed v.numbers.now v.left.now v.top };
}

impl<'a> Levels<'a> {
    /// These levels, with the buffers that have one; none is above the top.
    pub(crate) fn of(numbers: &'a [u64], left: &'a [u32], top: u64) -> Levels<'a>
        requires { AreLed numbers.now left.now top }
        ensures { result ≡ numbers.now }
    {
        Levels { numbers, left, top }
    }

    /// How many there are: one for each buffer of the instance.
    pub fn len(&self) -> usize
        ensures value { result ≡ length self.now }
        ensures few { result ≤ buffer_limit }
    {
        self.numbers.len()
    }

    /// The level of the buffer, and 0 for a number that is no buffer's.
    pub fn at(&self, b: usize) -> u64
        ensures value { result ≡ slice_index self.now b }
        ensures some { 0 < result → b < buffer_limit }
        ensures limit { result ≤ 2 ^ 55 }
    {
        level_at(self.numbers, b)
    }

    /// The levels in order.
    pub fn as_slice(&self) -> &[u64]
        ensures value { result.now ≡ self.now }
        ensures few { length result.now ≤ buffer_limit }
        ensures low { All (λ level. level ≤ 2 ^ 55) result.now }
    {
        self.numbers
    }

    /// The buffers that have a level, in rising order.
    pub fn left(&self) -> &[u32]
        ensures { AreLeft self.now result.now }
    {
        self.left
    }

    /// A number that no level is above.
    pub fn top(&self) -> u64
        ensures value { All (λ level. level ≤ result) self.now }
        ensures limit { result ≤ 2 ^ 55 }
    {
        self.top
    }

    /// The buffer of least low, and of these the one of least number, where the claim has one.
    pub fn first(&self) -> u32
        ensures value { IsLeastLevel self.now result }
        ensures first { (I : InstanceTerm) (l : ClaimTerm) → AreLevels I l self.now → l ≢ [] →
            IsFirst I l result }
    {
        first_level(self.numbers, self.left)
    }

    /// Whether the claim has no buffer.
    pub fn is_empty(&self) -> bool
        ensures none { (I : InstanceTerm) (l : ClaimTerm) → AreLevels I l self.now →
            result ≡ true → l ≡ [] }
        ensures some { (I : InstanceTerm) (l : ClaimTerm) → AreLevels I l self.now →
            result ≡ false → l ≢ [] }
    {
        self.left.is_empty()
    }

    /// The claim with each bound at the buffer's low.
    pub fn ground(&self, alloc: Global) -> Result<Claim, NoMemory>
        ensures value { (I : InstanceTerm) (l : ClaimTerm) → AreLevels I l self.now →
            IfOk result (λ claim. claim ≡ lifted I l) }
        ensures low { IfOk result (IsBoundedBy number_limit) }
    {
        let ground = ground_of(alloc, self.numbers, self.left)?;
        Ok(ground)
    }
}
