//! A buffer that is placed.

ghost use Rattle.std.specs.Prelude.{◌≡◌, ◌<◌, ◌≤◌, ◌^◌, List, ℕ, slice_index};
ghost use Rattle.dsa_terms.specs.Claims.{Claim as ClaimTerm, child as child_of};
ghost use Rattle.canonical_order.specs.Claims.{entry_of};
ghost use Rattle.canonical_order.specs.Levels.{AreLevels, IsLevel};
ghost use Rattle.claim_levels.specs.Levels.{HasLowChild};
ghost use Rattle.claim_levels.specs.Placings.{IsPlaced};

use canonical_order::least_past;
use dsa_model::Instance;

/// The buffer by which a claim is left for a child, and where it stands: its offset is its low in
/// the claim, and its end the sum of that and its size, in bytes.
#[derive(Clone, Copy)]
pub(crate) struct Placed {
    pub(crate) buffer: u32,
    pub(crate) offset: u64,
    pub(crate) end: u64,
}

impl Placed {
    /// The level of c in the child, by the one that it has in the claim. One that it has in the
    /// child already stays.
    pub(crate) fn level_of(self, instance: &Instance, c: u32, level: u64) -> u64
        ghost levels: { List ℕ }
        requires placed { IsPlaced instance.now levels self }
        requires low { HasLowChild instance.now levels self.buffer }
        requires has { 0 < slice_index levels c }
        requires some { 0 < level }
        requires limit { level ≤ 2 ^ 55 }
        ensures level { let I = instance.now in (l : ClaimTerm) → AreLevels I l levels →
            level ≡ slice_index levels c →
            IsLevel I (child_of I l (entry_of l self.buffer)) c result }
        ensures again { let I = instance.now in (l : ClaimTerm) → AreLevels I l levels →
            IsLevel I (child_of I l (entry_of l self.buffer)) c level → result ≡ level }
        ensures limit { level ≡ slice_index levels c → result ≤ 2 ^ 55 }
    {
        let _count = instance.len();
        if c == self.buffer {
            return 0;
        }
        let least = least_past(instance, self.buffer, self.offset, self.end, c);
        if least < level {
            level
        } else {
            instance.buffer(c).least_offset(least) + 1
        }
    }
}
