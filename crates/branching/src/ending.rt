//! The buffer of a claim that ends lowest.

ghost use Rattle.std.specs.Prelude.{◌≡◌, ◌^◌, ◌<◌, length, slice_index};
ghost use Rattle.dsa_terms.specs.Buffers.{Instance as InstanceTerm};
ghost use Rattle.dsa_terms.specs.Claims.{Claim as ClaimTerm, up};
ghost use Rattle.canonical_order.specs.Claims.{entry_of};
ghost use Rattle.canonical_order.specs.Levels.{AreLevels};
ghost use Rattle.conflicts.specs.Ends.{end_of};
ghost use Rattle.branching.specs.Endings.{IsLeastEnding};

use claim_levels::Levels;
use dsa_model::Instance;

/// A buffer of a claim, and where it ends at its low, in bytes.
#[derive(Clone, Copy, Debug)]
pub(crate) struct Ending {
    pub(crate) buffer: u32,
    pub(crate) end: u64,
}

/// The low of the buffer in the claim of the levels, which has it.
pub(crate) fn low_of(levels: &Levels, b: u32) -> u64
    requires { 0 < slice_index levels.now b }
    ensures value { (I : InstanceTerm) (l : ClaimTerm) → AreLevels I l levels.now →
        result ≡ up I (entry_of l b) }
    ensures limit { result < 2 ^ 62 }
{
    levels.at(b as usize) - 1
}

/// Where the buffer ends at its low in the claim of the levels, which has it.
fn end_of(instance: &Instance, levels: &Levels, b: u32) -> u64
    requires count { length levels.now ≡ length instance.now }
    requires b_in { 0 < slice_index levels.now b }
    ensures value { let I = instance.now in (l : ClaimTerm) → AreLevels I l levels.now →
        result ≡ end_of I (entry_of l b) }
    ensures limit { result < 2 ^ 63 }
{
    low_of(levels, b) + instance.buffer(b).size()
}

/// The buffer that ends lowest of the claim of the levels, and of these the one of least number.
/// Where the claim has no buffer, the end is above all lows.
pub(crate) fn least_end(instance: &Instance, levels: &Levels) -> Ending
    requires count { length levels.now ≡ length instance.now }
    ensures { let I = instance.now in (l : ClaimTerm) → AreLevels I l levels.now →
        IsLeastEnding I l (length I) result }
{
    let mut least = Ending {
        buffer: 0,
        end: u64::MAX,
    };
    for b in levels.left() {
        let end = end_of(instance, levels, *b);
        if end < least.end {
            let buffer = *b;
            least = Ending { buffer, end };
        }
    }
    least
}
