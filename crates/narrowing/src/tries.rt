//! What tries capacities.

ghost use Rattle.std.specs.Prelude.{◌≡◌, ℕ, ◌+◌, ◌<◌, ◌≤◌, ◌^◌, ◌↔◌, IfOk};
ghost use Rattle.dsa_terms.specs.Buffers.{Instance};
ghost use Rattle.refute_log.specs.Decided.{IfSpent, IsRight};
ghost use Rattle.narrowing.specs.Narrowed.{lines_of};

use dsa_model::NoMemory;
use refute_log::Decided;
use std::alloc::Global;

/// Tries to decide capacities of one instance, the subject, within a number of units. `units` are
/// those used so far, and `within` tells which capacities may be asked; no call changes it.
pub trait Tries {
    ghost subject: { Self → Instance };

    ghost units: { Self → ℕ };

    ghost within: { Self → ℕ → Type 0 };

    /// How many units were used so far.
    fn used(&self) -> u64
        ensures { result ≡ units self.now };

    /// Tries the capacity, in bytes, within at most `limit` more units: a layout of the subject at
    /// it, an accepted log of the subject at it, or Spent, which comes only where all `limit` units
    /// are used. A log has no more lines than units were used for it. Where memory runs out, only
    /// `units` may have risen.
    ///
    /// The caller owes a capacity that may be asked, and that the units do not pass 64 bits.
    fn attempt(&mut self, alloc: Global, capacity: u64, limit: u64) -> Result<Decided, NoMemory>
        requires within { within self.old capacity }
        requires limit { units self.old + limit < 2 ^ 64 }
        ensures subject { subject self.new ≡ subject self.old }
        ensures within { (C : ℕ) → within self.new C ↔ within self.old C }
        ensures units { units self.old ≤ units self.new }
        ensures used { units self.new ≤ units self.old + limit }
        ensures right { IfOk result (λ d. IsRight (subject self.old) capacity d) }
        ensures exhausted { IfOk result (λ d.
            IfSpent d (units self.new ≡ units self.old + limit)) }
        ensures charged { IfOk result (λ d. units self.old + lines_of d ≤ units self.new) };
}
