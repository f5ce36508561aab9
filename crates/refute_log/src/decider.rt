//! What decides capacities.

ghost use Rattle.std.specs.Prelude.{◌≡◌, ℕ, ◌+◌, ◌<◌, ◌≤◌, IfOk, Option};
ghost use Rattle.dsa_terms.specs.Buffers.{Instance};
ghost use Rattle.dsa_model.specs.Counts.{Rose};
ghost use Rattle.dsa_model.specs.Limits.{number_limit};
ghost use Rattle.refute_log.specs.Answers.{Answer};
ghost use Rattle.refute_log.specs.Decided.{answer_of, IsRight, Settles, TurnsOut, IfSpent};

use crate::Decided;
use dsa_model::NoMemory;

/// Decides capacities of one instance, the subject. `spends` counts the answers Spent, and `units`
/// what the calls have used. `gives`, `most` and `turn` are functions of the subject: which answers
/// come at a capacity, how many units one call takes at most, and the height of the layout that
/// comes, if one does. `allowance` is a number that no call changes: after an answer Spent at least
/// so many units are used. `charge` says how many units an answer takes at least, by the subject
/// and the allowance.
pub trait Decider {
    ghost subject: { Self → Instance };

    ghost spends: { Self → ℕ };

    ghost units: { Self → ℕ };

    ghost allowance: { Self → ℕ };

    ghost gives: { Instance → ℕ → Answer → Type 0 };

    ghost most: { Instance → ℕ → ℕ };

    ghost turn: { Instance → ℕ → Option ℕ };

    ghost charge: { Instance → ℕ → Answer → ℕ };

    /// Decides the capacity, in bytes, which is at most 2^60: a layout of the subject at it, an
    /// accepted log of the subject at it, or Spent. Where memory runs out, only `spends` and
    /// `units` may have risen.
    fn decide(&mut self, capacity: u64) -> Result<Decided, NoMemory>
        requires { capacity ≤ number_limit }
        ensures subject { subject self.new ≡ subject self.old }
        ensures allowance { allowance self.new ≡ allowance self.old }
        ensures spends { spends self.old ≤ spends self.new }
        ensures units { units self.old ≤ units self.new }
        ensures used { units self.new ≤ units self.old + most (subject self.old) capacity }
        ensures right { IfOk result (λ d. IsRight (subject self.old) capacity d) }
        ensures settles { IfOk result (Settles (subject self.old) capacity) }
        ensures given { IfOk result (λ d. gives (subject self.old) capacity (answer_of d)) }
        ensures turned { let I = subject self.old in
            IfOk result (λ d. TurnsOut I (turn I capacity) d) }
        ensures spent { IfOk result (λ d. IfSpent d (Rose (spends self.old) (spends self.new))) }
        ensures fewer { let limit = units self.old + most (subject self.old) capacity in
            IfOk result (λ d. IfSpent d (units self.new < limit)) }
        ensures exhausted { IfOk result (λ d. IfSpent d (allowance self.old ≤ units self.new)) }
        ensures charged { let least = charge (subject self.old) (allowance self.old) in
            IfOk result (λ d. units self.old + least (answer_of d) ≤ units self.new) };
}
