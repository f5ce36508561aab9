//! Laws of irreducible sets that do not fit, and of their logs.

ghost use Rattle.std.specs.Prelude.{◌≡◌, ◌<◌, ℕ, List, length};
ghost use Rattle.dsa_terms.specs.Buffers.{Instance, IsInstance};
ghost use Rattle.dsa_terms.specs.Claims.{IsIn, Rises, buffers_of};
ghost use Rattle.dsa_terms.specs.Layouts.{IsFeasible, IsInfeasible};
ghost use Rattle.dsa_terms.specs.Logs.{IsAccepted, Line, Log, claim_of};
ghost use Rattle.dsa_terms.specs.Parts.{numbers};
ghost use Rattle.dsa_model.specs.Chosen.{some_of};
ghost use Rattle.core_find.specs.Carried.{IsEnd, NeedsOnly, carried};
ghost use Rattle.core_find.specs.Cores.{AreAmong, IsCore, without};
ghost use Rattle.core_find.specs.Found.{IsExplained};
ghost use Rattle.core_find.specs.declared.found.Core.{Core};

/// Where some buffers do not fit, no more of them do.
pub fn more_fit_no_better()
    ensures some { (I : Instance) (C : ℕ) (ks ms : List ℕ) → Rises ks → AreAmong ks ms →
        IsInfeasible (some_of I ks) C → IsInfeasible (some_of I ms) C }
    ensures all { (I : Instance) (C : ℕ) (ks : List ℕ) → Rises ks →
        ((b : ℕ) → IsIn b ks → b < length I) →
        IsInfeasible (some_of I ks) C → IsInfeasible I C }
{}

/// The members of a core do not fit, and without any one of them the others do, and so does each
/// set of them that lacks one.
pub fn core_is_irreducible()
    ensures members { (I : Instance) (C : ℕ) (members : List ℕ) → IsCore I C members →
        Rises members × ((b : ℕ) → IsIn b members → b < length I) }
    ensures infeasible { (I : Instance) (C : ℕ) (members : List ℕ) → IsCore I C members →
        IsInfeasible (some_of I members) C }
    ensures rest { (I : Instance) (C b : ℕ) (members : List ℕ) → IsCore I C members →
        IsIn b members → IsFeasible (some_of I (without b members)) C }
    ensures irreducible { (I : Instance) (C b : ℕ) (members ks : List ℕ) → IsCore I C members →
        Rises ks → AreAmong ks members → IsIn b members → (IsIn b ks → ⊥) →
        IsFeasible (some_of I ks) C }
{}

/// Buffers that do not fit have one core, and there is no second.
pub fn core_is_one()
    ensures some { (I : Instance) (C : ℕ) → IsInstance I → IsInfeasible I C →
        (members : List ℕ) × IsCore I C members }
    ensures one { (I : Instance) (C : ℕ) (members others : List ℕ) → IsCore I C members →
        IsCore I C others → members ≡ others }
{}

/// Where the end of an accepted log names none but some of the buffers, what its end needs, with
/// these by their places, is an accepted log of just them: the lines that an end needs name no
/// buffers but those of the end.
pub fn fewer_keep_the_log()
    ensures accepted { (I : Instance) (before members : List ℕ) (log : Log) → Rises members →
        NeedsOnly I before members log →
        IsAccepted (some_of I members) (carried before members log) }
    ensures all { (I : Instance) (members : List ℕ) (log : Log) (end : Line) → Rises members →
        IsAccepted I log → IsEnd log end → AreAmong (buffers_of (claim_of end)) members →
        IsAccepted (some_of I members) (carried (numbers (length I)) members log) }
    ensures capacity { (before members : List ℕ) (log : Log) →
        (carried before members log).capacity ≡ log.capacity }
{}

/// What is found of buffers that do not fit stands by itself: over the rows of the members alone,
/// as an instance of their own, the log is accepted, and the core is all of them.
pub fn core_stands_by_itself()
    ensures log { (I K : Instance) (C : ℕ) (core : Core) → IsExplained I C core →
        K ≡ some_of I core.members.items → IsAccepted K core.log × (core.log.capacity ≡ C) }
    ensures core { (I K : Instance) (C : ℕ) (core : Core) → IsExplained I C core →
        K ≡ some_of I core.members.items → IsCore K C (numbers (length K)) }
{}
