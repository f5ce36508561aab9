//! Laws of the plan, the least capacity and the peak.

ghost use Rattle.std.specs.Prelude.{◌≡◌, ℕ, ◌<◌, ◌≤◌, ◌≢◌, ◌↔◌, List, [], None, Some};
ghost use Rattle.dsa_terms.specs.Buffers.{Instance, IsInstance};
ghost use Rattle.dsa_terms.specs.Layouts.{IsFeasible, IsInfeasible, IsLayout, IsLeast};
ghost use Rattle.dsa_terms.specs.Starts.{planned};
ghost use Rattle.dsa_terms.specs.Plans.{IsPeak, layout_height};

/// The plan is none exactly where no layout fits, and else a layout.
pub fn plan_is_complete()
    ensures none { (I : Instance) (C : ℕ) → IsInstance I → (planned I C ≡ None) ↔ IsInfeasible I C }
    ensures some { (I : Instance) (C : ℕ) (offsets : List ℕ) → IsInstance I →
        planned I C ≡ Some offsets → IsLayout I C offsets }
    ensures under { (I : Instance) (C : ℕ) (offsets : List ℕ) → IsInstance I →
        planned I C ≡ Some offsets → layout_height I offsets ≤ C }
{}

/// No capacity below the least one has a layout, and what has that is the least one; there is no
/// second.
pub fn least_is_least()
    ensures below { (I : Instance) (C D : ℕ) → IsLeast I C → D < C → IsInfeasible I D }
    ensures from { (I : Instance) (C : ℕ) → IsFeasible I C → ((D : ℕ) → D < C → IsInfeasible I D) →
        IsLeast I C }
    ensures one { (I : Instance) (C D : ℕ) → IsLeast I C → IsLeast I D → C ≡ D }
{}

/// Some buffers have just one peak, and no buffers have none.
pub fn peak_is_one()
    ensures some { (I : Instance) → I ≢ [] → (t : ℕ) × IsPeak I t }
    ensures one { (I : Instance) (s t : ℕ) → IsPeak I s → IsPeak I t → s ≡ t }
    ensures none { (t : ℕ) → IsPeak [] t → ⊥ }
{}
