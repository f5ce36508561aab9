//! Laws of capacities: a larger one, the search of all parts, and the plan.

ghost use Rattle.std.specs.Prelude.{◌≡◌, ℕ, ◌≤◌, ◌↔◌, List, None, Some};
ghost use Rattle.dsa_terms.specs.Buffers.{Instance, IsInstance};
ghost use Rattle.dsa_terms.specs.Layouts.{IsFeasible, IsInfeasible, IsLayout};
ghost use Rattle.dsa_terms.specs.Parts.{searched};
ghost use Rattle.dsa_terms.specs.Plans.{layout_height, plan};

/// A larger capacity has a layout where a smaller one has.
pub fn higher_is_feasible()
    ensures { (I : Instance) (C D : ℕ) → C ≤ D → IsFeasible I C → IsFeasible I D }
{}

/// The search over all parts answers none exactly where no layout fits, and else a layout.
pub fn search_is_complete()
    ensures none { (I : Instance) (C : ℕ) → IsInstance I →
        (searched I C ≡ None) ↔ IsInfeasible I C }
    ensures some { (I : Instance) (C : ℕ) (offsets : List ℕ) → IsInstance I →
        searched I C ≡ Some offsets → IsLayout I C offsets }
{}

/// The search and the plan have the same answer at each smaller capacity that the answer is within.
pub fn plan_stays()
    ensures search { (I : Instance) (C D : ℕ) (offsets : List ℕ) → IsInstance I →
        searched I C ≡ Some offsets → layout_height I offsets ≤ D → D ≤ C →
        searched I D ≡ Some offsets }
    ensures plan { (starts : List (List ℕ)) (I : Instance) (C D : ℕ) (offsets : List ℕ) →
        IsInstance I → plan starts I C ≡ Some offsets →
        layout_height I offsets ≤ D → D ≤ C → plan starts I D ≡ Some offsets }
{}
