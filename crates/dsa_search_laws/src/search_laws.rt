//! Laws of the search of one claim and of its work.

ghost use Rattle.std.specs.Prelude.{◌≡◌, true, false, ℕ, ◌+◌, ◌/◌, ◌<◌, ◌≤◌, ◌≢◌, ◌↔◌, List, [], cond, length, is_some, None, Some};
ghost use Rattle.dsa_terms.specs.Buffers.{Instance, IsInstance};
ghost use Rattle.dsa_terms.specs.Claims.{Claim, Entry, IsClaim, IsIn, IsPlacement, IsRefuted, child};
ghost use Rattle.dsa_terms.specs.Logs.{ends_below, is_twin};
ghost use Rattle.dsa_terms.specs.Parts.{whole, whole_work};
ghost use Rattle.dsa_terms.specs.Plans.{after_plan, hunt, plan};
ghost use Rattle.dsa_terms.specs.Sorts.{IsOrdered};
ghost use Rattle.dsa_terms.specs.Search.{Rule, choices, comes_before, first, first_some, is_tall, not_excluded, seated, work, work_through};
ghost use Rattle.dsa_search_laws.specs.Searches.{height, most_work, plain_first};
ghost use Rattle.std.specs.List.{list_any};

/// The plain search, which takes every buffer, answers none exactly where the claim is refuted, and
/// else a placement.
pub fn plain_first_is_complete()
    ensures none { (I : Instance) (C : ℕ) (l : Claim) → IsInstance I → IsClaim I l →
        (plain_first I C l ≡ None) ↔ IsRefuted I C l }
    ensures some { (I : Instance) (C : ℕ) (l : Claim) (seats : List Entry) →
        IsInstance I → IsClaim I l → plain_first I C l ≡ Some seats → IsPlacement I C l seats }
{}

/// The search answers none exactly where the claim is refuted, and else a placement.
pub fn first_is_complete()
    ensures none { (I : Instance) (C : ℕ) (l : Claim) → IsInstance I → IsClaim I l →
        (first I C l ≡ None) ↔ IsRefuted I C l }
    ensures some { (I : Instance) (C : ℕ) (l : Claim) (seats : List Entry) →
        IsInstance I → IsClaim I l → first I C l ≡ Some seats → IsPlacement I C l seats }
{}

/// The search has the same answer at each smaller capacity that its answer is within.
pub fn first_stays()
    ensures { (I : Instance) (C D : ℕ) (l : Claim) (seats : List Entry) →
        IsInstance I → IsClaim I l →
        first I C l ≡ Some seats → height I seats ≤ D → D ≤ C → first I D l ≡ Some seats }
{}

/// The choices of a claim are its entries that the rule takes, the lower up first and of equal ones
/// the smaller number, and no other list is so. The search takes an entry where no other of the
/// claim ends below it and none is a twin before it.
pub fn choices_are_in_order()
    ensures order { (I : Instance) (rule : Rule) (l : Claim) → IsClaim I l →
        IsOrdered (comes_before I) (choices I rule l) }
    ensures members { (I : Instance) (rule : Rule) (l : Claim) (e : Entry) →
        IsIn e (choices I rule l) ↔ (IsIn e l × (rule l e ≡ true)) }
    ensures one { (I : Instance) (es fs : List Entry) → IsOrdered (comes_before I) es →
        IsOrdered (comes_before I) fs → ((e : Entry) → IsIn e es ↔ IsIn e fs) → es ≡ fs }
    ensures taken { (I : Instance) (l : Claim) (e : Entry) → (not_excluded I l e ≡ true)
        ↔ ((f : Entry) → IsIn f l → (ends_below I f e ≡ false) × (is_twin I f e ≡ false)) }
{}

/// The work of a claim of k buffers is at least 1 and at most N(k), and that of an instance of n
/// buffers at most N(n), with N(0) = 1 and N(k) = 1 + k N(k - 1).
pub fn work_is_bounded()
    ensures whole { (I : Instance) (C : ℕ) → whole_work I C ≤ most_work (length I) }
    ensures claim { (I : Instance) (C : ℕ) (l : Claim) → IsClaim I l →
        (1 ≤ work I C l) × (work I C l ≤ most_work (length l)) }
{}

/// The search, its work and the hunt, as equations.
pub fn search_equations()
    ensures first { (I : Instance) (C : ℕ) (l : Claim) → IsClaim I l → l ≢ [] →
        first I C l ≡ cond (list_any (is_tall I C) l) None
        (first_some (λ e. seated I l e (first I C (child I l e))) (choices I (not_excluded I) l)) }
    ensures work { (I : Instance) (C : ℕ) (l : Claim) → IsClaim I l → l ≢ [] →
        work I C l ≡ cond (list_any (is_tall I C) l) 1
        (1 + work_through (λ e. work I C (child I l e)) (λ e. is_some (first I C (child I l e)))
        (choices I (not_excluded I) l)) }
    ensures hunt { (starts : List (List ℕ)) (I : Instance) (a b : ℕ) → IsInstance I → a < b →
        hunt starts I a b ≡ whole_work I ((a + b) / 2)
        + after_plan (hunt starts I) I a b ((a + b) / 2) (plan starts I ((a + b) / 2)) }
{}

/// A claim without buffers, and a bracket without capacities, end the search, its work and the
/// hunt.
pub fn ends_of_search()
    ensures first { (I : Instance) (C : ℕ) → first I C [] ≡ Some [] }
    ensures work { (I : Instance) (C : ℕ) → work I C [] ≡ 1 }
    ensures hunt { (starts : List (List ℕ)) (I : Instance) (a b : ℕ) → b ≤ a →
        hunt starts I a b ≡ 0 }
{}
