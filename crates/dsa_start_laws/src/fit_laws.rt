//! Laws of first-fit and best-fit for one buffer.

ghost use Rattle.std.specs.Prelude.{◌≡◌, ℕ, ◌≤◌, ◌↔◌, List, false, None, Some};
ghost use Rattle.dsa_terms.specs.Buffers.{Instance, IsInstance};
ghost use Rattle.dsa_terms.specs.Claims.{Entry, IsIn};
ghost use Rattle.dsa_terms.specs.Fits.{best_place, first_place, free_ranges, is_tighter, Range, tightest};
ghost use Rattle.dsa_start_laws.specs.Fitting.{IsClear, IsFreeRange};

/// Where first-fit puts a buffer it is aligned, at or above its lowest and apart from its
/// neighbours, and nowhere lower.
pub fn first_place_is_least()
    ensures clear { (I : Instance) (b : ℕ) (placed : List Entry) → IsInstance I →
        IsClear I b placed (first_place I b placed) }
    ensures least { (I : Instance) (b : ℕ) (placed : List Entry) (x : ℕ) → IsInstance I →
        IsClear I b placed x → first_place I b placed ≤ x }
{}

/// Where best-fit puts a buffer it is aligned, at or above its lowest and apart from its
/// neighbours. Its free ranges are the greatest that meet no neighbour, and of several it takes one
/// that none is tighter than.
pub fn best_place_is_tightest()
    ensures clear { (I : Instance) (b : ℕ) (placed : List Entry) → IsInstance I →
        IsClear I b placed (best_place I b placed) }
    ensures ranges { (I : Instance) (placed : List Entry) (r : Range) → IsInstance I →
        IsIn r (free_ranges I placed) ↔ IsFreeRange I placed r }
    ensures among { (rs : List Range) (r : Range) → tightest rs ≡ Some r → IsIn r rs }
    ensures none { (rs : List Range) (r : Range) → tightest rs ≡ None → IsIn r rs → ⊥ }
    ensures tightest { (rs : List Range) (r s : Range) → tightest rs ≡ Some r → IsIn s rs →
        is_tighter s r ≡ false }
{}
