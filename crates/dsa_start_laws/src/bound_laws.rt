//! Laws of the lower bound.

ghost use Rattle.std.specs.Prelude.{◌≡◌, ◌≢◌, ℕ, ◌+◌, ◌-◌, ◌<◌, ◌≤◌, ◌⊎◌, cond, List, [], length, map};
ghost use Rattle.std.specs.Int.{next_multiple_of};
ghost use Rattle.dsa_terms.specs.Buffers.{Instance, IsInstance, IsLive, buffer, floor};
ghost use Rattle.dsa_terms.specs.Claims.{Entry, IsIn};
ghost use Rattle.dsa_terms.specs.Layouts.{IsFeasible, IsMultiple};
ghost use Rattle.dsa_terms.specs.Bounds.{bound_modulus, counted, heights, highest_at, highest_stack, line_height, lower_bound, moduli, stack, stack_line, stack_log};
ghost use Rattle.dsa_terms.specs.Lean.{IsLean};
ghost use Rattle.dsa_terms.specs.Logs.{IsAccepted, IsLegal, Line, Over, greatest};
ghost use Rattle.dsa_terms.specs.Parts.{is_empty, whole};
ghost use Rattle.dsa_terms.specs.Plans.{load};
ghost use Rattle.dsa_start_laws.specs.Piles.{counted_buffers, pile};
ghost use Rattle.dsa_start_laws.specs.Reaching.{bound_height, bound_moment, HasSections, IsReached};

/// The line of a stack, at the least height with which it is legal, is accepted at each capacity
/// below it. So the lower bound, the greatest stack of all moments, moduli and heights, is at most
/// each capacity that has a layout.
pub fn bound_is_low()
    ensures log { (I : Instance) (t H G C : ℕ) → 1 ≤ G → IsMultiple H G → C < stack I t H G →
        IsAccepted I (stack_log I t H G C) }
    ensures height { (I : Instance) (t H G C h : ℕ) (earlier : List Line) →
        IsLegal I C earlier (stack_line I t H G h) → line_height I t H G C ≤ h }
    ensures lean { (I : Instance) (t H G C : ℕ) → IsLean I (stack_log I t H G C) }
    ensures most { (I : Instance) (t H G : ℕ) → IsIn G (moduli I) → IsIn H (heights I G) →
        stack I t H G ≤ lower_bound I }
    ensures reached { (I : Instance) → (lower_bound I ≡ 0) ⊎ IsReached I (lower_bound I) }
    ensures low { (I : Instance) (C : ℕ) → IsInstance I → IsFeasible I C → lower_bound I ≤ C }
    ensures positive { (I : Instance) (t b : ℕ) → IsInstance I → b < length I →
        IsLive (buffer I b) t → 1 ≤ lower_bound I }
    ensures load { (I : Instance) (t : ℕ) → load I t ≤ lower_bound I }
{}

/// The modulus of the bound reaches it, and no lesser one does.
pub fn bound_modulus_is_least()
    ensures among { (I : Instance) → IsIn (bound_modulus I) (moduli I) }
    ensures reaches { (I : Instance) → highest_stack I (bound_modulus I) ≡ lower_bound I }
    ensures least { (I : Instance) (G : ℕ) → IsIn G (moduli I) → highest_stack I G ≡ lower_bound I →
        bound_modulus I ≤ G }
{}

/// A stack never falls where more buffers are live. So the starts of the sections come to what all
/// moments come to, and the moment and the height of the bound, which is the least there, reach it.
pub fn sections_reach_the_bound()
    ensures grows { (I : Instance) (t s H G : ℕ) →
        ((b : ℕ) → b < length I → IsLive (buffer I b) t → IsLive (buffer I b) s) →
        stack I t H G ≤ stack I s H G }
    ensures same { (I : Instance) (sections : List ℕ) (G : ℕ) → HasSections I sections →
        greatest (map (λ s. highest_at I s G) sections) ≡ highest_stack I G }
    ensures moment { (I : Instance) (sections : List ℕ) → HasSections I sections →
        1 ≤ lower_bound I → IsIn (bound_moment I sections) sections
        × (highest_at I (bound_moment I sections) (bound_modulus I) ≡ lower_bound I) }
    ensures height { (I : Instance) (sections : List ℕ) → HasSections I sections →
        1 ≤ lower_bound I → IsIn (bound_height I sections) (heights I (bound_modulus I))
        × (stack I (bound_moment I sections) (bound_height I sections) (bound_modulus I)
        ≡ lower_bound I) }
    ensures lowest { (I : Instance) (sections : List ℕ) (H : ℕ) →
        IsIn H (heights I (bound_modulus I)) →
        stack I (bound_moment I sections) H (bound_modulus I) ≡ lower_bound I →
        bound_height I sections ≤ H }
{}

/// No stack is higher than the one from the least floor of what it counts. So the floors of the
/// buffers that are live at a moment are enough heights for it.
pub fn floors_are_enough()
    ensures { (I : Instance) (t H G : ℕ) → counted I t H G ≢ [] → (e : Entry)
        × IsIn e (counted I t H G) × (stack I t H G ≤ stack I t (floor (buffer I e.0)) G) }
{}

/// What a stack counts, where it ends, its line and the least height of that line, over the numbers
/// of the buffers that are counted and their pile, which is the sum of their rounded sizes less the
/// greatest rounding.
pub fn stacks_are_piles()
    ensures counted { (I : Instance) (t H G : ℕ) →
        counted I t H G ≡ whole I (counted_buffers I t H G) }
    ensures stack { (I : Instance) (t H G : ℕ) → stack I t H G
        ≡ cond (is_empty (counted_buffers I t H G)) 0 (H + pile I t H G) }
    ensures height { (I : Instance) (t H G C : ℕ) →
        line_height I t H G C ≡ next_multiple_of (C + 1 - pile I t H G) G }
    ensures line { (I : Instance) (t H G h : ℕ) →
        stack_line I t H G h ≡ Over (map (λ b. (b, h)) (counted_buffers I t H G)) t h G }
{}
