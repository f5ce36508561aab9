//! Laws of plans by size class.

ghost use Rattle.std.specs.Prelude.{◌≡◌, ◌≢◌, ◌^◌, ◌<◌, ◌≤◌, ℕ, List, None, Some, [], length};
ghost use Rattle.dsa_terms.specs.Buffers.{buffer, Instance, IsInstance, IsLive};
ghost use Rattle.dsa_terms.specs.Claims.{IsIn, Rises};
ghost use Rattle.dsa_terms.specs.Layouts.{IsLayout, IsLeast};
ghost use Rattle.dsa_terms.specs.Plans.{IsPeak, load};
ghost use Rattle.size_classes.specs.Classes.{class_of};
ghost use Rattle.size_classes.specs.Plain.{first_rough, IsPlain, IsPlainAt};
ghost use Rattle.size_classes.specs.Plans.{AllOf, class_height, class_plan, power_height};
ghost use Rattle.size_classes.specs.Slots.{AreMembers, IsSlotting, most_live, slot_of};

/// An instance of which no buffer is rough is plain; the first buffer that is rough has a gap, an
/// alignment above 1 or a lowest above 0, and none before it has.
pub fn smooth_is_plain()
    ensures none { (I : Instance) → first_rough I ≡ None → IsPlain I }
    ensures some { (I : Instance) (b : ℕ) → first_rough I ≡ Some b →
        (b < length I) × (IsPlainAt I b → ⊥) × ((c : ℕ) → c < b → IsPlainAt I c) }
{}

/// The class of a size is the least number of which two to the power is at least the size.
pub fn class_is_least()
    ensures fits { (size : ℕ) → size ≤ 2 ^ class_of size }
    ensures least { (size k : ℕ) → size ≤ 2 ^ k → class_of size ≤ k }
{}

/// Each member has the least slot that no member holds that is taken before it and has its upper
/// above its lower.
pub fn slots_are_least()
    ensures { (I : Instance) (members : List ℕ) → Rises members →
        IsSlotting I members (slot_of I members) }
{}

/// Members that have one slot share no moment, and there are no more slots than members that are
/// live at one moment: interval colouring.
pub fn slots_are_coloured()
    ensures apart { (I : Instance) (members : List ℕ) (b c t : ℕ) → IsInstance I →
        AreMembers I members → IsIn b members → IsIn c members → b ≢ c →
        slot_of I members b ≡ slot_of I members c →
        IsLive (buffer I b) t → IsLive (buffer I c) t → ⊥ }
    ensures few { (I : Instance) (members : List ℕ) (b : ℕ) → IsInstance I →
        AreMembers I members → IsIn b members → slot_of I members b < most_live I members }
{}

/// The plan by size class is a layout at its height, which is at most the sum of two to the power
/// of each class times its count.
pub fn class_plan_is_a_layout()
    ensures layout { (I : Instance) → IsInstance I → IsPlain I →
        IsLayout I (class_height I) (class_plan I) }
    ensures under { (I : Instance) → class_height I ≤ power_height I }
{}

/// Where all sizes are equal, the height of the plan by size class is the least capacity, and the
/// greatest load.
pub fn equal_sizes_are_least()
    ensures least { (I : Instance) (size : ℕ) → IsInstance I → IsPlain I →
        AllOf I size → IsLeast I (class_height I) }
    ensures load { (I : Instance) (size t : ℕ) → IsInstance I → IsPlain I →
        AllOf I size → IsPeak I t → class_height I ≡ load I t }
    ensures none { class_height [] ≡ 0 }
{}
