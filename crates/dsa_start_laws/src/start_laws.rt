//! Laws of the orders, the six starts and the best of them.

ghost use Rattle.std.specs.Prelude.{Bool, ◌≡◌, ℕ, ◌<◌, ◌≤◌, ◌↔◌, List, slice_index};
ghost use Rattle.dsa_terms.specs.Buffers.{Buffer, Instance, IsInstance};
ghost use Rattle.dsa_terms.specs.Claims.{IsIn};
ghost use Rattle.dsa_terms.specs.Layouts.{IsLayout};
ghost use Rattle.dsa_terms.specs.Fits.{best_fit, first_fit};
ghost use Rattle.dsa_terms.specs.Sorts.{IsOrdered, ordered_by};
ghost use Rattle.dsa_terms.specs.Orders.{falls_by, rises_by};
ghost use Rattle.dsa_terms.specs.Starts.{best_start, lowest_place, starts};
ghost use Rattle.dsa_terms.specs.Parts.{numbers};
ghost use Rattle.dsa_terms.specs.Plans.{layout_height};
ghost use Rattle.dsa_start_laws.specs.Fitting.{HasEach};
ghost use Rattle.dsa_start_laws.specs.Ordering.{IsOrder};

/// The numbers brought into an order are ordered, they are the same numbers, and no other list has
/// both; a measure that falls or rises, ties to the smaller number, is an order.
pub fn orders_are_ordered()
    ensures order { (measure : Buffer → ℕ) (I : Instance) →
        IsOrder (falls_by measure I) × IsOrder (rises_by measure I) }
    ensures ordered { (before : ℕ → ℕ → Bool) (n : ℕ) → IsOrder before →
        IsOrdered before (ordered_by before (numbers n)) }
    ensures members { (before : ℕ → ℕ → Bool) (bs : List ℕ) (b : ℕ) →
        IsIn b (ordered_by before bs) ↔ IsIn b bs }
    ensures one { (before : ℕ → ℕ → Bool) (bs cs : List ℕ) → IsOrder before →
        IsOrdered before bs → IsOrdered before cs → ((b : ℕ) → IsIn b bs ↔ IsIn b cs) →
        bs ≡ cs }
{}

/// First-fit and best-fit of an order that has each buffer, and so each of the six starts, are
/// layouts at their height.
pub fn starts_are_layouts()
    ensures first_fit { (I : Instance) (order : List ℕ) → IsInstance I → HasEach I order →
        IsLayout I (layout_height I (first_fit I order)) (first_fit I order) }
    ensures best_fit { (I : Instance) (order : List ℕ) → IsInstance I → HasEach I order →
        IsLayout I (layout_height I (best_fit I order)) (best_fit I order) }
    ensures each { (I : Instance) (offsets : List ℕ) → IsInstance I → IsIn offsets (starts I) →
        IsLayout I (layout_height I offsets) offsets }
{}

/// The best start is a start, and none is lower; each height before the first of least height is
/// above it.
pub fn best_start_is_lowest()
    ensures start { (I : Instance) → IsIn (best_start I) (starts I) }
    ensures lowest { (I : Instance) (offsets : List ℕ) → IsIn offsets (starts I) →
        layout_height I (best_start I) ≤ layout_height I offsets }
    ensures first { (heights : List ℕ) (k : ℕ) → k < lowest_place heights →
        slice_index heights (lowest_place heights) < slice_index heights k }
{}
