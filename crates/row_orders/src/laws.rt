//! That the order of the buffers does not matter.

ghost use Rattle.std.specs.Prelude.{◌≡◌, ◌↔◌, ℕ, List, length};
ghost use Rattle.dsa_terms.specs.Buffers.{Instance};
ghost use Rattle.dsa_terms.specs.Layouts.{IsFeasible, IsInfeasible, IsLayout};
ghost use Rattle.dsa_terms.specs.Plans.{layout_height};
ghost use Rattle.dsa_model.specs.Chosen.{some_of};
ghost use Rattle.first_fit.specs.Rules.{IsOrderOf};
ghost use Rattle.row_orders.specs.Carried.{HasEachOnce, carried_back};

/// A layout of the buffers in another order, carried back, is a layout of the instance, and as
/// high; and the buffers fit at a capacity in the one order just where they do in the other.
pub fn orders_change_nothing()
    ensures back { (I : Instance) (order offsets : List ℕ) (C : ℕ) → IsOrderOf I order →
        IsLayout (some_of I order) C offsets → IsLayout I C (carried_back order offsets) }
    ensures height { (I : Instance) (order offsets : List ℕ) → IsOrderOf I order →
        length offsets ≡ length I →
        layout_height I (carried_back order offsets) ≡ layout_height (some_of I order) offsets }
    ensures feasible { (I : Instance) (order : List ℕ) (C : ℕ) → IsOrderOf I order →
        IsFeasible (some_of I order) C ↔ IsFeasible I C }
    ensures infeasible { (I : Instance) (order : List ℕ) (C : ℕ) → IsOrderOf I order →
        IsInfeasible (some_of I order) C ↔ IsInfeasible I C }
    ensures once { (I : Instance) (order : List ℕ) → IsOrderOf I order → HasEachOnce order }
{}
