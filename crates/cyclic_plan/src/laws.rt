//! Laws of lifetimes on a circle: what the instance of one period says of endless time.

ghost use Rattle.std.specs.Prelude.{◌≡◌, ◌+◌, ◌≤◌, ◌&&◌, ◌↔◌, nat_lt, ℕ, List, Ok, map};
ghost use Rattle.std.specs.List.{All};
ghost use Rattle.dsa_terms.specs.Buffers.{Buffer, Instance, is_live};
ghost use Rattle.dsa_terms.specs.Layouts.{IsLayout};
ghost use Rattle.dsa_model.specs.Limits.{number_limit};
ghost use Rattle.csv_instance.specs.Records.{Record};
ghost use Rattle.cyclic_plan.specs.Cycles.{IsCycleLayout, IsInPeriod, is_live_round, unrolled};
ghost use Rattle.cyclic_plan.specs.Unrolled.{IsUnrolled, unrolled_of};

/// Endless time repeats with the period.
pub fn rounds_repeat()
    ensures { (P t : ℕ) (b : Buffer) → is_live_round P b (t + P) ≡ is_live_round P b t }
{}

/// The instance of one period is live where the rows are, within that period, and has just the
/// layouts that hold at every moment of endless time.
pub fn unrolled_has_the_layouts()
    ensures live { (P t : ℕ) (b : Buffer) → IsInPeriod P b →
        is_live (unrolled P b) t ≡ (nat_lt t P && is_live_round P b t) }
    ensures layout { (P C : ℕ) (rows : List Buffer) (offsets : List ℕ) → All (IsInPeriod P) rows →
        IsLayout (map (unrolled P) rows) C offsets ↔ IsCycleLayout P C rows offsets }
{}

/// A table without a fault gives the instance of its rows, unrolled: its text parses as that
/// instance, which has just the layouts that hold at every moment of endless time.
pub fn unrolled_table_is_the_cycle()
    ensures { (P : ℕ) (table : List Record) (I : Instance) → P ≤ number_limit →
        unrolled_of P table ≡ Ok I → IsUnrolled P table I }
{}
