//! Passes over a bracket.

ghost use Rattle.std.specs.Prelude.{◌≡◌, ◌+◌, ◌<◌, ◌≤◌, ◌^◌};

/// A pass over a bracket, upwards: capacities that stay undecided are passed over, and come again
/// in the next pass with four times as many units for each.
#[derive(Drop)]
pub(crate) struct Pass {
    /// The capacities below it were asked in this pass.
    from: u64,
    /// How many units one capacity gets, at least 1.
    slice: u64,
    ghost some: { 1 ≤ slice },
}

impl Pass {
    /// The first pass, in which a capacity gets a quarter of the units.
    pub(crate) fn new(low: u64, units: u64) -> Pass {
        Pass {
            from: low,
            slice: (units / 4).max(1),
        }
    }

    /// How many units one capacity gets.
    pub(crate) fn slice(&self) -> u64
        ensures { 1 ≤ result }
    {
        self.slice
    }

    /// The capacity to ask of a bracket with these ends: the middle of what the pass has left of
    /// it, rounded down. Where it has nothing left the next pass begins.
    pub(crate) fn next(&mut self, low: u64, high: u64) -> u64
        requires { low < high }
        ensures low { low ≤ result }
        ensures high { result < high }
    {
        self.from = self.from.max(low);
        if high <= self.from {
            self.from = low;
            self.slice = self.slice.saturating_mul(4);
        }
        self.from + (high - self.from) / 2
    }

    /// Passes over the capacity, where it is below the upper end.
    pub(crate) fn pass_over(&mut self, capacity: u64, high: u64) {
        if capacity < high {
            self.from = capacity + 1;
        }
    }
}
