//! What is asked of an instance at a capacity.

ghost use Rattle.std.specs.Prelude.{◌+◌, ◌≤◌, ℕ, IfOk};
ghost use Rattle.dsa_model.specs.Limits.{number_limit};
ghost use Rattle.core_find.specs.Found.{IsAnswer};

use dsa_model::{Instance, NoMemory};
use refute_log::ClosedLog;
use std::alloc::Global;

/// An answer.
#[derive(Drop)]
pub enum Asked {
    /// Offsets in bytes, one for each buffer in order: a layout at the capacity.
    Layout(Vec<u64>),
    /// A log that is accepted at the capacity, so no layout fits.
    Refuted(ClosedLog),
}

/// What decides capacities of any instance, each to its end. Nothing is said of it after a call but
/// how often it was asked.
pub trait Ask {
    /// How often it has been asked, of an asker that counts that.
    ghost asks: { Self → ℕ } = { λ _. 0 };

    /// A layout of the instance at the capacity in bytes, which is at most 2^60, or an accepted log
    /// at it.
    fn ask(&mut self, alloc: Global, instance: &Instance, capacity: u64) -> Result<Asked, NoMemory>
        requires { capacity ≤ number_limit }
        ensures right { IfOk result (IsAnswer instance.now capacity) }
        ensures counted { asks self.new ≤ asks self.old + 1 };
}
