//! Which calls fail, by their numbers.

ghost use Rattle.std.specs.Prelude.{◌≡◌, [], ◌≤◌};
ghost use Rattle.dsa_outside.specs.Calls.{after_call, is_due};

use std::marker::Model;

/// The numbers of the calls that are to fail, the number of the next call, and how many calls
/// failed.
#[derive(Drop)]
pub(crate) struct Calls {
    failing: Vec<u64>,
    next: u64,
    faults: u64,
}

impl Model for Calls {
    ghost use Rattle.dsa_outside.specs.Calls.{CallState};

    ghost Value = { CallState };

    ghost view = { λ c. record { failing = c.failing.items; next = c.next; faults = c.faults } };
}

impl Calls {
    /// No call yet. The numbers of the calls that are to fail need no order.
    pub(crate) fn new(failing: Vec<u64>) -> Calls
        ensures { result ≡ record { failing = failing.items; next = 0; faults = 0 } }
    {
        Calls {
            failing,
            next: 0,
            faults: 0,
        }
    }

    /// Whether the next call is to fail.
    pub(crate) fn is_due(&self) -> bool
        ensures { result ≡ is_due self.now }
    {
        self.failing.contains(&self.next)
    }

    /// Counts the next call, and its fault where it is to fail.
    pub(crate) fn count(&mut self)
        ensures counted { self.new ≡ after_call self.old }
        ensures later { self.old.faults ≤ self.new.faults }
    {
        if self.is_due() {
            self.faults = self.faults.saturating_add(1);
        }
        self.next = self.next.saturating_add(1);
    }
}
