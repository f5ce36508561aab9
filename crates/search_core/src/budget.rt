//! How much a search may look at.

ghost use Rattle.std.specs.Prelude.{◌≡◌, None, Some};

use std::marker::Model;

/// How many claims a search may open, in units of one claim each, if there is a number.
#[derive(Drop)]
pub struct Budget {
    most: Option<u64>,
}

impl Model for Budget {
    ghost use Rattle.std.specs.Prelude.{ℕ, Option};

    ghost Value = { Option ℕ };

    ghost view = { λ b. b.most };
}

impl Budget {
    /// Any number of claims.
    pub fn unlimited() -> Budget
        ensures { result ≡ None }
    {
        Budget { most: None }
    }

    /// `k` units: `k` claims.
    pub fn units(k: u64) -> Budget
        ensures { result ≡ Some k }
    {
        Budget { most: Some(k) }
    }

    /// The number of units, if there is one.
    pub(crate) fn most(&self) -> Option<u64>
        ensures { result ≡ self.now }
    {
        self.most
    }
}
