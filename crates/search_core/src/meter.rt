//! Units of a budget.

ghost use Rattle.std.specs.Prelude.{◌≡◌, ◌+◌, ◌≤◌};
ghost use Rattle.std.specs.Bool.{MatchBool};
ghost use Rattle.search_core.specs.Meters.{AreSpent, AreWithin, HasUnit, units_counted};

use std::marker::Model;

/// All units of a budget are used, and one more claim has to be opened.
#[derive(Clone, Copy)]
pub(crate) struct Spent;

/// The units of a budget, with those that are used.
#[derive(Drop)]
pub(crate) struct Meter {
    most: Option<u64>,
    used: u64,
}

impl Model for Meter {
    ghost use Rattle.search_core.specs.Meters.{AreWithin, Units};

    ghost Value = { Units };

    ghost view = { λ m. record { most = m.most; used = m.used } };

    ghost invariant = { λ m. AreWithin (record { most = m.most; used = m.used }) };
}

impl Meter {
    /// So many units, or no number of them, and none used.
    pub(crate) fn new(most: Option<u64>) -> Meter
        ensures { result ≡ record { most = most; used = 0 } }
    {
        Meter { most, used: 0 }
    }

    /// The units used, and 0 where there is no number of them.
    pub(crate) fn used(&self) -> u64
        ensures value { result ≡ self.now.used }
        ensures within { AreWithin self.now }
    {
        self.used
    }

    /// Takes a unit, unless all of them are used.
    pub(crate) fn take(&mut self) -> bool
        ensures most { self.new.most ≡ self.old.most }
        ensures used { self.old.used ≤ self.new.used }
        ensures one { self.new.used ≤ self.old.used + 1 }
        ensures taken { MatchBool result
            (self.new.used ≡ self.old.used + units_counted self.old.most 1)
            (self.new.used ≡ self.old.used) }
        ensures spent { MatchBool result (HasUnit self.old) (AreSpent self.new) }
    {
        match self.most {
            None => true,
            Some(most) => {
                if self.used == most {
                    return false;
                }
                self.used += 1;
                true
            }
        }
    }
}
