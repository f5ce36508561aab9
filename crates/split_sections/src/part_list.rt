//! A list of parts.

ghost use Rattle.std.specs.Prelude.{◌≡◌, ◌<◌, [], length, map, slice_index_or};
ghost use Rattle.dsa_model.specs.Lists.{items_of};
ghost use Rattle.split_sections.specs.PartList.{ArePartsKept, AreInRange, IsPart};

use std::marker::Model;

/// The parts of an instance, each as the numbers of its buffers, in order of time.
#[derive(Drop)]
pub struct Parts {
    parts: Vec<Vec<u32>>,
}

impl Model for Parts {
    ghost use Rattle.std.specs.Prelude.{List, ℕ, map};
    ghost use Rattle.dsa_model.specs.Lists.{items_of};
    ghost use Rattle.split_sections.specs.PartList.{ArePartsKept};

    ghost Value = { List (List ℕ) };

    ghost view = { λ p. map items_of p.parts.items };

    ghost invariant = { λ p. ArePartsKept (map items_of p.parts.items) };
}

impl Parts {
    /// The parts with these buffers, in this order.
    pub(crate) fn of_lists(parts: Vec<Vec<u32>>) -> Parts
        requires { ArePartsKept (map items_of parts.items) }
        ensures { result ≡ map items_of parts.items }
    {
        Parts { parts }
    }

    /// How many parts there are.
    pub fn count(&self) -> u32
        ensures { result ≡ length self.now }
    {
        self.parts.len() as u32
    }

    /// The buffers of part p, by rising number; the caller owes that p is below the count.
    pub fn members(&self, p: u32) -> &[u32]
        requires { p < length self.now }
        ensures value { result.now ≡ slice_index_or self.now p [] }
        ensures part { IsPart result.now }
        ensures in_range { AreInRange self.now result.now }
    {
        self.parts[p as usize].as_slice()
    }
}
