//! Orders of the buffers with the place of each.

ghost use Rattle.std.specs.Prelude.{◌<◌, IfOk, length};
ghost use Rattle.first_fit.specs.Rules.{IsOrderOf};
ghost use Rattle.placing_search.specs.Rankings.{IsRankingOf};

use dsa_model::{Instance, NoMemory};
use std::alloc::Global;

/// An order of all buffers with the place of each.
#[derive(Drop)]
pub(crate) struct Ranking {
    /// The buffers by their places.
    pub(crate) order: Vec<u32>,
    /// The place of each buffer, by number.
    pub(crate) places: Vec<usize>,
}

impl Ranking {
    /// The order with the places.
    pub(crate) fn of(
        alloc: Global,
        instance: &Instance,
        order: Vec<u32>,
    ) -> Result<Ranking, NoMemory>
        requires { IsOrderOf instance.now order.items }
        ensures { IfOk result (IsRankingOf instance.now) }
    {
        let mut places = vec![in alloc; 0usize; instance.len() as usize]?;
        for (place, b) in order.iter().enumerate() {
            places[*b as usize] = place;
        }
        Ok(Ranking { order, places })
    }

    /// The buffers at two places change these.
    pub(crate) fn swap(&mut self, instance: &Instance, one: usize, other: usize)
        requires ranking { IsRankingOf instance.now self.old }
        requires one { one < length instance.now }
        requires other { other < length instance.now }
        ensures { IsRankingOf instance.now self.new }
    {
        self.order.swap(one, other);
        self.places[self.order[one] as usize] = one;
        self.places[self.order[other] as usize] = other;
    }
}
