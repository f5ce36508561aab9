//! A claim whose lows are written down.

ghost use Rattle.std.specs.Prelude.{◌≡◌, ◌<◌, ℕ, IfOk, length};
ghost use Rattle.canonical_order.specs.Claims.{HasBuffer};
ghost use Rattle.canonical_order.specs.Levels.{AreLevels, AreLevels-prop};
ghost use Rattle.canonical_order.specs.Stands.{Stands};

use crate::{Claim, Lows};
use dsa_model::{Instance, NoMemory};
use std::alloc::Global;

/// A claim beside its instance, with its lows written down, so that to find one takes no search in
/// the claim.
#[derive(Drop)]
pub struct LowTable<'a> {
    /// The instance.
    pub instance: &'a Instance,
    /// A claim of it.
    pub claim: &'a Claim,
    levels: Vec<u64>,
    ghost in_range: { (b : ℕ) → HasBuffer claim.now b → b < length instance.now },
    ghost filled: { AreLevels instance.now claim.now levels.items } by { AreLevels-prop },
}

impl<'a> LowTable<'a> {
    /// The table of a claim of the instance, with a place for each of the instance's buffers.
    pub fn of(
        alloc: Global,
        instance: &'a Instance,
        claim: &'a Claim,
    ) -> Result<LowTable<'a>, NoMemory>
        requires { Stands instance.now claim.now }
        ensures instance { IfOk result (λ lows. lows.instance.now ≡ instance.now) }
        ensures claim { IfOk result (λ lows. lows.claim.now ≡ claim.now) }
    {
        let mut levels = vec![in alloc; 0; instance.len() as usize]?;
        for pair in claim.pairs() {
            let low = instance.buffer(pair.0).least_offset(pair.1);
            levels[pair.0 as usize] = low + 1;
        }
        Ok(LowTable {
            instance,
            claim,
            levels,
        })
    }
}

impl Lows for LowTable<'_> {
    ghost subject = { λ t. t.instance.now };

    ghost claim = { λ t. t.claim.now };

    fn instance(&self) -> &Instance {
        let _count = self.instance.len();
        let _pairs = self.claim.len();
        self.instance
    }

    fn is_free(&self, b: u32) -> bool {
        let _count = self.instance.len();
        let _pairs = self.claim.len();
        let place = b as usize;
        if place < self.levels.len() {
            self.levels[place] > 0
        } else {
            false
        }
    }

    fn low(&self, b: u32) -> u64 {
        let _count = self.instance.len();
        let _pairs = self.claim.len();
        self.levels[b as usize] - 1
    }
}
