//! Slots that are taken up to a moment and come back then.

ghost use Rattle.std.specs.Prelude.{◌≡◌, ◌<◌, ◌^◌, ◌-◌, IfOk, OnOk};
ghost use Rattle.size_classes.specs.Pools.{IsReleased, IsTaken, IsTakenOut, no_slots};

use std::alloc::{AllocError, Global};
use std::collections::BTreeSet;
use std::marker::Model;

/// The slots in use, each after the moment at which it comes back, and those that came back. A slot
/// of the count or above was never taken.
#[derive(Drop)]
pub(crate) struct Pool {
    busy: BTreeSet<(u64, u32)>,
    free: BTreeSet<u32>,
    count: u32,
}

impl Model for Pool {
    ghost use Rattle.size_classes.specs.Pools.{IsPool, Pool as PoolTerm, pool_of};

    ghost Value = { PoolTerm };

    ghost view = { λ p. pool_of p.busy.keys p.free.keys p.count };

    ghost invariant = { λ p. IsPool (pool_of p.busy.keys p.free.keys p.count) };
}

impl Pool {
    /// A pool from which no slot was taken yet. It takes no memory; later calls take theirs from
    /// `alloc`.
    pub(crate) fn new(alloc: Global) -> Pool
        ensures { result ≡ no_slots }
    {
        Pool {
            busy: BTreeSet::new(alloc),
            free: BTreeSet::new(alloc),
            count: 0,
        }
    }

    /// Takes back the slots that are in use up to the moment or less.
    pub(crate) fn release(&mut self, moment: u64) -> Result<(), AllocError>
        ensures { OnOk result (IsReleased moment self.old self.new) }
    {
        while let Some(first) = self.busy.first() {
            let (end, slot) = *first;
            if moment < end {
                break;
            }
            self.busy.pop_first();
            self.free.insert(slot)?;
        }
        Ok(())
    }

    /// The least slot that can be taken.
    fn next_slot(&mut self) -> u32
        requires { self.old.count < 2 ^ 32 - 1 }
        ensures out { IsTakenOut result self.old self.new }
        ensures busy { self.new.busy ≡ self.old.busy }
    {
        match self.free.pop_first() {
            Some(slot) => slot,
            None => {
                let slot = self.count;
                self.count += 1;
                slot
            }
        }
    }

    /// The least slot that can be taken; it is in use up to the end from now on.
    ///
    /// The caller owes that fewer than 2^32 - 1 slots were ever taken.
    pub(crate) fn take(&mut self, end: u64) -> Result<u32, AllocError>
        requires { self.old.count < 2 ^ 32 - 1 }
        ensures { IfOk result (λ slot. IsTaken end slot self.old self.new) }
    {
        let slot = self.next_slot();
        self.busy.insert((end, slot))?;
        Ok(slot)
    }
}
