//! The orders in turn.

ghost use Rattle.std.specs.Prelude.{◌≡◌, ◌+◌, ◌-◌, ◌<◌, ◌≤◌, ◌^◌, IfOk};
ghost use Rattle.dsa_model.specs.Limits.{number_limit};
ghost use Rattle.refute_log.specs.Decided.{IfSpent, IsRight};
ghost use Rattle.narrowing.specs.Narrowed.{lines_of};
ghost use Rattle.portfolio.specs.Elsewhere.{IfNoneFound, IsCarriedBack, left_after};
ghost use Rattle.portfolio.specs.Trials.{at_start};

use crate::elsewhere::{Elsewhere, Found, search_in};
use crate::searching::search;
use dsa_model::{Instance, NoMemory};
use narrowing::Tries;
use refute_log::Decided;
use row_orders::{Order, in_order};
use std::alloc::Global;
use std::marker::Model;

/// Tries capacities of one instance by searches in several orders of its buffers. A layout that is
/// found in another order is carried back to the instance; a log is only that of a search in the
/// order of the instance itself, so that it needs no other numbers.
#[derive(Drop)]
pub struct Portfolio<'a> {
    instance: &'a Instance,
    orders: Vec<Vec<u32>>,
    used: u64,
    refuted: Option<u64>,
}

impl<'a> Model for Portfolio<'a> {
    ghost use Rattle.std.specs.Prelude.{◌≡◌, All, length};
    ghost use Rattle.portfolio.specs.Trials.{IsOtherOrder, Trials};

    ghost Value = { Trials };

    ghost view = { λ p. record { subject = p.instance.now; units = p.used } };

    ghost invariant = { λ p.
        All (IsOtherOrder p.instance.now) p.orders.items × (length p.orders.items ≡ 2) };
}

impl<'a> Portfolio<'a> {
    /// A portfolio that has used nothing: besides the order of the instance that by size times
    /// lifetime and that by the sizes that a buffer meets.
    pub fn new(alloc: Global, instance: &'a Instance) -> Result<Portfolio<'a>, NoMemory>
        ensures { IfOk result (λ portfolio. portfolio ≡ at_start instance.now) }
    {
        let mut orders = Vec::new(alloc);
        orders.push(in_order(alloc, instance, Order::Area)?)?;
        orders.push(in_order(alloc, instance, Order::Met)?)?;
        Ok(Portfolio {
            instance,
            orders,
            used: 0,
            refuted: None,
        })
    }

    /// Searches the capacity in the other orders, until one has an answer. Each gets the units that
    /// are left, divided by the number of searches that are still to come; the last of these is
    /// that in the order of the instance.
    fn search_elsewhere(&self, alloc: Global, capacity: u64, limit: u64) -> Result<Found, NoMemory>
        requires { capacity ≤ number_limit }
        ensures layout { IfOk result (λ found.
            IsCarriedBack self.now.subject capacity found.elsewhere) }
        ensures used { IfOk result (λ found. found.used ≤ limit) }
        ensures exhausted { IfOk result (λ found.
            IfNoneFound found.elsewhere (found.used ≡ limit - left_after 2 limit)) }
    {
        let mut left = limit;
        let mut to_come = self.orders.len() as u64 + 1;
        for order in &self.orders {
            let units = left / to_come;
            to_come -= 1;
            if units == 0 {
                continue;
            }
            let found = search_in(alloc, self.instance, order, capacity, units)?;
            left -= found.used;
            if let Elsewhere::Spent = found.elsewhere {
                continue;
            }
            return Ok(Found {
                elsewhere: found.elsewhere,
                used: limit - left,
            });
        }
        Ok(Found {
            elsewhere: Elsewhere::Spent,
            used: limit - left,
        })
    }

    /// Whether another order has refuted this capacity or a greater one.
    fn is_refuted(&self, capacity: u64) -> bool {
        match self.refuted {
            Some(refuted) => capacity <= refuted,
            None => false,
        }
    }

    /// Searches the capacity in the order of the instance itself.
    fn search_own(&mut self, alloc: Global, capacity: u64, units: u64) -> Result<Decided, NoMemory>
        requires limit { capacity ≤ number_limit }
        requires units { self.old.units + units < 2 ^ 64 }
        ensures subject { self.new.subject ≡ self.old.subject }
        ensures units { self.old.units ≤ self.new.units }
        ensures used { self.new.units ≤ self.old.units + units }
        ensures right { IfOk result (IsRight self.old.subject capacity) }
        ensures exhausted { IfOk result (λ d.
            IfSpent d (self.new.units ≡ self.old.units + units)) }
        ensures charged { IfOk result (λ d. self.old.units + lines_of d ≤ self.new.units) }
    {
        let searched = search(alloc, self.instance, capacity, units)?;
        self.used += searched.used;
        Ok(searched.decided)
    }
}

impl<'a> Tries for Portfolio<'a> {
    ghost use Rattle.std.specs.Prelude.{◌≤◌, ◌^◌};

    ghost subject = { λ p. p.subject };

    ghost units = { λ p. p.units };

    ghost within = { λ p C. C ≤ number_limit };

    fn used(&self) -> u64 {
        self.used
    }

    /// As the trait says. The other orders are searched first. Where one of them refutes the
    /// capacity, all units that are left go to the order of the instance, which has to give the
    /// log; so do all units of later calls at this capacity or a lower one.
    fn attempt(&mut self, alloc: Global, capacity: u64, limit: u64) -> Result<Decided, NoMemory> {
        if self.is_refuted(capacity) {
            return self.search_own(alloc, capacity, limit);
        }
        let found = self.search_elsewhere(alloc, capacity, limit)?;
        self.used += found.used;
        let left = limit - found.used;
        match found.elsewhere {
            Elsewhere::Layout(offsets) => Ok(Decided::Layout(offsets)),
            Elsewhere::Refuted => {
                self.refuted = Some(capacity);
                self.search_own(alloc, capacity, left)
            }
            Elsewhere::Spent => self.search_own(alloc, capacity, left),
        }
    }
}
