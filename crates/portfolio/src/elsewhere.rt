//! A search in another order of the buffers.

ghost use Rattle.std.specs.Prelude.{◌≡◌, ◌≤◌, IfOk};
ghost use Rattle.dsa_model.specs.Limits.{number_limit};
ghost use Rattle.first_fit.specs.Rules.{IsOrderOf};
ghost use Rattle.portfolio.specs.Elsewhere.{IfNoneFound, IsCarriedBack};

use crate::searching::{Searched, search};
use dsa_model::{Instance, NoMemory};
use refute_log::Decided;
use row_orders::carry_back;
use std::alloc::Global;

/// What a search in another order comes to.
#[derive(Drop)]
pub(crate) enum Elsewhere {
    /// Offsets in bytes, by the numbers of the instance.
    Layout(Vec<u64>),
    /// The capacity is refuted. The log is none of the instance, since the buffers have other
    /// numbers there.
    Refuted,
    /// The units are used up.
    Spent,
}

/// What was found in another order, and how many units that took.
#[derive(Drop)]
pub(crate) struct Found {
    pub(crate) elsewhere: Elsewhere,
    pub(crate) used: u64,
}

/// Searches the capacity, in bytes, with the buffers in another order.
pub(crate) fn search_in(
    alloc: Global,
    instance: &Instance,
    order: &[u32],
    capacity: u64,
    units: u64,
) -> Result<Found, NoMemory>
    requires order { IsOrderOf instance.now order.now }
    requires limit { capacity ≤ number_limit }
    ensures layout { IfOk result (λ found.
        IsCarriedBack instance.now capacity found.elsewhere) }
    ensures used { IfOk result (λ found. found.used ≤ units) }
    ensures exhausted { IfOk result (λ found.
        IfNoneFound found.elsewhere (found.used ≡ units)) }
{
    let _count = instance.len();
    let reordered = instance.some_of(alloc, order)?;
    let Searched { decided, used } = search(alloc, &reordered, capacity, units)?;
    match decided {
        Decided::Layout(offsets) => {
            let carried = carry_back(alloc, order, &offsets)?;
            Ok(Found {
                elsewhere: Elsewhere::Layout(carried),
                used,
            })
        }
        Decided::Refuted(_log) => Ok(Found {
            elsewhere: Elsewhere::Refuted,
            used,
        }),
        Decided::Spent => Ok(Found {
            elsewhere: Elsewhere::Spent,
            used,
        }),
    }
}
