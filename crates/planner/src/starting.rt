//! The first start that is within a capacity, and the best start.

ghost use Rattle.std.specs.Prelude.{◌≡◌, ◌<◌, ◌^◌, length, map, slice_index_or, IfOk};
ghost use Rattle.dsa_terms.specs.Starts.{lowest_place};
ghost use Rattle.first_fit.specs.Starts.{height_in};
ghost use Rattle.planner.specs.FirstStart.{IsBestStart, IsFittingOf};

use dsa_model::{Instance, NoMemory};
use first_fit::{Start, best_start, first_within, starts};
use std::alloc::Global;

/// What the starts come to at a capacity.
#[derive(Drop)]
pub(crate) enum Fitting {
    /// The offsets of the first start that is within the capacity.
    Within(Vec<u64>),
    /// No start is; this is the best one.
    Past(Start),
}

/// The first start of least height. The caller owes at least one start, and fewer than 2^32.
fn best_of(starts: Vec<Start>) -> Start
    requires some { 0 < length starts.items }
    requires few { length starts.items < 2 ^ 32 }
    ensures { let place = lowest_place (map height_in starts.items) in
        result ≡ slice_index_or starts.items place result }
{
    let mut starts = starts;
    let place = best_start(&starts) as usize;
    starts.swap_remove(place)
}

/// The best start of the instance.
pub(crate) fn best_of_starts(alloc: Global, instance: &Instance) -> Result<Start, NoMemory>
    ensures { IfOk result (IsBestStart instance.now) }
{
    let starts = starts(alloc, instance)?;
    Ok(best_of(starts))
}

/// The first start whose height is at most the capacity, and where there is none the best start.
pub(crate) fn try_starts(
    alloc: Global,
    instance: &Instance,
    capacity: u64,
) -> Result<Fitting, NoMemory>
    ensures { IfOk result (IsFittingOf instance.now capacity) }
{
    let mut starts = starts(alloc, instance)?;
    match first_within(&starts, capacity) {
        Some(place) => Ok(Fitting::Within(starts.swap_remove(place).offsets)),
        None => Ok(Fitting::Past(best_of(starts))),
    }
}
