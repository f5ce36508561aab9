//! The bracket from which the least capacity is sought.

ghost use Rattle.std.specs.Prelude.{IfOk};
ghost use Rattle.dsa_terms.specs.Bounds.{lower_bound};
ghost use Rattle.planner.specs.FirstBracket.{IsFirstBracket, IsLogBelow, IsLowerBound};
ghost use Rattle.planner.specs.FirstStart.{IsBestStart};

use crate::one_stack::stack_refutation;
use dsa_model::{Instance, NoMemory};
use first_fit::Start;
use lower_bounds::Bound;
use min_capacity::Bracket;
use refute_log::ClosedLog;
use std::alloc::Global;

/// The log of one line that refutes one less than the lower bound; none where the bound is 0.
fn log_below(
    alloc: Global,
    instance: &Instance,
    bound: Bound,
) -> Result<Option<ClosedLog>, NoMemory>
    requires { IsLowerBound instance.now bound }
    ensures { IfOk result (IsLogBelow instance.now (lower_bound instance.now)) }
{
    match bound.capacity.checked_sub(1) {
        Some(capacity) => stack_refutation(alloc, instance, bound, capacity),
        None => Ok(None),
    }
}

/// The bracket between the lower bound and the best start.
pub(crate) fn first_bracket(
    alloc: Global,
    instance: &Instance,
    bound: Bound,
    best: Start,
) -> Result<Bracket, NoMemory>
    requires bound { IsLowerBound instance.now bound }
    requires best { IsBestStart instance.now best }
    ensures { IfOk result (IsFirstBracket instance.now) }
{
    let log = log_below(alloc, instance, bound)?;
    Ok(Bracket {
        low: bound.capacity,
        log,
        high: best.height,
        layout: best.offsets,
    })
}
