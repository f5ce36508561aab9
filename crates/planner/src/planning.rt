//! Deciding a capacity.

ghost use Rattle.std.specs.Prelude.{◌≡◌, ◌<◌, ◌≤◌, ◌↔◌, None, IfOk};
ghost use Rattle.dsa_terms.specs.Bounds.{lower_bound};
ghost use Rattle.dsa_terms.specs.Layouts.{IsFeasible, IsInfeasible};
ghost use Rattle.dsa_model.specs.Limits.{number_limit};
ghost use Rattle.planner.specs.Decisions.{Decides, IsByBound, IsByLog, IsExact, IsLaidOut};
ghost use Rattle.planner.specs.Decisions.{decision_steps};
ghost use Rattle.planner.specs.FirstStart.{IsBestStart, start_within};
ghost use Rattle.planner.specs.Openings.{AreEnough, AreGiven};

use crate::Decision;
use crate::bracketing::first_bracket;
use crate::one_stack::{bound_of, stack_refutation};
use crate::searching::search;
use crate::starting::{Fitting, try_starts};
use dsa_model::{Instance, NoMemory};
use first_fit::Start;
use lifetime::Sections;
use refute_log::Decided;
use std::alloc::Global;

/// What is decided where no start is within the capacity: the bound's log where the capacity is
/// below the bound, and else what the search comes to. Where the steps are used up it is open
/// between the bound and the best start.
fn decide_past_starts(
    alloc: Global,
    instance: &Instance,
    best: Start,
    capacity: u64,
    steps: Option<u64>,
) -> Result<Decision, NoMemory>
    requires limit { capacity ≤ number_limit }
    requires none_within { start_within instance.now capacity ≡ None }
    requires best { IsBestStart instance.now best }
    ensures value { IfOk result (Decides instance.now capacity steps) }
    ensures bound { capacity < lower_bound instance.now →
        IfOk result (IsByBound instance.now capacity) }
    ensures steps { lower_bound instance.now ≤ capacity →
        IfOk result (λ decision. AreGiven steps (decision_steps decision)) }
{
    let _count = instance.len();
    let sections = Sections::build(alloc, instance)?;
    let bound = bound_of(alloc, instance, &sections)?;
    if let Some(log) = stack_refutation(alloc, instance, bound, capacity)? {
        return Ok(Decision::Refuted(log));
    }
    match search(alloc, instance, &sections, capacity, steps)? {
        Decided::Layout(offsets) => Ok(Decision::Layout(offsets)),
        Decided::Refuted(log) => Ok(Decision::Refuted(log)),
        Decided::Spent => {
            let bracket = first_bracket(alloc, instance, bound, best)?;
            Ok(Decision::Open(bracket))
        }
    }
}

/// A layout of the instance at the capacity, in bytes, or a log by which none fits. The layout is
/// the first start that is within the capacity, and where there is none the search's. Where the
/// capacity is below the lower bound, the log is the bound's of one line, and else that of the
/// search.
///
/// The search has a budget of `steps` units, one for each claim that it opens, if a number is
/// given. Where they are used up before it has an answer, the capacity stays open between the lower
/// bound and the best start; without a number that never comes, nor with at least N(n) for n
/// buffers, N(0) being 1 and N(k) being 1 + k N(k - 1).
///
/// The caller owes a capacity of at most 2^60.
pub fn plan(
    alloc: Global,
    instance: &Instance,
    capacity: u64,
    steps: Option<u64>,
) -> Result<Decision, NoMemory>
    requires { capacity ≤ number_limit }
    ensures value { IfOk result (Decides instance.now capacity steps) }
    ensures fits { IfOk result (λ decision.
        IsLaidOut decision → IsFeasible instance.now capacity) }
    ensures refutes { IfOk result (λ decision.
        IsByLog decision → IsInfeasible instance.now capacity) }
    ensures feasible { steps ≡ None → IfOk result (λ decision.
        IsLaidOut decision ↔ IsFeasible instance.now capacity) }
    ensures infeasible { steps ≡ None → IfOk result (λ decision.
        IsByLog decision ↔ IsInfeasible instance.now capacity) }
    ensures enough { AreEnough instance.now steps → IfOk result (IsExact instance.now capacity) }
    ensures bound { capacity < lower_bound instance.now →
        IfOk result (IsByBound instance.now capacity) }
    ensures steps { start_within instance.now capacity ≡ None →
        lower_bound instance.now ≤ capacity →
        IfOk result (λ decision. AreGiven steps (decision_steps decision)) }
{
    let _count = instance.len();
    match try_starts(alloc, instance, capacity)? {
        Fitting::Within(offsets) => Ok(Decision::Layout(offsets)),
        Fitting::Past(best) => decide_past_starts(alloc, instance, best, capacity, steps),
    }
}
