//! A layout within a capacity.

ghost use Rattle.std.specs.Prelude.{◌≡◌, ◌≢◌, ◌≤◌, ◌↔◌, None, length, min};
ghost use Rattle.dsa_terms.specs.Layouts.{IsFeasible, IsInfeasible};
ghost use Rattle.dsa_model.specs.Limits.{number_limit};
ghost use Rattle.dsa_plan.specs.Answers.{plan_fault};
ghost use Rattle.dsa_plan.specs.Arrays.{arrays_of, instance_of, without_gaps};
ghost use Rattle.dsa_plan.specs.Faults.{AreSound, arrays_fault};
ghost use Rattle.dsa_plan.specs.Plans.{IsAnswer};

use crate::answers::Answer;
use crate::arrays::Arrays;
use crate::building::instance;
use dsa_model::{Instance, NoMemory};
use planner::{Decision, plan};
use std::alloc::Global;

/// The greatest capacity that is asked of the planner, 2^60 bytes: each start is within it.
const CAPACITY_LIMIT: u64 = 1152921504606846976;

/// The capacity, or the limit where it is above it.
fn limited(capacity: u64) -> u64
    ensures value { result ≡ min capacity number_limit }
    ensures limit { result ≤ number_limit }
{
    if capacity < CAPACITY_LIMIT {
        capacity
    } else {
        CAPACITY_LIMIT
    }
}

/// What is answered of an instance; with `Fits` the plan is written.
fn decide(
    alloc: Global,
    instance: &Instance,
    capacity: u64,
    steps: Option<u64>,
    offsets: &mut [u64],
) -> Answer
    requires { length offsets.old ≡ length instance.now }
    ensures value { IsAnswer instance.now capacity steps offsets.new result }
    ensures no_fault { plan_fault result ≡ None }
    ensures unchanged { result ≢ Answer.Fits → offsets.new ≡ offsets.old }
{
    let _count = instance.len();
    match plan(alloc, instance, limited(capacity), steps) {
        Ok(Decision::Layout(plan)) => {
            offsets.copy_from_slice(&plan);
            Answer::Fits
        }
        Ok(Decision::Refuted(_)) => Answer::DoesNotFit,
        Ok(Decision::Open(_)) => Answer::Open,
        Err(NoMemory) => Answer::NoMemory,
    }
}

impl Arrays<'_> {
    /// `plan_at` of these buffers, which may have gaps.
    pub fn plan_at(
        &self,
        alloc: Global,
        capacity: u64,
        steps: Option<u64>,
        offsets: &mut [u64],
    ) -> Answer
        ensures fault { let a = arrays_of self.now in
            result ≢ Answer.NoMemory → plan_fault result ≡ arrays_fault a (length offsets.old) }
        ensures value { let a = arrays_of self.now in
            IsAnswer (instance_of a) capacity steps offsets.new result }
        ensures unchanged { result ≢ Answer.Fits → offsets.new ≡ offsets.old }
        ensures fits { steps ≡ None → result ≢ Answer.NoMemory →
            let a = arrays_of self.now in (result ≡ Answer.Fits) ↔
            (AreSound a (length offsets.old) × IsFeasible (instance_of a) capacity) }
        ensures does_not_fit { steps ≡ None → result ≢ Answer.NoMemory →
            let a = arrays_of self.now in (result ≡ Answer.DoesNotFit) ↔
            (AreSound a (length offsets.old) × IsInfeasible (instance_of a) capacity) }
    {
        match instance(alloc, self, offsets.len()) {
            Ok(instance) => decide(alloc, &instance, capacity, steps, offsets),
            Err(failure) => Answer::from(failure),
        }
    }
}

/// A layout of the buffers within the capacity, in bytes, or that there is none, or the first
/// fault of the slices. A buffer's number is its place in each of them, and they are as long as
/// `offsets`; `Arrays` says what they hold. With `Fits` the offsets are written, in bytes, one for
/// each buffer; with any other answer they are as before.
///
/// The search is given a budget of `steps` units, one for each claim that it opens, if a number is
/// given. `Open` comes only where they are fewer than the work that may be needed; without a number
/// it never comes.
///
/// Faults come in this order: `LengthsDiffer`, `TooMany`, `BadBuffer`. Any capacity may be given:
/// one above 2^60 is decided as 2^60 is, which has a layout of whatever the slices may tell of.
pub fn plan_at(
    alloc: Global,
    lower: &[u64],
    upper: &[u64],
    size: &[u64],
    alignment: &[u64],
    lowest: &[u64],
    capacity: u64,
    steps: Option<u64>,
    offsets: &mut [u64],
) -> Answer
    ensures fault { let a = without_gaps lower.now upper.now size.now alignment.now lowest.now in
        result ≢ Answer.NoMemory → plan_fault result ≡ arrays_fault a (length offsets.old) }
    ensures value { let a = without_gaps lower.now upper.now size.now alignment.now lowest.now in
        IsAnswer (instance_of a) capacity steps offsets.new result }
    ensures unchanged { result ≢ Answer.Fits → offsets.new ≡ offsets.old }
    ensures fits { steps ≡ None → result ≢ Answer.NoMemory →
        let a = without_gaps lower.now upper.now size.now alignment.now lowest.now in
        (result ≡ Answer.Fits) ↔
        (AreSound a (length offsets.old) × IsFeasible (instance_of a) capacity) }
    ensures does_not_fit { steps ≡ None → result ≢ Answer.NoMemory →
        let a = without_gaps lower.now upper.now size.now alignment.now lowest.now in
        (result ≡ Answer.DoesNotFit) ↔
        (AreSound a (length offsets.old) × IsInfeasible (instance_of a) capacity) }
{
    Arrays::without_gaps(lower, upper, size, alignment, lowest).plan_at(
        alloc, capacity, steps, offsets,
    )
}
