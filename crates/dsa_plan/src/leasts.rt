//! A layout of the least capacity.

ghost use Rattle.std.specs.Prelude.{◌≡◌, ◌≢◌, None, length};
ghost use Rattle.dsa_plan.specs.Answers.{least_fault, least_height};
ghost use Rattle.dsa_plan.specs.Arrays.{arrays_of, instance_of, without_gaps};
ghost use Rattle.dsa_plan.specs.Faults.{AreSound, arrays_fault};
ghost use Rattle.dsa_plan.specs.Plans.{IsLeastAnswer, IsFoundLeast};

use crate::answers::LeastAnswer;
use crate::arrays::Arrays;
use crate::building::instance;
use crate::writing::written;
use planner::least_capacity;
use std::alloc::Global;

impl Arrays<'_> {
    /// `plan_least` of these buffers, which may have gaps.
    pub fn plan_least(&self, alloc: Global, steps: Option<u64>, offsets: &mut [u64]) -> LeastAnswer
        ensures fault { let a = arrays_of self.now in
            result ≢ LeastAnswer.NoMemory →
            least_fault result ≡ arrays_fault a (length offsets.old) }
        ensures value { let a = arrays_of self.now in
            IsLeastAnswer (instance_of a) steps offsets.new result }
        ensures unchanged { least_height result ≡ None → offsets.new ≡ offsets.old }
        ensures least { let a = arrays_of self.now in
            steps ≡ None → result ≢ LeastAnswer.NoMemory →
            AreSound a (length offsets.old) → IsFoundLeast (instance_of a) result }
    {
        match instance(alloc, self, offsets.len()) {
            Ok(instance) => written(least_capacity(alloc, &instance, steps), offsets),
            Err(failure) => LeastAnswer::from(failure),
        }
    }
}

/// The least capacity that has a layout of the buffers, in bytes, with the layout that is planned
/// for it, or the first fault of the slices. A buffer's number is its place in each of them, and
/// they are as long as `offsets`; `Arrays` says what they hold. With `Least` and `Open` the offsets
/// are written, in bytes, one for each buffer; with any other answer they are as before.
///
/// All searches together have a budget of `steps` units, one for each claim that they open, if a
/// number is given. Where they are used up before the least capacity is known, the answer is
/// `Open`; without a number that never comes.
///
/// Faults come in this order: `LengthsDiffer`, `TooMany`, `BadBuffer`.
pub fn plan_least(
    alloc: Global,
    lower: &[u64],
    upper: &[u64],
    size: &[u64],
    alignment: &[u64],
    lowest: &[u64],
    steps: Option<u64>,
    offsets: &mut [u64],
) -> LeastAnswer
    ensures fault { let a = without_gaps lower.now upper.now size.now alignment.now lowest.now in
        result ≢ LeastAnswer.NoMemory →
        least_fault result ≡ arrays_fault a (length offsets.old) }
    ensures value { let a = without_gaps lower.now upper.now size.now alignment.now lowest.now in
        IsLeastAnswer (instance_of a) steps offsets.new result }
    ensures unchanged { least_height result ≡ None → offsets.new ≡ offsets.old }
    ensures least { let a = without_gaps lower.now upper.now size.now alignment.now lowest.now in
        steps ≡ None → result ≢ LeastAnswer.NoMemory →
        AreSound a (length offsets.old) → IsFoundLeast (instance_of a) result }
{
    Arrays::without_gaps(lower, upper, size, alignment, lowest).plan_least(alloc, steps, offsets)
}
