//! The lowest layout that a number of steps can find.

ghost use Rattle.std.specs.Prelude.{◌≡◌, ◌≢◌, ◌+◌, ◌-◌, ◌≤◌, None, length, IfOk};
ghost use Rattle.min_capacity.specs.Brackets.{IfOpen};
ghost use Rattle.packer.specs.Packs.{AreUsedUp, Packs, placing_steps};
ghost use Rattle.portfolio.specs.Trials.{at_start};
ghost use Rattle.dsa_plan.specs.Answers.{least_fault, least_height};
ghost use Rattle.dsa_plan.specs.Arrays.{arrays_of, instance_of, without_gaps};
ghost use Rattle.dsa_plan.specs.Faults.{arrays_fault};
ghost use Rattle.dsa_plan.specs.Packed.{IsPackAnswer, taken};

use crate::answers::LeastAnswer;
use crate::arrays::Arrays;
use crate::building::instance;
use crate::writing::written;
use dsa_model::{Instance, NoMemory};
use min_capacity::Least;
use packer::pack_least;
use portfolio::Portfolio;
use std::alloc::Global;

/// The greatest number of steps that are taken.
const STEP_LIMIT: u64 = 1 << 60;

/// The lowest layout of the instance that is found in so many steps; more than the limit are taken
/// as the limit. The searches use no more of them than those that are not for placings, and the
/// least capacity stays open only where they have used all of these.
fn packed(
    alloc: Global,
    instance: &Instance,
    steps: u64,
    tries: &mut Portfolio,
) -> Result<Least, NoMemory>
    requires unused { tries.old ≡ at_start instance.now }
    ensures value { IfOk result (Packs instance.now (taken steps)) }
    ensures used { tries.new.units ≤ tries.old.units +
        (taken steps - placing_steps (taken steps)) }
    ensures exhausted { IfOk result (λ found.
        IfOpen found (AreUsedUp (taken steps) tries.old.units tries.new.units)) }
{
    pack_least(alloc, instance, steps.min(STEP_LIMIT), tries)
}

/// The same by searches of its own.
fn packed_anew(alloc: Global, instance: &Instance, steps: u64) -> Result<Least, NoMemory>
    ensures { IfOk result (Packs instance.now (taken steps)) }
{
    let mut tries = Portfolio::new(alloc, instance)?;
    packed(alloc, instance, steps, &mut tries)
}

impl Arrays<'_> {
    /// `pack` of these buffers, which may have gaps.
    pub fn pack(&self, alloc: Global, steps: u64, offsets: &mut [u64]) -> LeastAnswer
        ensures fault { let a = arrays_of self.now in
            result ≢ LeastAnswer.NoMemory →
            least_fault result ≡ arrays_fault a (length offsets.old) }
        ensures value { let a = arrays_of self.now in
            IsPackAnswer (instance_of a) steps offsets.new result }
        ensures unchanged { least_height result ≡ None → offsets.new ≡ offsets.old }
    {
        match instance(alloc, self, offsets.len()) {
            Ok(instance) => written(packed_anew(alloc, &instance, steps), offsets),
            Err(failure) => LeastAnswer::from(failure),
        }
    }
}

/// The lowest layout of the buffers that it finds in `steps` steps, which need not be the plan, or
/// the first fault of the slices. A buffer's number is its place in each of them, and they are as
/// long as `offsets`; `Arrays` says what they hold. With `Least` and `Open` the offsets are
/// written, in bytes, one for each buffer; with any other answer they are as before.
///
/// A step is a claim that a search opens; placing all n buffers anew counts as 1/8 + n^2/2^17 of
/// one. More than 2^60 steps are taken as 2^60.
///
/// Faults come in this order: `LengthsDiffer`, `TooMany`, `BadBuffer`.
pub fn pack(
    alloc: Global,
    lower: &[u64],
    upper: &[u64],
    size: &[u64],
    alignment: &[u64],
    lowest: &[u64],
    steps: u64,
    offsets: &mut [u64],
) -> LeastAnswer
    ensures fault { let a = without_gaps lower.now upper.now size.now alignment.now lowest.now in
        result ≢ LeastAnswer.NoMemory →
        least_fault result ≡ arrays_fault a (length offsets.old) }
    ensures value { let a = without_gaps lower.now upper.now size.now alignment.now lowest.now in
        IsPackAnswer (instance_of a) steps offsets.new result }
    ensures unchanged { least_height result ≡ None → offsets.new ≡ offsets.old }
{
    Arrays::without_gaps(lower, upper, size, alignment, lowest).pack(alloc, steps, offsets)
}
