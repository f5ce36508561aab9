//! A layout within a capacity, or a log by which there is none, in a number of steps.

ghost use Rattle.std.specs.Prelude.{◌≡◌, ℕ, ◌+◌, ◌-◌, ◌<◌, ◌≤◌, ◌^◌, ◌⊎◌, IfOk};
ghost use Rattle.dsa_model.specs.Limits.{number_limit};
ghost use Rattle.min_capacity.specs.Brackets.{IsBracket};
ghost use Rattle.packer.specs.Packs.{AreUsedUp, IfLeftOpen, PacksWithin, placing_steps};
ghost use Rattle.packer.specs.Reached.{IsReached};

use crate::bracketing::improved;
use crate::brief_log::brief_bracket;
use dsa_model::{Instance, NoMemory};
use min_capacity::Bracket;
use narrowing::{Tries, settle};
use planner::{Decision, plan};
use std::alloc::Global;

/// What the bracket says of the capacity. The caller owes a lower end that is at most one above it.
fn concluded(
    alloc: Global,
    instance: &Instance,
    bracket: Bracket,
    capacity: u64,
) -> Result<Decision, NoMemory>
    requires bracket { IsBracket instance.now bracket }
    requires decided { bracket.low ≤ capacity + 1 }
    ensures value { (steps : ℕ) → IsReached instance.now steps bracket →
        IfOk result (PacksWithin instance.now capacity steps) }
    ensures open { IfOk result (λ decision.
        IfLeftOpen decision ((bracket.low ≤ capacity) × (capacity < bracket.high))) }
{
    if bracket.high <= capacity {
        return Ok(Decision::Layout(bracket.layout));
    }
    let bracket = brief_bracket(alloc, instance, bracket)?;
    if bracket.low <= capacity {
        return Ok(Decision::Open(bracket));
    }
    let Bracket { log, .. } = bracket;
    match log {
        Some(log) => Ok(Decision::Refuted(log)),
        None => unreachable!(),
    }
}

/// A layout of the instance within the capacity, in bytes, or a log by which there is none; where
/// neither is found in so many steps, the ends that are reached, between which the capacity lies. A
/// step is a unit of `tries`, a claim that a search opens; placing all n buffers anew counts as
/// 1/8 + n^2/2^17 of one. A sixth of `steps` is for placings, but at most 2^16; the tries use
/// no more than the others, and it stays open only where these are used up.
///
/// The caller owes a capacity of at most 2^60, tries of the instance, which may be asked any such
/// capacity, and that the units do not pass 64 bits.
pub fn pack_within<T: Tries>(
    alloc: Global,
    instance: &Instance,
    capacity: u64,
    steps: u64,
    tries: &mut T,
) -> Result<Decision, NoMemory>
    requires capacity { capacity ≤ number_limit }
    requires subject { T.subject tries.old ≡ instance.now }
    requires within { (C : ℕ) → C ≤ number_limit → T.within tries.old C }
    requires steps { T.units tries.old + steps < 2 ^ 64 }
    ensures value { IfOk result (PacksWithin instance.now capacity steps) }
    ensures used { T.units tries.new ≤ T.units tries.old + (steps - placing_steps steps) }
    ensures exhausted { IfOk result (λ decision.
        IfLeftOpen decision (AreUsedUp steps (T.units tries.old) (T.units tries.new))) }
{
    let _count = instance.len();
    let start = match plan(alloc, instance, capacity, Some(0))? {
        Decision::Open(bracket) => bracket,
        decided => return Ok(decided),
    };
    let (start, left, _passes) = improved(alloc, instance, start, capacity, steps)?;
    if start.high <= capacity {
        return Ok(Decision::Layout(start.layout));
    }
    let bracket = settle(alloc, instance, start, capacity, left, tries)?;
    concluded(alloc, instance, bracket, capacity)
}
