//! The lowest layout that a number of steps can find.

ghost use Rattle.std.specs.Prelude.{◌≡◌, ◌+◌, ◌-◌, ◌<◌, ◌≤◌, ◌^◌, ℕ, IfOk};
ghost use Rattle.dsa_model.specs.Limits.{number_limit};
ghost use Rattle.min_capacity.specs.Brackets.{IfOpen};
ghost use Rattle.packer.specs.Packs.{AreUsedUp, Packs, placing_steps};

use crate::bracketing::improved;
use crate::brief_log::brief_bracket;
use dsa_model::{Instance, NoMemory};
use min_capacity::Least;
use narrowing::{Tries, narrow};
use planner::least_capacity;
use std::alloc::Global;

/// The lowest layout of the instance that so many steps can find, with a log by which none fits
/// below the lower end: the least capacity where the ends meet, and else they stay open, the lower
/// end at least the lower bound and the upper one at most the best start's height.
///
/// A step is a unit of `tries`, a claim that a search opens; placing all n buffers anew counts as
/// 1/8 + n^2/2^17 of one. A sixth of `steps` is for placings, but at most 2^16; the tries use
/// no more than the others, and it stays open only where these are used up.
///
/// The caller owes tries of the instance, which may be asked any capacity of at most 2^60, and that
/// the units do not pass 64 bits.
pub fn pack_least<T: Tries>(
    alloc: Global,
    instance: &Instance,
    steps: u64,
    tries: &mut T,
) -> Result<Least, NoMemory>
    requires subject { T.subject tries.old ≡ instance.now }
    requires within { (C : ℕ) → C ≤ number_limit → T.within tries.old C }
    requires steps { T.units tries.old + steps < 2 ^ 64 }
    ensures value { IfOk result (Packs instance.now steps) }
    ensures used { T.units tries.new ≤ T.units tries.old + (steps - placing_steps steps) }
    ensures exhausted { IfOk result (λ found.
        IfOpen found (AreUsedUp steps (T.units tries.old) (T.units tries.new))) }
{
    let _count = instance.len();
    let start = match least_capacity(alloc, instance, Some(0))? {
        Least::Exact(bracket) => return Ok(Least::Exact(bracket)),
        Least::Open(bracket) => bracket,
    };
    let floor = start.low;
    let (start, left, _passes) = improved(alloc, instance, start, floor, steps)?;
    match narrow(alloc, instance, start, left, tries)? {
        Least::Exact(bracket) => Ok(Least::Exact(brief_bracket(alloc, instance, bracket)?)),
        Least::Open(bracket) => Ok(Least::Open(brief_bracket(alloc, instance, bracket)?)),
    }
}
