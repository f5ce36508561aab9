//! One capacity of a bracket.

ghost use Rattle.std.specs.Prelude.{◌≡◌, ◌+◌, ◌<◌, ◌≤◌, ◌^◌, ◌⊎◌, IfOk};
ghost use Rattle.min_capacity.specs.Brackets.{IsBracket};
ghost use Rattle.narrowing.specs.Narrowed.{IsDecidedAt, IsLeftOpen, IsLogPaid, IsNarrowed};

use crate::Tries;
use crate::answers::with_answer;
use dsa_model::{Instance, NoMemory};
use min_capacity::Bracket;
use refute_log::Decided;
use std::alloc::Global;

/// Tries one capacity inside a bracket, in bytes, within at most `steps` more units: with a 16th of
/// them first, and then with four times as many each time. A layout lowers the upper end to its
/// height, a log at the capacity raises the lower end to one above it, and where the units are used
/// up before, the bracket is the start's.
///
/// The caller owes that the subject is the instance, the bracket, a capacity that is inside it and
/// may be asked, and that the units do not pass 64 bits.
pub fn settle<T: Tries>(
    alloc: Global,
    instance: &Instance,
    start: Bracket,
    capacity: u64,
    steps: u64,
    tries: &mut T,
) -> Result<Bracket, NoMemory>
    requires subject { T.subject tries.old ≡ instance.now }
    requires bracket { IsBracket instance.now start }
    requires low { start.low ≤ capacity }
    requires high { capacity < start.high }
    requires within { T.within tries.old capacity }
    requires steps { T.units tries.old + steps < 2 ^ 64 }
    ensures subject { T.subject tries.new ≡ T.subject tries.old }
    ensures units { T.units tries.old ≤ T.units tries.new }
    ensures used { T.units tries.new ≤ T.units tries.old + steps }
    ensures narrowed { IfOk result (IsNarrowed instance.now start) }
    ensures settled { let all = T.units tries.old + steps in
        IfOk result (λ found. IsDecidedAt capacity found
        ⊎ (IsLeftOpen capacity start found × (T.units tries.new ≡ all))) }
    ensures log { IfOk result (IsLogPaid (T.units tries.old) (T.units tries.new) start) }
{
    let _count = instance.len();
    let last = tries.used() + steps;
    let mut slice = (steps / 16).max(1);
    while tries.used() < last {
        let limit = slice.min(last - tries.used());
        match tries.attempt(alloc, capacity, limit)? {
            Decided::Spent => slice = slice.saturating_mul(4),
            decided => return Ok(with_answer(instance, start, capacity, decided)),
        }
    }
    Ok(start)
}
