//! A bracket made narrower.

ghost use Rattle.std.specs.Prelude.{◌≡◌, ◌+◌, ◌<◌, ◌≤◌, ◌^◌, IfOk};
ghost use Rattle.dsa_terms.specs.Layouts.{IsLeast};
ghost use Rattle.min_capacity.specs.Brackets.{IfExact, IfOpen, IsBracket, bracket_of};
ghost use Rattle.narrowing.specs.Narrowed.{IsLogPaid, IsNarrowed, MayBeAsked};

use crate::Tries;
use crate::answers::with_answer;
use crate::pass::Pass;
use dsa_model::{Instance, NoMemory};
use min_capacity::{Bracket, Least};
use std::alloc::Global;

/// Makes a bracket round the least capacity narrower within at most `steps` more units: Exact
/// where the ends meet, and Open where the units are used up before. Only capacities inside the
/// bracket are asked, and a layout or a log is kept as soon as it comes.
///
/// The caller owes that the subject is the instance, the bracket, that each capacity inside it may
/// be asked, and that the units do not pass 64 bits.
pub fn narrow<T: Tries>(
    alloc: Global,
    instance: &Instance,
    start: Bracket,
    steps: u64,
    tries: &mut T,
) -> Result<Least, NoMemory>
    requires subject { T.subject tries.old ≡ instance.now }
    requires bracket { IsBracket instance.now start }
    requires within { MayBeAsked (T.within tries.old) start }
    requires steps { T.units tries.old + steps < 2 ^ 64 }
    ensures subject { T.subject tries.new ≡ T.subject tries.old }
    ensures units { T.units tries.old ≤ T.units tries.new }
    ensures used { T.units tries.new ≤ T.units tries.old + steps }
    ensures narrowed { IfOk result (λ found. IsNarrowed instance.now start (bracket_of found)) }
    ensures exact { IfOk result (λ found.
        IfExact found ((bracket_of found).low ≡ (bracket_of found).high)) }
    ensures least { IfOk result (λ found.
        IfExact found (IsLeast instance.now (bracket_of found).high)) }
    ensures open { IfOk result (λ found.
        IfOpen found ((bracket_of found).low < (bracket_of found).high)) }
    ensures exhausted { IfOk result (λ found.
        IfOpen found (T.units tries.new ≡ T.units tries.old + steps)) }
    ensures log { IfOk result (λ found.
        IsLogPaid (T.units tries.old) (T.units tries.new) start (bracket_of found)) }
{
    let _count = instance.len();
    let last = tries.used() + steps;
    let mut bracket = start;
    let mut pass = Pass::new(bracket.low, steps);
    while bracket.low < bracket.high {
        let left = last - tries.used();
        if left == 0 {
            return Ok(Least::Open(bracket));
        }
        let capacity = pass.next(bracket.low, bracket.high);
        let decided = tries.attempt(alloc, capacity, pass.slice().min(left))?;
        bracket = with_answer(instance, bracket, capacity, decided);
        pass.pass_over(capacity, bracket.high);
    }
    Ok(Least::Exact(bracket))
}
