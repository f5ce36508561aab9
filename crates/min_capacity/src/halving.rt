//! The least capacity by halving.

ghost use Rattle.std.specs.Prelude.{◌≡◌, ℕ, ◌+◌, ◌<◌, ◌≤◌, IfOk};
ghost use Rattle.dsa_terms.specs.Layouts.{IsLeast};
ghost use Rattle.dsa_model.specs.Counts.{Rose};
ghost use Rattle.refute_log.specs.Halvings.{halving};
ghost use Rattle.min_capacity.specs.Brackets.{ArePaid, IsBracket, IsShort, Narrows, bracket_of};
ghost use Rattle.min_capacity.specs.Brackets.{IfExact, IfOpen};

use crate::{Bracket, Least};
use dsa_model::{Instance, NoMemory, height};
use refute_log::{Decided, Decider};

/// Halves the bracket until its ends meet or the decider is spent. While the lower end is below
/// the upper one the decider decides the middle, rounded down: a layout lowers the upper end to
/// its height, and a log at the middle raises the lower end to one above it. Each call is charged
/// to the decider's units.
///
/// The caller owes that the decider's subject is the instance, and the bracket: its ends in order
/// and at most 2^60, a layout of height `high`, and an accepted log at `low - 1`, or none where
/// `low` is 0.
pub fn least<D: Decider>(
    instance: &Instance,
    start: Bracket,
    decider: &mut D,
) -> Result<Least, NoMemory>
    requires subject { D.subject decider.old ≡ instance.now }
    requires bracket { IsBracket instance.now start }
    ensures subject { D.subject decider.new ≡ D.subject decider.old }
    ensures allowance { D.allowance decider.new ≡ D.allowance decider.old }
    ensures spends { D.spends decider.old ≤ D.spends decider.new }
    ensures units { D.units decider.old ≤ D.units decider.new }
    ensures used { D.units decider.new ≤ D.units decider.old
        + halving (D.most instance.now) (D.turn instance.now) start.low start.high }
    ensures idle { start.low ≡ start.high → D.units decider.new ≡ D.units decider.old }
    ensures narrowed { IfOk result (λ found.
        Narrows instance.now (D.gives instance.now) start (bracket_of found)) }
    ensures exact { IfOk result (λ found.
        IfExact found ((bracket_of found).low ≡ (bracket_of found).high)) }
    ensures least { IfOk result (λ found.
        IfExact found (IsLeast instance.now (bracket_of found).high)) }
    ensures open { IfOk result (λ found.
        IfOpen found ((bracket_of found).low < (bracket_of found).high)) }
    ensures spent { IfOk result (λ found.
        IfOpen found (Rose (D.spends decider.old) (D.spends decider.new))) }
    ensures fewer { IfOk result (λ found. IfOpen found (D.units decider.new < D.units decider.old
        + halving (D.most instance.now) (D.turn instance.now) start.low start.high)) }
    ensures exhausted { IfOk result (λ found.
        IfOpen found (D.allowance decider.old ≤ D.units decider.new)) }
    ensures left { let most = D.most instance.now in let turn = D.turn instance.now in
        IfOk result (λ found. IfOpen found (IsShort most turn
        (D.units decider.old) (D.units decider.new) start (bracket_of found))) }
    ensures charged { let charge = D.charge instance.now (D.allowance decider.old) in
        IfOk result (λ found.
        ArePaid charge (D.units decider.old) (D.units decider.new) start (bracket_of found)) }
{
    let _count = instance.len();
    let mut bracket = start;
    while bracket.low < bracket.high {
        let capacity = (bracket.low + bracket.high) / 2;
        match decider.decide(capacity)? {
            Decided::Layout(layout) => {
                bracket.high = height(instance, &layout);
                bracket.layout = layout;
            }
            Decided::Refuted(log) => {
                bracket.low = capacity + 1;
                bracket.log = Some(log);
            }
            Decided::Spent => return Ok(Least::Open(bracket)),
        }
    }
    Ok(Least::Exact(bracket))
}
