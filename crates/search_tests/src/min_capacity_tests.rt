//! `least` over a decider with two answers that were prepared.

ghost use Rattle.std.specs.Prelude.{◌≡◌, ◌≤◌, ⊤, IfSome, IsTrue};
ghost use Rattle.dsa_terms.specs.Logs.{IsAccepted};
ghost use Rattle.dsa_model.specs.Limits.{number_limit};
ghost use Rattle.min_capacity.specs.Brackets.{IsBracket};
ghost use Rattle.search_tests.specs.Prepared.{AreRight, IsOfTwelve, twelve_from_twelve};

use crate::instances::{FIVE, instance_of};
use canonical_order::Claim;
use dsa_model::{Instance, NoMemory, height, judge};
use min_capacity::{Bracket, Least, least};
use refute_log::{ClosedLog, Decided, Decider, Line, Log};
use std::alloc::Global;
use std::marker::Model;

/// A layout at 12 and a log at 11.
#[derive(Drop)]
struct Answers {
    layout: Vec<u64>,
    log: ClosedLog,
}

/// Its first call answers the layout at 12 or more and the log at 11. Each other call is spent.
#[derive(Drop)]
struct Prepared<'a> {
    instance: &'a Instance,
    answers: Option<Answers>,
    spends: u64,
}

impl<'a> Model for Prepared<'a> {
    ghost use Rattle.std.specs.Prelude.{⊤, MatchOption};
    ghost use Rattle.search_tests.specs.Prepared.{AreRight, PreparedValue};

    ghost Value = { PreparedValue };

    ghost view = { λ p. record { subject = p.instance.now; spends = p.spends } };

    ghost invariant = { λ p. MatchOption p.answers ⊤
        (λ a. AreRight p.instance.now a.layout.items a.log) };
}

impl<'a> Prepared<'a> {
    fn new(instance: &'a Instance, answers: Answers) -> Prepared<'a>
        requires { AreRight instance.now answers.layout.items answers.log }
        ensures { result ≡ record { subject = instance.now; spends = 0 } }
    {
        Prepared {
            instance,
            answers: Some(answers),
            spends: 0,
        }
    }

    fn spends(&self) -> u64
        ensures { result ≡ self.now.spends }
    {
        self.spends
    }
}

impl Decider for Prepared<'_> {
    ghost subject = { λ p. p.subject };

    ghost spends = { λ p. p.spends };

    ghost units = { λ _. 0 };

    ghost allowance = { λ _. 0 };

    ghost gives = { λ _ _ _. ⊤ };

    ghost most = { λ _ _. 1 };

    ghost turn = { λ _ C. twelve_from_twelve C };

    ghost charge = { λ _ _ _. 0 };

    fn decide(&mut self, capacity: u64) -> Result<Decided, NoMemory> {
        let _count = self.instance.len();
        if let Some(Answers { layout, log }) = self.answers.take() {
            if capacity >= 12 {
                return Ok(Decided::Layout(layout));
            }
            if capacity == 11 {
                return Ok(Decided::Refuted(log));
            }
        }
        self.spends = self.spends.saturating_add(1);
        Ok(Decided::Spent)
    }
}

/// The log of one line at the capacity: buffers 0, 2 and 4 are too large together.
fn log_at(alloc: Global, five: &Instance, capacity: u64) -> Option<ClosedLog>
    requires { capacity ≤ number_limit }
    ensures { IfSome result (λ log. IsAccepted five.now log × (log.capacity ≡ capacity)) }
{
    let claim = Claim::from_pairs(alloc, &[(0, 0), (2, 0), (4, 0)]).ok()?;
    let mut log = Log::new(alloc, five, capacity);
    let line = Line::Over {
        claim,
        moment: 0,
        height: 0,
        modulus: 1,
    };
    let end = log.push(five, line).ok()?;
    log.close(five, end).ok()
}

/// Whether the offsets are a layout of height 12.
fn is_of_twelve(instance: &Instance, layout: &[u64]) -> bool
    ensures { IsTrue result → IsOfTwelve instance.now layout.now }
{
    judge(instance, 12, layout).is_ok() && height(instance, layout) == 12
}

/// The layout at 12.
fn laid(alloc: Global, five: &Instance) -> Option<Vec<u64>>
    ensures { IfSome result (λ layout. IsOfTwelve five.now layout.items) }
{
    let layout = [0u64, 0, 4, 0, 8].to_vec(alloc).ok()?;
    if is_of_twelve(five, &layout) {
        Some(layout)
    } else {
        None
    }
}

/// The bracket between the lower end and 12, with the log below the lower end.
fn start_from(alloc: Global, five: &Instance, low: u64) -> Option<Bracket>
    requires { low ≤ 12 }
    ensures { IfSome result (IsBracket five.now) }
{
    let layout = laid(alloc, five)?;
    let log = if low == 0 {
        None
    } else {
        Some(log_at(alloc, five, low - 1)?)
    };
    Some(Bracket {
        low,
        log,
        high: 12,
        layout,
    })
}

/// The prepared decider.
fn decider_of<'a>(alloc: Global, five: &'a Instance) -> Option<Prepared<'a>>
    ensures { IfSome result (λ decider. decider.subject ≡ five.now) }
{
    let layout = laid(alloc, five)?;
    let log = log_at(alloc, five, 11)?;
    Some(Prepared::new(five, Answers { layout, log }))
}

/// Whether the ends have met, and the ends.
fn ends_of(found: &Least) -> (bool, u64, u64) {
    match found {
        Least::Exact(bracket) => (true, bracket.low, bracket.high),
        Least::Open(bracket) => (false, bracket.low, bracket.high),
    }
}

/// The same of what is found from the bracket, and how often the decider is spent.
fn told(five: &Instance, start: Bracket, decider: &mut Prepared) -> Option<(bool, u64, u64, u64)>
    requires subject { decider.old.subject ≡ five.now }
    requires bracket { IsBracket five.now start }
{
    match least(five, start, decider) {
        Ok(found) => {
            let (exact, low, high) = ends_of(&found);
            Some((exact, low, high, decider.spends()))
        }
        Err(_) => None,
    }
}

/// The same from the bracket between the lower end and 12.
fn told_from(alloc: Global, five: &Instance, low: u64) -> Option<(bool, u64, u64, u64)>
    requires { low ≤ 12 }
{
    match decider_of(alloc, five) {
        Some(mut decider) => told(five, start_from(alloc, five, low)?, &mut decider),
        None => None,
    }
}

#[test]
fn the_least_of_five_buffers_is_decided_once_or_stays_open(rt: HostRuntime) {
    let five = instance_of(rt.alloc(), FIVE).expect(&rt, "memory");
    assert!(rt; told_from(rt.alloc(), &five, 12) == Some((true, 12, 12, 0)));
    assert!(rt; told_from(rt.alloc(), &five, 11) == Some((true, 12, 12, 0)));
    assert!(rt; told_from(rt.alloc(), &five, 0) == Some((false, 0, 12, 1)));
}
