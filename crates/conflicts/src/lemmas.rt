//! A log that is asked for lines that cover.

ghost use Rattle.std.specs.Prelude.{◌≡◌, ◌≤◌, [], ◌∷◌, ◌++◌, length, Some, None, IfOk, IfSome, OnErr, OnOk};
ghost use Rattle.dsa_terms.specs.Logs.{IsLegal};
ghost use Rattle.dsa_model.specs.Fails.{UnlessNoMemory};
ghost use Rattle.dsa_model.specs.Limits.{number_limit};
ghost use Rattle.canonical_order.specs.Claims.{IsLeastOf};
ghost use Rattle.refute_log.specs.Lines.{IsWithin, line_value};
ghost use Rattle.refute_log.specs.Logs.{Belongs};
ghost use Rattle.refute_log.specs.Reasons.{first_reason};
ghost use Rattle.conflicts.specs.Covering.{IsCoveringLine};

use canonical_order::{Lows, covers};
use dsa_model::{Fail, Instance, NoMemory};
use refute_log::{Line, Log, Reason};
use std::alloc::Global;
use std::marker::Model;

/// The lines that a search has learned: a log in which a line can be looked up by what it covers.
/// Contracts see the log.
#[derive(Drop)]
pub struct Lemmas {
    log: Log,
}

impl Model for Lemmas {
    ghost use Rattle.refute_log.specs.Logs.{OpenLog};

    ghost Value = { OpenLog };

    ghost view = { λ l. l.log };
}

impl Lemmas {
    /// The lines of the log. It takes no memory; later calls take theirs as the log does.
    pub fn new(_alloc: Global, log: Log) -> Lemmas
        ensures { result ≡ log }
    {
        Lemmas { log }
    }

    /// The log.
    pub fn log(&self) -> &Log
        ensures { result.now ≡ self.now }
    {
        &self.log
    }

    /// The log, which can then be closed.
    pub fn into_log(self) -> Log
        ensures { result ≡ self }
    {
        self.log
    }

    /// Appends a line that is legal after the others and gives its number. Otherwise the lines stay
    /// as they are, and the fault is the first reason for which the line is not legal. The lines
    /// are of the instance, and the numbers of the line are within their limits: its moment below
    /// 2^62, all others at most 2^60.
    pub fn push(&mut self, instance: &Instance, line: Line) -> Result<u64, Fail<Reason>>
        requires belongs { Belongs instance.now self.old }
        requires within { IsWithin (line_value line) }
        ensures reason { let log = self.old in
            let reason = first_reason instance.now log.capacity log.lines (line_value line) in
            UnlessNoMemory result (λ _. reason ≡ None) (λ r. reason ≡ Some r) }
        ensures legal { let I = instance.now in let log = self.old in
            UnlessNoMemory result
            (λ _. IsLegal I log.capacity log.lines (line_value line))
            (λ _. IsLegal I log.capacity log.lines (line_value line) → ⊥) }
        ensures number { IfOk result (λ k. k ≡ length self.old.lines) }
        ensures appended { let lines = self.old.lines ++ line_value line ∷ [] in
            OnOk result (self.new ≡ record self.old { lines = lines }) }
        ensures belongs { Belongs instance.now self.new }
        ensures unchanged { OnErr result (self.new ≡ self.old) }
    {
        self.log.push(instance, line)
    }

    /// Appends a line that is known to be legal after the others, without judging it again, and
    /// gives its number. Without memory the lines stay as they are. The lines are of the instance,
    /// and the numbers of the line are within their limits, as for `push`.
    pub fn push_legal(&mut self, instance: &Instance, line: Line) -> Result<u64, NoMemory>
        requires belongs { Belongs instance.now self.old }
        requires within { IsWithin (line_value line) }
        requires legal { IsLegal instance.now self.old.capacity self.old.lines (line_value line) }
        ensures number { IfOk result (λ k. k ≡ length self.old.lines) }
        ensures appended { let lines = self.old.lines ++ line_value line ∷ [] in
            OnOk result (self.new ≡ record self.old { lines = lines }) }
        ensures belongs { Belongs instance.now self.new }
        ensures unchanged { OnErr result (self.new ≡ self.old) }
    {
        self.log.push_legal(instance, line)
    }

    /// The number of the least line whose claim covers the claim, and none exactly where there is
    /// none. A claim that a line of its instance's log covers has no placement.
    pub fn find<L: Lows>(&self, lows: &L) -> Option<u64>
        ensures least { let I = L.subject lows.now in let l = L.claim lows.now in
            IsLeastOf (IsCoveringLine I self.now.lines l) result }
        ensures limit { IfSome result (λ k. k ≤ number_limit) }
    {
        for k in 0..self.log.len() {
            if covers(self.log.line(k).claim(), lows) {
                return Some(k);
            }
        }
        None
    }
}
