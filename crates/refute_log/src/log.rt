//! Logs.

ghost use Rattle.std.specs.Prelude.{◌≡◌, ◌≤◌, ◌<◌, [], ◌∷◌, ◌++◌, length, slice_get, Some, None, OnErr, OnOk, IfErr, IfOk, MatchResult};
ghost use Rattle.dsa_terms.specs.Logs.{IsAccepted, IsLegal, Line as LineTerm, claim_of};
ghost use Rattle.dsa_terms.specs.Claims.{IsWhole};
ghost use Rattle.dsa_terms.specs.Layouts.{IsInfeasible};
ghost use Rattle.dsa_terms.specs.Logs.{Log as LogTerm};
ghost use Rattle.dsa_model.specs.Fails.{UnlessNoMemory};
ghost use Rattle.dsa_model.specs.Limits.{number_limit};
ghost use Rattle.refute_log.specs.Lines.{IsLineKept, IsWithin, line_value};
ghost use Rattle.refute_log.specs.Logs.{Belongs, IsKeptLog, ended};
ghost use Rattle.refute_log.specs.Reasons.{first_reason};

use crate::judging::first_reason;
use crate::{ClosedLog, Line, Reason};
use dsa_model::{Fail, Instance, NoMemory};
use std::alloc::Global;
use std::marker::Model;

/// Lines of one instance at one capacity in bytes, each legal after those before it. So no
/// placement of a line's claim fits within the capacity. Contracts see its count of buffers, its
/// capacity and its lines.
#[derive(Drop)]
pub struct Log {
    alloc: Global,
    count: u32,
    capacity: u64,
    lines: Vec<Line>,
}

impl Model for Log {
    ghost use Rattle.std.specs.Prelude.{map};
    ghost use Rattle.refute_log.specs.Lines.{line_value};
    ghost use Rattle.refute_log.specs.Logs.{IsKeptLog, OpenLog};

    ghost Value = { OpenLog };

    ghost view = { λ g. let lines = map line_value g.lines.items in
        record { count = g.count; capacity = g.capacity; lines = lines } };

    ghost invariant = { λ g. IsKeptLog g.capacity (map line_value g.lines.items) };
}

impl Log {
    /// A log without lines, for the instance at the capacity, which is at most 2^60 bytes.
    pub fn new(alloc: Global, instance: &Instance, capacity: u64) -> Log
        requires { capacity ≤ number_limit }
        ensures value { let count = length instance.now in
            result ≡ record { count = count; capacity = capacity; lines = [] } }
        ensures belongs { Belongs instance.now result }
    {
        Log {
            alloc,
            count: instance.len(),
            capacity,
            lines: Vec::new(alloc),
        }
    }

    /// Appends a line that is legal after the others and gives its number. Otherwise the log stays
    /// as it is, and the fault is the first reason for which the line is not legal. The log is of
    /// the instance, and the numbers of the line are within their limits: its moment below 2^62,
    /// all others at most 2^60.
    pub fn push(&mut self, instance: &Instance, line: Line) -> Result<u64, Fail<Reason>>
        requires belongs { Belongs instance.now self.old }
        requires within { IsWithin (line_value line) }
        ensures reason { let log = self.old in
            let reason = first_reason instance.now log.capacity log.lines (line_value line) in
            UnlessNoMemory result (λ _. reason ≡ None) (λ r. reason ≡ Some r) }
        ensures legal { let I = instance.now in let log = self.old in
            UnlessNoMemory result
            (λ _. IsLegal I log.capacity log.lines (line_value line))
            (λ _. IsLegal I log.capacity log.lines (line_value line) → ⊥) }
        ensures number { IfOk result (λ k. k ≡ length self.old.lines) }
        ensures appended { let lines = self.old.lines ++ line_value line ∷ [] in
            OnOk result (self.new ≡ record self.old { lines = lines }) }
        ensures belongs { Belongs instance.now self.new }
        ensures unchanged { OnErr result (self.new ≡ self.old) }
    {
        let lines = self.lines.as_slice();
        let fault = first_reason(self.alloc, instance, self.capacity, lines, &line)?;
        if let Some(reason) = fault {
            return Err(Fail::Fault(reason));
        }
        Ok(self.push_legal(instance, line)?)
    }

    /// Appends a line that is known to be legal after the others, without judging it again, and
    /// gives its number. Without memory the log stays as it is. The log is of the instance, and the
    /// numbers of the line are within their limits, as for `push`.
    pub fn push_legal(&mut self, instance: &Instance, line: Line) -> Result<u64, NoMemory>
        requires belongs { Belongs instance.now self.old }
        requires within { IsWithin (line_value line) }
        requires legal { IsLegal instance.now self.old.capacity self.old.lines (line_value line) }
        ensures number { IfOk result (λ k. k ≡ length self.old.lines) }
        ensures appended { let lines = self.old.lines ++ line_value line ∷ [] in
            OnOk result (self.new ≡ record self.old { lines = lines }) }
        ensures belongs { Belongs instance.now self.new }
        ensures unchanged { OnErr result (self.new ≡ self.old) }
    {
        let _count = instance.len();
        let number = self.lines.len() as u64;
        self.lines.push(line)?;
        Ok(number)
    }

    /// The log with that line for its end, exactly where each of its bounds is at most its buffer's
    /// floor; otherwise the log as it was. A closed log is accepted, so no layout of the instance
    /// fits within its capacity. The log is of the instance, and has the line.
    pub fn close(self, instance: &Instance, end: u64) -> Result<ClosedLog, Log>
        requires belongs { Belongs instance.now self }
        requires in_log { end < length self.lines }
        ensures whole { (line : LineTerm) → slice_get self.lines end ≡ Some line →
            MatchResult result (λ _. IsWhole instance.now (claim_of line))
            (λ _. IsWhole instance.now (claim_of line) → ⊥) }
        ensures closed { IfOk result (λ closed. closed ≡ ended self end) }
        ensures accepted { IfOk result (λ closed. IsAccepted instance.now closed) }
        ensures infeasible { IfOk result (λ closed. IsInfeasible instance.now closed.capacity) }
        ensures unchanged { IfErr result (λ log. log ≡ self) }
    {
        refutes(instance);
        if self.line(end).claim().is_whole(instance) {
            Ok(ClosedLog::with_end(self, end))
        } else {
            Err(self)
        }
    }

    /// How many buffers its instance has.
    pub(crate) fn count(&self) -> u32
        ensures value { result ≡ self.now.count }
        ensures kept { IsKeptLog self.now.capacity self.now.lines }
    {
        self.count
    }

    /// The capacity, in bytes, at which its claims are refuted. It is at most 2^60.
    pub fn capacity(&self) -> u64
        ensures value { result ≡ self.now.capacity }
        ensures kept { IsKeptLog self.now.capacity self.now.lines }
    {
        self.capacity
    }

    /// How many lines it has: at most 2^60, since no more find memory.
    pub fn len(&self) -> u64
        ensures value { result ≡ length self.now.lines }
        ensures limit { result ≤ number_limit }
        ensures kept { IsKeptLog self.now.capacity self.now.lines }
    {
        self.lines.as_slice().len() as u64
    }

    /// The line of that number, which is below `len`.
    pub fn line(&self, k: u64) -> &Line
        requires { k < length self.now.lines }
        ensures value { slice_get self.now.lines k ≡ Some (line_value result.now) }
        ensures kept { IsLineKept (line_value result.now) }
    {
        &self.lines[k as usize]
    }
}

/// An accepted log of the instance leaves no layout at its capacity.
fn refutes(instance: &Instance)
    ensures { let I = instance.now in
        (log : LogTerm) → IsAccepted I log → IsInfeasible I log.capacity }
{
    let _count = instance.len();
    dsa_search_laws::accepted_log_refutes();
}
