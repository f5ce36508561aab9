//! The lines of a text, taken into a log.

ghost use Rattle.std.specs.Prelude.{◌≡◌, ◌++◌, ◌∷◌, [], map, length, Some, None, OnOk, IfOk, All, option_map, ◌≤◌};
ghost use Rattle.dsa_model.specs.Fails.{UnlessNoMemory};
ghost use Rattle.dsa_model.specs.Limits.{number_limit};
ghost use Rattle.refute_log.specs.Logs.{Belongs};
ghost use Rattle.log_text.specs.RawLogs.{IsRawLineKept};
ghost use Rattle.log_text.specs.Text.{raw_line_of};
ghost use Rattle.log_check.specs.Faults.{illegal_fault, line_of, raw_reason};

use crate::CheckFault;
use crate::narrowing::line_of;
use dsa_model::{Fail, Instance};
use log_text::RawLine;
use refute_log::{Log, Reason};
use std::alloc::Global;

/// Appends the line that a text says where it is legal after the others; else the log stays, and
/// the fault is its first reason.
fn push_line(
    alloc: Global,
    instance: &Instance,
    log: &mut Log,
    line: RawLine,
) -> Result<(), Fail<Reason>>
    requires belongs { Belongs instance.now log.old }
    requires kept { IsRawLineKept line }
    ensures reason { let reason = raw_reason instance.now log.old.capacity log.old.lines line in
        UnlessNoMemory result (λ _. reason ≡ None) (λ r. reason ≡ Some r) }
    ensures appended { let lines = log.old.lines ++ line_of line ∷ [] in
        OnOk result (log.new ≡ record log.old { lines = lines }) }
    ensures text { OnOk result (raw_line_of (line_of line) ≡ line) }
    ensures belongs { Belongs instance.now log.new }
{
    let made = line_of(alloc, instance, &line)?;
    match log.push(instance, made) {
        Ok(_) => Ok(()),
        Err(fail) => Err(fail),
    }
}

/// The log of these lines; else the fault is the least line that is not legal after those before
/// it. Each line gives its memory back once it is taken.
pub(crate) fn log_of(
    alloc: Global,
    instance: &Instance,
    capacity: u64,
    lines: Vec<RawLine>,
) -> Result<Log, Fail<CheckFault>>
    requires capacity_limit { capacity ≤ number_limit }
    requires kept { All IsRawLineKept lines.items }
    ensures fault { let fault = illegal_fault instance.now capacity lines.items in
        UnlessNoMemory result (λ _. fault ≡ None) (λ f. fault ≡ Some f) }
    ensures value { let count = length instance.now in let lines = map line_of lines.items in
        IfOk result (λ log. log ≡ record { count = count; capacity = capacity; lines = lines }) }
    ensures text { IfOk result (λ _. map raw_line_of (map line_of lines.items) ≡ lines.items) }
    ensures belongs { IfOk result (λ log. Belongs instance.now log) }
{
    let mut log = Log::new(alloc, instance, capacity);
    for next in lines {
        let line = log.len();
        match push_line(alloc, instance, &mut log, next) {
            Ok(()) => {}
            Err(Fail::NoMemory) => return Err(Fail::NoMemory),
            Err(Fail::Fault(reason)) => {
                return Err(Fail::Fault(CheckFault::Illegal { line, reason }));
            }
        }
    }
    Ok(log)
}
