//! Checking a log.

ghost use Rattle.std.specs.Prelude.{◌≡◌, Some, IfOk};
ghost use Rattle.dsa_terms.specs.Layouts.{IsInfeasible};
ghost use Rattle.dsa_terms.specs.Logs.{IsAccepted, Log};
ghost use Rattle.dsa_model.specs.Fails.{UnlessNoMemory};
ghost use Rattle.log_text.specs.RawLogs.{IsRawKept};
ghost use Rattle.log_text.specs.Text.{raw_log_of};
ghost use Rattle.log_check.specs.Faults.{check_fault};
ghost use Rattle.log_check.specs.declared.fault.CheckFault.{CheckFault as FaultTerm};

use crate::CheckFault;
use crate::ending::close;
use crate::lines::log_of;
use dsa_model::{Fail, Instance};
use log_text::RawLog;
use refute_log::ClosedLog;
use std::alloc::Global;

/// The log with all its lines and its end, or the first of its faults.
fn closed_log(
    alloc: Global,
    instance: &Instance,
    raw: RawLog,
) -> Result<ClosedLog, Fail<CheckFault>>
    requires kept { IsRawKept raw }
    ensures accepted { IfOk result (λ log. IsAccepted instance.now log) }
    ensures same { UnlessNoMemory result (λ log. raw_log_of log ≡ raw)
        (λ fault. check_fault instance.now raw ≡ Some fault) }
    ensures refuted { IfOk result (λ log. IsInfeasible instance.now log.capacity) }
{
    let actual = instance.len();
    if raw.count != actual as u64 {
        let said = raw.count;
        return Err(Fail::Fault(CheckFault::WrongCount { said, actual }));
    }
    let log = match log_of(alloc, instance, raw.capacity, raw.lines.into_vec()) {
        Ok(log) => log,
        Err(fail) => return Err(fail),
    };
    match close(instance, log, raw.end) {
        Ok(closed) => Ok(closed),
        Err(fault) => Err(Fail::Fault(fault)),
    }
}

/// The log, exactly where it is accepted for the instance, or the first of its faults: the count,
/// the least line that is not legal after those before it with its first reason, the end's number,
/// the end's bounds. An accepted log means that no layout fits within its capacity (in bytes).
///
/// The caller owes what the reader of texts gives: claims that are not empty, claims and cites that
/// rise, and numbers within their limits. Each line is looked at once, after those before it.
pub fn check(alloc: Global, instance: &Instance, raw: RawLog) -> Result<ClosedLog, Fail<CheckFault>>
    requires kept { IsRawKept raw }
    ensures accepted { UnlessNoMemory result (λ log. IsAccepted instance.now log)
        (λ _. (log : Log) → raw_log_of log ≡ raw → IsAccepted instance.now log → ⊥) }
    ensures same { UnlessNoMemory result (λ log. raw_log_of log ≡ raw)
        (λ fault. check_fault instance.now raw ≡ Some fault) }
    ensures refuted { IfOk result (λ log. IsInfeasible instance.now log.capacity) }
    ensures complete { (log : Log) → raw_log_of log ≡ raw → IsAccepted instance.now log →
        UnlessNoMemory result (λ found. found ≡ log) (λ _. ⊥) }
    ensures cause { (fault : FaultTerm) → check_fault instance.now raw ≡ Some fault →
        UnlessNoMemory result (λ _. ⊥) (λ found. found ≡ fault) }
{
    closed_log(alloc, instance, raw)
}
