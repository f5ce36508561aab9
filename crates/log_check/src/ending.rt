//! The end of a log.

ghost use Rattle.std.specs.Prelude.{◌≡◌, List, map, slice_get, Some, None, IfOk, MatchResult};
ghost use Rattle.dsa_terms.specs.Layouts.{IsInfeasible};
ghost use Rattle.dsa_terms.specs.Logs.{IsAccepted};
ghost use Rattle.refute_log.specs.Logs.{Belongs, ended};
ghost use Rattle.log_text.specs.declared.raw.RawLine.{RawLine};
ghost use Rattle.log_check.specs.Faults.{end_fault, line_of};

use crate::CheckFault;
use dsa_model::Instance;
use refute_log::{ClosedLog, Log};

/// The log with its end, where that is one of its lines and no bound of its claim is above its
/// buffer's floor; else what is wrong with the end.
pub(crate) fn close(instance: &Instance, log: Log, end: u64) -> Result<ClosedLog, CheckFault>
    requires { Belongs instance.now log }
    ensures fault { (lines : List RawLine) → log.lines ≡ map line_of lines →
        MatchResult result (λ _. end_fault instance.now end (slice_get lines end) ≡ None)
        (λ f. end_fault instance.now end (slice_get lines end) ≡ Some f) }
    ensures closed { IfOk result (λ closed. closed ≡ ended log end) }
    ensures accepted { IfOk result (λ closed. IsAccepted instance.now closed) }
    ensures infeasible { IfOk result (λ closed. IsInfeasible instance.now closed.capacity) }
{
    if end >= log.len() {
        return Err(CheckFault::EndRange { end });
    }
    if let Some(buffer) = log.line(end).claim().above_floor(instance) {
        return Err(CheckFault::EndNotWhole { end, buffer });
    }
    match log.close(instance, end) {
        Ok(closed) => Ok(closed),
        Err(_) => unreachable!(),
    }
}
