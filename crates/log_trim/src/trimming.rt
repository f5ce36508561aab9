//! Trimming.

ghost use Rattle.std.specs.Prelude.{◌≡◌, ℕ, ◌+◌, ◌<◌, length, IfOk};
ghost use Rattle.dsa_terms.specs.Claims.{Claim as ClaimTerm};
ghost use Rattle.dsa_terms.specs.Logs.{IsAccepted};
ghost use Rattle.dsa_terms.specs.Trims.{IsCited, IsTrimOf};
ghost use Rattle.dsa_trim_laws.specs.Trimmed.{kept_lines, needed, trimmed};
ghost use Rattle.refute_log.specs.Logs.{Belongs};
ghost use Rattle.log_trim.specs.Ends.{IsEndClaim};
ghost use Rattle.log_trim.specs.Marks.{marks_of};

use crate::marking::needed;
use crate::moving::moved_line;
use dsa_model::{Instance, NoMemory};
use refute_log::{ClosedLog, Log};
use std::alloc::Global;

/// The marked lines in order, on a log of their own, with their cites renumbered: the number of a
/// line is how many marked ones come before it. The marks are those of the lines that the end
/// needs.
fn kept(
    alloc: Global,
    instance: &Instance,
    log: &ClosedLog,
    marks: &[bool],
) -> Result<Log, NoMemory>
    requires accepted { IsAccepted instance.now log.now }
    requires legal { IsAccepted instance.now (trimmed log.now) }
    requires marks { marks.now ≡ marks_of (length log.now.lines) (needed log.now) }
    ensures lines { let lines = kept_lines (needed log.now) log.now.lines in
        IfOk result (λ kept. kept.lines ≡ lines) }
    ensures capacity { IfOk result (λ kept. kept.capacity ≡ log.now.capacity) }
    ensures belongs { IfOk result (λ kept. Belongs instance.now kept) }
{
    let mut kept = Log::new(alloc, instance, log.capacity());
    let mut numbers = Vec::new(alloc);
    for k in 0..log.len() {
        numbers.push(kept.len())?;
        if marks[k as usize] {
            let line = moved_line(alloc, log.line(k), &numbers)?;
            kept.push_legal(instance, line)?;
        }
    }
    Ok(kept)
}

/// The log without the lines that its end does not need. What stays is the end's line and each line
/// that one which stays cites, in order, with cites renumbered; the end's line is the last. The
/// caller owes that the log is accepted for the instance.
pub fn trim(alloc: Global, instance: &Instance, log: &ClosedLog) -> Result<ClosedLog, NoMemory>
    requires { IsAccepted instance.now log.now }
    ensures value { IfOk result (IsTrimOf log.now) }
    ensures accepted { IfOk result (λ t. IsAccepted instance.now t) }
    ensures capacity { IfOk result (λ t. t.capacity ≡ log.now.capacity) }
    ensures end { (l : ClaimTerm) → IsEndClaim log.now l → IfOk result (λ t. IsEndClaim t l) }
    ensures last { IfOk result (λ t. t.final + 1 ≡ length t.lines) }
    ensures cited { IfOk result (λ t. (k : ℕ) → k + 1 < length t.lines → IsCited t.lines k) }
    ensures again { IfOk result (λ t. IsTrimOf t t) }
{
    dsa_trim_laws::trimming();
    let marks = needed(alloc, log)?;
    let kept = kept(alloc, instance, log, &marks)?;
    let end = kept.len() - 1;
    match kept.close(instance, end) {
        Ok(trimmed) => Ok(trimmed),
        Err(_) => unreachable!(),
    }
}
