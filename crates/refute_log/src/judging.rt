//! What is wrong with a line.

ghost use Rattle.std.specs.Prelude.{◌≡◌, IfNone, IfOk, map};
ghost use Rattle.dsa_terms.specs.Logs.{claim_of};
ghost use Rattle.canonical_order.specs.Stands.{Stands};
ghost use Rattle.refute_log.specs.Lines.{IsWithin, line_value};
ghost use Rattle.refute_log.specs.Reasons.{claim_reason, first_reason, rule_reason};

use crate::cases::cites_reason;
use crate::over::over_reason;
use crate::{Line, Reason};
use canonical_order::{Claim, LowTable};
use dsa_model::{Instance, NoMemory};
use std::alloc::Global;

/// What is wrong with a claim.
fn claim_reason(instance: &Instance, claim: &Claim) -> Option<Reason>
    ensures reason { result ≡ claim_reason instance.now claim.now }
    ensures stands { IfNone result (Stands instance.now claim.now) }
{
    if claim.len() == 0 {
        return Some(Reason::EmptyClaim);
    }
    match claim.out_of_range(instance.len()) {
        Some(b) => Some(Reason::BufferRange { buffer: b as u64 }),
        None => None,
    }
}

/// What is wrong with the numbers or the cites of a line whose claim is one of the instance.
fn rule_reason(
    alloc: Global,
    instance: &Instance,
    capacity: u64,
    lines: &[Line],
    line: &Line,
) -> Result<Option<Reason>, NoMemory>
    requires stands { Stands instance.now (claim_of (line_value line.now)) }
    requires within { IsWithin (line_value line.now) }
    ensures { let earlier = map line_value lines.now in
        IfOk result (λ reason.
        reason ≡ rule_reason instance.now capacity earlier (line_value line.now)) }
{
    match line {
        Line::Over {
            claim,
            moment,
            height,
            modulus,
        } => Ok(over_reason(instance, capacity, claim, *moment, *height, *modulus)),
        Line::Cases { claim, cites } => {
            let cites = cites.as_slice();
            if cites.len() as u64 != claim.len() as u64 {
                return Ok(Some(Reason::CitesDiffer));
            }
            let lows = LowTable::of(alloc, instance, claim)?;
            Ok(cites_reason(lines, &lows, cites))
        }
    }
}

/// The first reason for which the line is not legal after these.
pub(crate) fn first_reason(
    alloc: Global,
    instance: &Instance,
    capacity: u64,
    lines: &[Line],
    line: &Line,
) -> Result<Option<Reason>, NoMemory>
    requires { IsWithin (line_value line.now) }
    ensures reason { let earlier = map line_value lines.now in
        IfOk result (λ reason.
        reason ≡ first_reason instance.now capacity earlier (line_value line.now)) }
    ensures stands { IfOk result (λ reason.
        IfNone reason (Stands instance.now (claim_of (line_value line.now)))) }
{
    if let Some(reason) = claim_reason(instance, line.claim()) {
        return Ok(Some(reason));
    }
    rule_reason(alloc, instance, capacity, lines, line)
}
