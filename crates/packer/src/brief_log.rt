//! Logs without needless lines.

ghost use Rattle.std.specs.Prelude.{◌≡◌, ◌≤◌, ℕ, IfOk, length};
ghost use Rattle.dsa_terms.specs.Logs.{IsAccepted};
ghost use Rattle.min_capacity.specs.Brackets.{IsBracket};
ghost use Rattle.planner.specs.Decides.{IsBoundLog};
ghost use Rattle.packer.specs.Packs.{IsBetween, IsTrimmed};
ghost use Rattle.packer.specs.Reached.{IsReached};

use dsa_model::{Instance, NoMemory};
use log_trim::trim;
use min_capacity::Bracket;
use refute_log::ClosedLog;
use std::alloc::Global;

/// The log without its needless lines; a log of one line, as the bound's is, has none. The caller
/// owes that the log is accepted for the instance.
fn brief(alloc: Global, instance: &Instance, log: ClosedLog) -> Result<ClosedLog, NoMemory>
    requires { IsAccepted instance.now log }
    ensures accepted { IfOk result (IsAccepted instance.now) }
    ensures capacity { IfOk result (λ brief. brief.capacity ≡ log.capacity) }
    ensures trimmed { IfOk result IsTrimmed }
    ensures fewer { IfOk result (λ brief. length brief.lines ≤ length log.lines) }
    ensures bound { (C : ℕ) → IsBoundLog instance.now C log →
        IfOk result (IsBoundLog instance.now C) }
{
    if log.len() <= 1 {
        return Ok(log);
    }
    trim(alloc, instance, &log)
}

/// The bracket with its log without needless lines; its ends and its layout stay.
pub(crate) fn brief_bracket(
    alloc: Global,
    instance: &Instance,
    bracket: Bracket,
) -> Result<Bracket, NoMemory>
    requires { IsBracket instance.now bracket }
    ensures bracket { IfOk result (IsBracket instance.now) }
    ensures low { IfOk result (λ found. found.low ≡ bracket.low) }
    ensures high { IfOk result (λ found. found.high ≡ bracket.high) }
    ensures between { (steps : ℕ) → IsReached instance.now steps bracket →
        IfOk result (IsBetween instance.now steps) }
{
    let _count = instance.len();
    let Bracket {
        low,
        log,
        high,
        layout,
    } = bracket;
    let log = match log {
        Some(log) => Some(brief(alloc, instance, log)?),
        None => None,
    };
    Ok(Bracket {
        low,
        log,
        high,
        layout,
    })
}
