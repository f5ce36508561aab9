//! Eased lines, which cover no less.

ghost use Rattle.std.specs.Prelude.{◌≡◌, ◌≢◌, ◌<◌, ◌≤◌, ℕ, [], IfOk, IfSome, length, map};
ghost use Rattle.std.specs.List.{AllZip};
ghost use Rattle.dsa_terms.specs.Claims.{Covers};
ghost use Rattle.dsa_terms.specs.Lean.{IsLeanLine};
ghost use Rattle.dsa_terms.specs.Logs.{IsLegal, IsLegalCite, claim_of};
ghost use Rattle.dsa_model.specs.Limits.{number_limit};
ghost use Rattle.canonical_order.specs.Claims.{HasBuffer, IsBoundedBy};
ghost use Rattle.canonical_order.specs.Stands.{Stands};
ghost use Rattle.refute_log.specs.Lines.{IsWithin, cite_value, line_value};
ghost use Rattle.refute_log.specs.Logs.{Belongs};
ghost use Rattle.conflicts.specs.Eased.{IsLowerCases};
ghost use Rattle.conflicts.specs.Easing.{IsEasedFrom};

use crate::cites::eased_cites;
use crate::lowering::lowered;
use crate::needs::{are_legal, needed};
use crate::parts::part_of;
use crate::stack::ease_over;
use canonical_order::{Claim, LowTable};
use dsa_model::{Instance, NoMemory};
use refute_log::{Cite, Line, Log};
use std::alloc::Global;

/// The Cases line of the claim with cites of other buffers wherever they are legal, and none where
/// another cite is not legal.
fn legal_line(
    alloc: Global,
    instance: &Instance,
    log: &Log,
    claim: Claim,
    cites: &[Cite],
) -> Result<Option<Line>, NoMemory>
    requires stands { Stands instance.now claim }
    requires some { 0 < length claim }
    requires bounds { IsBoundedBy number_limit claim }
    requires each { length cites.now ≡ length claim }
    ensures { IfOk result (λ answer. IfSome answer (λ line.
        IsLowerCases instance.now log.now.lines claim (line_value line))) }
{
    let lows = LowTable::of(alloc, instance, &claim)?;
    let eased = eased_cites(alloc, &lows, cites)?;
    let legal = are_legal(log, &lows, eased.as_slice());
    drop(lows);
    if legal {
        Ok(Some(Line::Cases {
            claim,
            cites: eased,
        }))
    } else {
        Ok(None)
    }
}

/// The line of a part of the claim, with the bounds that its cites need, or else with those that it
/// has. None where the part turns out to need more.
fn eased_part(
    alloc: Global,
    instance: &Instance,
    log: &Log,
    claim: &Claim,
    cites: &[Cite],
) -> Result<Option<Line>, NoMemory>
    requires stands { Stands instance.now claim.now }
    requires some { 0 < length claim.now }
    requires bounds { IsBoundedBy number_limit claim.now }
    requires each { length cites.now ≡ length claim.now }
    ensures { IfOk result (λ answer. IfSome answer (λ line.
        IsLowerCases instance.now log.now.lines claim.now (line_value line))) }
{
    let lows = LowTable::of(alloc, instance, claim)?;
    let part = part_of(alloc, log, &lows, cites)?;
    if part.claim.len() == 0 {
        return Ok(None);
    }
    let lower = needed(alloc, instance, log, &part.claim, &part.cites)?;
    match legal_line(alloc, instance, log, lower, &part.cites)? {
        Some(line) => Ok(Some(line)),
        None => legal_line(alloc, instance, log, part.claim, &part.cites),
    }
}

/// The line of the whole claim, whose cites are legal.
fn eased_whole(
    alloc: Global,
    instance: &Instance,
    log: &Log,
    claim: Claim,
    cites: &[Cite],
) -> Result<Line, NoMemory>
    requires stands { Stands instance.now claim }
    requires some { 0 < length claim }
    requires legal { AllZip (IsLegalCite instance.now log.now.lines claim)
        claim (map cite_value cites.now) }
    ensures { IfOk result (λ line.
        IsLowerCases instance.now log.now.lines claim (line_value line)) }
{
    let lows = LowTable::of(alloc, instance, &claim)?;
    let eased = eased_cites(alloc, &lows, cites)?;
    drop(lows);
    Ok(Line::Cases {
        claim,
        cites: eased,
    })
}

/// A Cases line of the claim or of a part of it with bounds as low as its cites are seen to allow,
/// and with cites of other buffers wherever they are legal. First come the least bounds that leave
/// each low.
fn ease_cases(
    alloc: Global,
    instance: &Instance,
    log: &Log,
    claim: &Claim,
    cites: &[Cite],
) -> Result<Line, NoMemory>
    requires stands { Stands instance.now claim.now }
    requires some { claim.now ≢ [] }
    requires bounds { IsBoundedBy number_limit claim.now }
    requires legal { let l = claim.now in
        AllZip (IsLegalCite instance.now log.now.lines l) l (map cite_value cites.now) }
    ensures { IfOk result (λ line.
        IsLowerCases instance.now log.now.lines claim.now (line_value line)) }
{
    let least = lowered(alloc, instance, claim)?;
    match eased_part(alloc, instance, log, &least, cites)? {
        Some(line) => Ok(line),
        None => eased_whole(alloc, instance, log, least, cites),
    }
}

/// A legal line whose claim covers the claim of the given line, which is legal after the log. So it
/// can stand in its place, and covers no less.
///
/// An Over line keeps just the buffers that it stacks, all with the height for their bound, and has
/// the least height, in bytes, from which they reach above the log's capacity; its moment and its
/// modulus stay. A Cases line keeps buffers of the given one, with bounds as low as its cites are
/// seen to allow; how many and how low is no clause. It has a below cite or a twin cite wherever
/// one is legal in its claim.
///
/// The log is of the instance, and the numbers of the line are within the limits of `Log::push`.
pub fn ease(alloc: Global, instance: &Instance, log: &Log, line: Line) -> Result<Line, NoMemory>
    requires belongs { Belongs instance.now log.now }
    requires legal { IsLegal instance.now log.now.capacity log.now.lines (line_value line) }
    requires within { IsWithin (line_value line) }
    ensures legal { IfOk result (λ eased.
        IsLegal instance.now log.now.capacity log.now.lines (line_value eased)) }
    ensures within { IfOk result (λ eased. IsWithin (line_value eased)) }
    ensures covers { IfOk result (λ eased.
        Covers instance.now (claim_of (line_value eased)) (claim_of (line_value line))) }
    ensures lean { IfOk result (λ eased.
        IsLeanLine instance.now log.now.capacity log.now.lines (line_value eased)) }
    ensures kind { IfOk result (λ eased.
        IsEasedFrom instance.now log.now.capacity (line_value line) (line_value eased)) }
    ensures among { IfOk result (λ eased. (b : ℕ) → HasBuffer (claim_of (line_value eased)) b →
        HasBuffer (claim_of (line_value line)) b) }
{
    let _count = instance.len();
    let _lines = log.len();
    match line {
        Line::Over {
            claim,
            moment,
            height,
            modulus,
        } => {
            let capacity = log.capacity();
            ease_over(alloc, instance, capacity, &claim, moment, height, modulus)
        }
        Line::Cases { claim, cites } => {
            ease_cases(alloc, instance, log, &claim, cites.as_slice())
        }
    }
}
