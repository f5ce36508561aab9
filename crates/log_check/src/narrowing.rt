//! Lines with buffers of 32 bits.

ghost use Rattle.std.specs.Prelude.{◌≡◌, ◌<◌, ◌≤◌, ◌^◌, ◌-◌, min, map, find, nat_le, length, bytes_eq, Some, None, IfOk};
ghost use Rattle.dsa_terms.specs.Claims.{Entry, IsIn, Rises, buffers_of};
ghost use Rattle.canonical_order.specs.Claims.{IsBoundedBy};
ghost use Rattle.refute_log.specs.Lines.{line_value};
ghost use Rattle.dsa_model.specs.Fails.{UnlessNoMemory};
ghost use Rattle.dsa_model.specs.Limits.{number_limit};
ghost use Rattle.log_text.specs.RawLogs.{IsRawLineKept, raw_claim_of};
ghost use Rattle.log_check.specs.Narrowing.{IsNarrowed, narrow_cite, shape_reason};

use canonical_order::Claim;
use dsa_model::{Fail, Instance, NoMemory};
use log_text::{RawCite, RawLine};
use refute_log::{Cite, Cites, Line, Reason};
use std::alloc::Global;

/// The buffer, or one that no instance has where it does not fit.
fn narrow(buffer: u64) -> u32
    ensures { result ≡ min buffer (2 ^ 32 - 1) }
{
    buffer.min(u32::MAX as u64) as u32
}

/// The cite that a text says.
fn cite_of(cite: RawCite) -> Cite
    ensures { result ≡ narrow_cite cite }
{
    match cite {
        RawCite::Line(k) => Cite::Line(k),
        RawCite::Below(c) => Cite::Below(narrow(c)),
        RawCite::Twin(c) => Cite::Twin(narrow(c)),
    }
}

/// The cites that a text says, in their order.
fn cites_of(alloc: Global, cites: &[(u64, RawCite)]) -> Result<Vec<Cite>, NoMemory>
    ensures { IfOk result (λ made. made.items ≡ map (λ p. narrow_cite p.1) cites.now) }
{
    let made = cites.iter().map(|pair| cite_of(pair.1)).collect(alloc)?;
    Ok(made)
}

/// The claim of these pairs, of which each buffer is below the count.
fn claim_of(alloc: Global, count: u32, pairs: &[(u64, u64)]) -> Result<Claim, NoMemory>
    requires rises { Rises (buffers_of pairs.now) }
    requires in_range { (e : Entry) → IsIn e pairs.now → e.0 < count }
    requires bounds { IsBoundedBy number_limit pairs.now }
    ensures { IfOk result (λ claim. claim ≡ pairs.now) }
{
    let narrowed = narrow_pairs(alloc, pairs)?;
    Ok(Claim::from_vec(narrowed))
}

/// The pairs with buffers of 32 bits.
fn narrow_pairs(alloc: Global, pairs: &[(u64, u64)]) -> Result<Vec<(u32, u64)>, NoMemory>
    ensures { IfOk result
        (λ made. made.items ≡ map (λ e. (min e.0 (2 ^ 32 - 1), e.1)) pairs.now) }
{
    let narrowed = pairs
        .iter()
        .map(|pair| (narrow(pair.0), pair.1))
        .collect(alloc)?;
    Ok(narrowed)
}

/// The least buffer that is not below the count.
fn out_of_range(count: u32, pairs: &[(u64, u64)]) -> Option<u64>
    ensures { result ≡ find (λ b. nat_le count b) (buffers_of pairs.now) }
{
    pairs.iter().map(|pair| pair.0).find(|b| count as u64 <= *b)
}

/// Whether the cites are of just these buffers.
fn has_own_cites(pairs: &[(u64, u64)], cites: &[(u64, RawCite)]) -> bool
    ensures { result ≡ bytes_eq (map (λ p. p.0) cites.now) (buffers_of pairs.now) }
{
    if cites.len() != pairs.len() {
        return false;
    }
    for place in 0..cites.len() {
        if cites[place].0 != pairs[place].0 {
            return false;
        }
    }
    true
}

/// The pairs of the line's claim.
fn pairs_of(line: &RawLine) -> &[(u64, u64)]
    ensures { result.now ≡ raw_claim_of line.now }
{
    match line {
        RawLine::Over { claim, .. } => claim.as_slice(),
        RawLine::Cases { claim, .. } => claim.as_slice(),
    }
}

/// The line that a text says, where its claim is one of the instance and its cites are of just the
/// claim's buffers; else what is wrong with it. Another buffer that is cited and does not fit is
/// one that no instance has.
pub(crate) fn line_of(
    alloc: Global,
    instance: &Instance,
    line: &RawLine,
) -> Result<Line, Fail<Reason>>
    requires kept { IsRawLineKept line.now }
    ensures { UnlessNoMemory result
        (λ made. IsNarrowed instance.now line.now (line_value made))
        (λ reason. shape_reason instance.now line.now ≡ Some reason) }
{
    let count = instance.len();
    let pairs = pairs_of(line);
    if let Some(buffer) = out_of_range(count, pairs) {
        return Err(Fail::Fault(Reason::BufferRange { buffer }));
    }
    let claim = claim_of(alloc, count, pairs)?;
    match line {
        RawLine::Over {
            moment,
            height,
            modulus,
            ..
        } => Ok(Line::Over {
            claim,
            moment: *moment,
            height: *height,
            modulus: *modulus,
        }),
        RawLine::Cases { cites, .. } => {
            let cites = cites.as_slice();
            if !has_own_cites(pairs, cites) {
                return Err(Fail::Fault(Reason::CitesDiffer));
            }
            let cites = Cites::from_vec(cites_of(alloc, cites)?);
            Ok(Line::Cases { claim, cites })
        }
    }
}
