//! Whether the numbers of a line are within their limits, and whether its lists rise.

ghost use Rattle.std.specs.Prelude.{◌≡◌, ◌↔◌, ◌^◌, ◌≤◌, ◌<◌, All, IsTrue, map};
ghost use Rattle.dsa_terms.specs.Claims.{Rises, buffers_of};
ghost use Rattle.log_text.specs.Changes.{buffer_of};
ghost use Rattle.log_text.specs.Edits.{change_value};
ghost use Rattle.log_text.specs.RawLogs.{IsRawCiteWithin, IsPairWithin, number_of_cite};
ghost use Rattle.log_text.specs.Rows.{row_value, spelled_value, spelling_value};
ghost use Rattle.log_text.specs.Says.{IsChangeWithin, IsLineRising, IsRising, IsSpellingRising, IsSpellingWithin, IsWithin};

use crate::RawCite;
use crate::changes::{Edit, changed_buffer};
use crate::rows::{Read, ReadClaim, ReadLine};
use dsa_model::{NUMBER_LIMIT, TIME_LIMIT};

/// The number that a cite names.
fn number_of(cite: RawCite) -> u64
    ensures { result ≡ number_of_cite cite }
{
    match cite {
        RawCite::Line(k) => k,
        RawCite::Below(c) => c,
        RawCite::Twin(c) => c,
    }
}

/// Whether each buffer and each bound is within its limit.
fn pairs_within(pairs: &[(u64, u64)]) -> bool
    ensures { IsTrue result ↔ All IsPairWithin pairs.now }
{
    pairs
        .iter()
        .all(|pair| pair.0 <= NUMBER_LIMIT && pair.1 <= NUMBER_LIMIT)
}

/// Whether each buffer and each number that is cited is within its limit.
fn cites_within(cites: &[(u64, RawCite)]) -> bool
    ensures { IsTrue result ↔ All IsRawCiteWithin cites.now }
{
    cites.iter().all(|cite| cite.0 <= NUMBER_LIMIT && number_of(cite.1) <= NUMBER_LIMIT)
}

/// Whether the numbers of the change are within their limits.
fn is_change_within(change: Edit) -> bool
    ensures { IsTrue result ↔ IsChangeWithin (change_value change) }
{
    match change {
        Edit::Puts(b, bound) => b <= NUMBER_LIMIT && bound <= NUMBER_LIMIT,
        Edit::Drops(b) => b <= NUMBER_LIMIT,
    }
}

/// Whether each number of the changes is within its limit.
fn changes_within(changes: &[Edit]) -> bool
    ensures { IsTrue result ↔ All (λ c. IsChangeWithin (change_value c)) changes.now }
{
    changes.iter().all(|change| is_change_within(*change))
}

/// Whether each number of the claim is within its limit.
fn is_claim_within(claim: &ReadClaim) -> bool
    ensures { IsTrue result ↔ IsSpellingWithin (spelling_value claim.now) }
{
    match claim {
        ReadClaim::Full(claim) => pairs_within(claim.as_slice()),
        ReadClaim::From(base, changes) => {
            if *base > NUMBER_LIMIT {
                return false;
            }
            changes_within(changes.as_slice())
        }
    }
}

/// Whether each number of the row is within its limit.
pub(crate) fn is_within(row: &Read) -> bool
    ensures { IsTrue result ↔ IsWithin (row_value row.now) }
{
    match row {
        Read::Line(
            ReadLine::Over {
                moment,
                height,
                modulus,
                claim,
            },
        ) => {
            if *moment > TIME_LIMIT || *height > NUMBER_LIMIT || *modulus > NUMBER_LIMIT {
                return false;
            }
            is_claim_within(claim)
        }
        Read::Line(ReadLine::Cases { claim, cites }) => {
            if !is_claim_within(claim) {
                return false;
            }
            cites_within(cites.as_slice())
        }
        Read::End(end) => *end <= NUMBER_LIMIT,
    }
}

/// Whether each buffer is above the one before it.
fn pairs_rise(pairs: &[(u64, u64)]) -> bool
    ensures { IsTrue result ↔ Rises (buffers_of pairs.now) }
{
    for place in 1..pairs.len() {
        if pairs[place].0 <= pairs[place - 1].0 {
            return false;
        }
    }
    true
}

/// Whether each buffer is above the one before it.
fn cites_rise(cites: &[(u64, RawCite)]) -> bool
    ensures { IsTrue result ↔ Rises (map (λ c. c.0) cites.now) }
{
    for place in 1..cites.len() {
        if cites[place].0 <= cites[place - 1].0 {
            return false;
        }
    }
    true
}

/// Whether each changed buffer is above the one before it.
fn changes_rise(changes: &[Edit]) -> bool
    ensures { IsTrue result ↔ Rises (map (λ c. buffer_of (change_value c)) changes.now) }
{
    for place in 1..changes.len() {
        if changed_buffer(changes[place]) <= changed_buffer(changes[place - 1]) {
            return false;
        }
    }
    true
}

/// Whether the claim rises, or its changes.
fn is_claim_rising(claim: &ReadClaim) -> bool
    ensures { IsTrue result ↔ IsSpellingRising (spelling_value claim.now) }
{
    match claim {
        ReadClaim::Full(claim) => pairs_rise(claim.as_slice()),
        ReadClaim::From(_, changes) => changes_rise(changes.as_slice()),
    }
}

/// Whether each list of the line rises.
fn is_line_rising(line: &ReadLine) -> bool
    ensures { IsTrue result ↔ IsLineRising (spelled_value line.now) }
{
    match line {
        ReadLine::Over { claim, .. } => is_claim_rising(claim),
        ReadLine::Cases { claim, cites } => {
            if !is_claim_rising(claim) {
                return false;
            }
            cites_rise(cites.as_slice())
        }
    }
}

/// Whether each list of the row rises.
pub(crate) fn is_rising(row: &Read) -> bool
    ensures { IsTrue result ↔ IsRising (row_value row.now) }
{
    match row {
        Read::Line(line) => is_line_rising(line),
        Read::End(_) => true,
    }
}
