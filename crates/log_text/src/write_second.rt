//! Writing a log in version 2.

ghost use Rattle.std.specs.Prelude.{◌≡◌, ◌++◌, ◌<◌, ◌∷◌, IfOk, OnOk, Some, length, map, slice_get};
ghost use Rattle.refute_log.specs.Lines.{HasCites, cite_value, line_value};
ghost use Rattle.log_text.specs.Changes.{difference as difference_of};
ghost use Rattle.log_text.specs.Edits.{change_value, changes_text};
ghost use Rattle.log_text.specs.Says.{Says};
ghost use Rattle.log_text.specs.Spellings.{From, OverAs, Spelled, Spelling, change_text, log_text2, shorter, spelled_as, spelled_lines, spelled_text, spelling_text};
ghost use Rattle.log_text.specs.Text.{raw_line_of, raw_log_of};
ghost use Rattle.dsa_terms.specs.Claims.{Rises, buffers_of};
ghost use Rattle.dsa_terms.specs.Logs.{Cases};

use crate::changes::{Edit, difference};
use crate::write::{
    put, put_cases_end, put_claim, put_end, put_header, put_line, put_marked, put_number,
    put_over_start,
};
use canonical_order::Claim;
use dsa_model::NoMemory;
use refute_log::{Cite, ClosedLog, Line};
use std::alloc::{AllocError, Global};

/// The version of the text.
const VERSION: u64 = 2;

/// Puts a change after a space.
fn put_change(text: &mut Vec<u8>, change: Edit) -> Result<(), AllocError>
    ensures { let item = 32 ∷ change_text (change_value change) in
        OnOk result (text.new.items ≡ text.old.items ++ item) }
{
    text.push(b' ')?;
    match change {
        Edit::Puts(b, bound) => put_marked(text, b, b'=', bound),
        Edit::Drops(b) => {
            text.push(b'-')?;
            put_number(text, b)
        }
    }
}

/// Puts changes, each after a space.
fn put_changes(text: &mut Vec<u8>, changes: &[Edit]) -> Result<(), AllocError>
    ensures { let items = changes_text (map change_value changes.now) in
        OnOk result (text.new.items ≡ text.old.items ++ items) }
{
    for change in changes {
        put_change(text, *change)?;
    }
    Ok(())
}

/// The pairs of the claim, with numbers of 64 bits.
fn wide(alloc: Global, claim: &Claim) -> Result<Vec<(u64, u64)>, AllocError>
    ensures value { IfOk result (λ pairs. pairs.items ≡ claim.now) }
    ensures rises { Rises (buffers_of claim.now) }
{
    let mut pairs = Vec::new(alloc);
    for (b, bound) in claim.pairs() {
        pairs.push((*b as u64, *bound))?;
    }
    Ok(pairs)
}

/// The changes that lead from one claim to the other.
fn claim_difference(alloc: Global, before: &Claim, claim: &Claim) -> Result<Vec<Edit>, AllocError>
    ensures { IfOk result
        (λ edits. map change_value edits.items ≡ difference_of before.now claim.now) }
{
    let old = wide(alloc, before)?;
    let new = wide(alloc, claim)?;
    difference(alloc, old.as_slice(), new.as_slice())
}

/// The bytes of a claim as the difference from that line's claim.
fn difference_bytes(
    alloc: Global,
    base: u64,
    before: &Claim,
    claim: &Claim,
) -> Result<Vec<u8>, AllocError>
    ensures { IfOk result
        (λ text. text.items ≡ spelling_text (From base (difference_of before.now claim.now))) }
{
    let changes = claim_difference(alloc, before, claim)?;
    let mut text = Vec::new(alloc);
    text.push(b'@')?;
    put_number(&mut text, base)?;
    put_changes(&mut text, changes.as_slice())?;
    Ok(text)
}

/// The bytes of a claim: the difference from that line's claim, where it has fewer than the claim
/// in full.
fn shorter_bytes(
    alloc: Global,
    base: u64,
    before: &Claim,
    claim: &Claim,
) -> Result<Vec<u8>, AllocError>
    ensures { IfOk result
        (λ text. text.items ≡ spelling_text (shorter base before.now claim.now)) }
{
    let mut plain = Vec::new(alloc);
    put_claim(&mut plain, claim)?;
    let difference = difference_bytes(alloc, base, before, claim)?;
    if difference.len() < plain.len() {
        return Ok(difference);
    }
    Ok(plain)
}

/// Puts an Over line with these bytes as its claim.
fn put_over_as(
    text: &mut Vec<u8>,
    claim: &[u8],
    moment: u64,
    height: u64,
    modulus: u64,
) -> Result<(), AllocError>
    ensures { (s : Spelling) → claim.now ≡ spelling_text s →
        OnOk result (text.new.items ≡ text.old.items
        ++ spelled_text (OverAs moment height modulus s)) }
{
    put_over_start(text, moment, height, modulus)?;
    put(text, claim)?;
    put(text, b"\n")
}

/// Puts a Cases line of these pairs with these bytes as its claim.
fn put_cases_as(
    text: &mut Vec<u8>,
    claim: &[u8],
    pairs: &[(u32, u64)],
    cites: &[Cite],
) -> Result<(), AllocError>
    requires { length pairs.now ≡ length cites.now }
    ensures { (s : Spelling) → claim.now ≡ spelling_text s →
        let line = raw_line_of (Cases pairs.now (map cite_value cites.now)) in
        OnOk result (text.new.items ≡ text.old.items ++ spelled_text (spelled_as line s)) }
{
    put(text, b"case : ")?;
    put(text, claim)?;
    put_cases_end(text, pairs, cites)
}

/// Puts a line with these bytes as its claim.
fn put_line_as(text: &mut Vec<u8>, line: &Line, bytes: &[u8]) -> Result<(), AllocError>
    requires { HasCites (line_value line.now) }
    ensures { (s : Spelling) → bytes.now ≡ spelling_text s →
        let raw = raw_line_of (line_value line.now) in
        OnOk result (text.new.items ≡ text.old.items ++ spelled_text (spelled_as raw s)) }
{
    match line {
        Line::Over {
            moment,
            height,
            modulus,
            ..
        } => put_over_as(text, bytes, *moment, *height, *modulus),
        Line::Cases { claim, cites } => put_cases_as(text, bytes, claim.pairs(), cites.as_slice()),
    }
}

/// Puts line k of the log.
fn put_line_of(alloc: Global, text: &mut Vec<u8>, log: &ClosedLog, k: u64) -> Result<(), AllocError>
    requires { k < length log.now.lines }
    ensures { OnOk result ((s : Spelled) ×
        (slice_get (spelled_lines (map raw_line_of log.now.lines)) k ≡ Some s) ×
        (text.new.items ≡ text.old.items ++ spelled_text s)) }
{
    let line = log.line(k);
    if k == 0 {
        return put_line(text, line);
    }
    let bytes = shorter_bytes(alloc, k - 1, log.line(k - 1).claim(), line.claim())?;
    put_line_as(text, line, bytes.as_slice())
}

/// The text of a log in version 2: the claim of each line but the first is a difference from the
/// claim of the line before it, where that has fewer bytes. `read_log` gives the log back by its
/// numbers. Time and memory of the claims in full.
pub fn write_log2(alloc: Global, log: &ClosedLog) -> Result<Vec<u8>, NoMemory>
    ensures value { IfOk result (λ text. text.items ≡ log_text2 log.now) }
    ensures read_back { IfOk result (λ text. Says text.items (raw_log_of log.now)) }
{
    let mut text = Vec::new(alloc);
    put_header(&mut text, VERSION, log.count(), log.capacity())?;
    for k in 0..log.len() {
        put_line_of(alloc, &mut text, log, k)?;
    }
    put_end(&mut text, log.end())?;
    Ok(text)
}
