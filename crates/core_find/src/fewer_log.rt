//! A log carried over to fewer buffers.

ghost use Rattle.std.specs.Prelude.{◌≡◌, ◌==◌, ◌<◌, ◌≤◌, All, IfOk, length, map, position, slice_index};
ghost use Rattle.dsa_terms.specs.Claims.{Rises, buffers_of};
ghost use Rattle.dsa_terms.specs.Logs.{IsAccepted, claim_of};
ghost use Rattle.dsa_model.specs.Buffer.{buffer_limit};
ghost use Rattle.dsa_model.specs.Chosen.{some_of};
ghost use Rattle.dsa_model.specs.Limits.{number_limit};
ghost use Rattle.canonical_order.specs.Claims.{IsBoundedBy};
ghost use Rattle.refute_log.specs.Lines.{IsLineKept, cite_value, line_value};
ghost use Rattle.refute_log.specs.Logs.{Belongs};
ghost use Rattle.core_find.specs.Carried.{NeedsOnly, carried, place_among, places_among, renamed_cite, renamed_claim, renamed_line, renamed_log};

use crate::members::sub_instance;
use canonical_order::Claim;
use dsa_model::{Instance, NoMemory};
use log_trim::trim;
use refute_log::{Cite, Cites, ClosedLog, Line, Log};
use std::alloc::{AllocError, Global};

/// Where b stands among the members.
fn find_place(b: u32, members: &[u32]) -> Option<usize>
    ensures { result ≡ position (λ m. m == b) members.now }
{
    members.iter().position(|m| *m == b)
}

/// The place of b among the members, and one past the last where it is none of them.
fn place_among(b: u32, members: &[u32]) -> u32
    requires { length members.now ≤ buffer_limit }
    ensures { result ≡ place_among b members.now }
{
    match find_place(b, members) {
        Some(place) => place as u32,
        None => members.len() as u32,
    }
}

/// For each of those before its place among the members.
fn places_among(alloc: Global, before: &[u32], members: &[u32]) -> Result<Vec<u32>, AllocError>
    requires { length members.now ≤ buffer_limit }
    ensures { IfOk result (λ places. places.items ≡ places_among before.now members.now) }
{
    let mut places = Vec::new(alloc);
    for b in before {
        places.push(place_among(*b, members))?;
    }
    Ok(places)
}

/// The new number of b, which stands at its place, and 0 where there is none.
fn new_number(numbers: &[u32], b: u32) -> u32
    ensures { result ≡ slice_index numbers.now b }
{
    match numbers.get(b as usize) {
        Some(number) => *number,
        None => 0,
    }
}

/// The claim with the new numbers of its buffers, which rise.
fn renamed_claim(alloc: Global, claim: &Claim, numbers: &[u32]) -> Result<Claim, NoMemory>
    requires rises { Rises (buffers_of (renamed_claim (slice_index numbers.now) claim.now)) }
    requires bounds { IsBoundedBy number_limit claim.now }
    ensures { IfOk result (λ l. l ≡ renamed_claim (slice_index numbers.now) claim.now) }
{
    let mut pairs = Vec::new(alloc);
    for pair in claim.pairs() {
        pairs.push((new_number(numbers, pair.0), pair.1))?;
    }
    Ok(Claim::from_vec(pairs))
}

/// The cite with the new number of the buffer that it names.
fn renamed_cite(cite: Cite, numbers: &[u32]) -> Cite
    ensures { cite_value result ≡ renamed_cite (slice_index numbers.now) (cite_value cite) }
{
    match cite {
        Cite::Line(k) => Cite::Line(k),
        Cite::Below(c) => Cite::Below(new_number(numbers, c)),
        Cite::Twin(c) => Cite::Twin(new_number(numbers, c)),
    }
}

/// The cites with the new numbers of the buffers that they name.
fn renamed_cites(alloc: Global, cites: &[Cite], numbers: &[u32]) -> Result<Vec<Cite>, AllocError>
    ensures { let new = map (renamed_cite (slice_index numbers.now)) (map cite_value cites.now) in
        IfOk result (λ renamed. map cite_value renamed.items ≡ new) }
{
    let mut renamed = Vec::new(alloc);
    for cite in cites {
        renamed.push(renamed_cite(*cite, numbers))?;
    }
    Ok(renamed)
}

/// The line with the new numbers of its buffers, which rise in its claim.
fn renamed_line(alloc: Global, line: &Line, numbers: &[u32]) -> Result<Line, NoMemory>
    requires rises { let new = renamed_line (slice_index numbers.now) (line_value line.now) in
        Rises (buffers_of (claim_of new)) }
    requires kept { IsLineKept (line_value line.now) }
    ensures { let new = renamed_line (slice_index numbers.now) (line_value line.now) in
        IfOk result (λ renamed. line_value renamed ≡ new) }
{
    match line {
        Line::Over {
            claim,
            moment,
            height,
            modulus,
        } => Ok(Line::Over {
            claim: renamed_claim(alloc, claim, numbers)?,
            moment: *moment,
            height: *height,
            modulus: *modulus,
        }),
        Line::Cases { claim, cites } => Ok(Line::Cases {
            claim: renamed_claim(alloc, claim, numbers)?,
            cites: Cites::from_vec(renamed_cites(alloc, cites.as_slice(), numbers)?),
        }),
    }
}

/// The lines of the log with the new numbers of their buffers, on a log of the instance, for which
/// they are legal.
fn renamed_log(
    alloc: Global,
    instance: &Instance,
    log: &ClosedLog,
    numbers: &[u32],
) -> Result<Log, NoMemory>
    requires numbers { All (λ n. n ≤ buffer_limit) numbers.now }
    requires belongs { let n = length instance.now in
        Belongs instance.now (renamed_log n (slice_index numbers.now) log.now) }
    ensures value { let n = length instance.now in
        IfOk result (λ renamed. renamed ≡ renamed_log n (slice_index numbers.now) log.now) }
    ensures belongs { IfOk result (Belongs instance.now) }
{
    let mut renamed = Log::new(alloc, instance, log.capacity());
    for k in 0..log.len() {
        let line = renamed_line(alloc, log.line(k), numbers)?;
        renamed.push_legal(instance, line)?;
    }
    Ok(renamed)
}

/// What is left for the members of a log of those before: the lines that its end needs, with each
/// buffer by its place. It is a log of the members.
///
/// The caller owes an accepted log whose end names none but members.
pub(crate) fn log_of_fewer(
    alloc: Global,
    instance: &Instance,
    log: &ClosedLog,
    before: &[u32],
    members: &[u32],
) -> Result<ClosedLog, NoMemory>
    requires before_in_range { All (λ b. b < length instance.now) before.now }
    requires in_range { All (λ b. b < length instance.now) members.now }
    requires rises { Rises members.now }
    requires needs { NeedsOnly instance.now before.now members.now log.now }
    ensures value { IfOk result (λ fewer. fewer ≡ carried before.now members.now log.now) }
    ensures accepted { IfOk result (IsAccepted (some_of instance.now members.now)) }
    ensures capacity { IfOk result (λ fewer. fewer.capacity ≡ log.now.capacity) }
{
    let all = sub_instance(alloc, instance, before)?;
    let some = sub_instance(alloc, instance, members)?;
    let _count = some.len();
    let log = trim(alloc, &all, log)?;
    let places = places_among(alloc, before, members)?;
    let renamed = renamed_log(alloc, &some, &log, &places)?;
    match renamed.close(&some, log.end()) {
        Ok(closed) => Ok(closed),
        Err(_) => unreachable!(),
    }
}
