//! Bounds that no cite needs.

ghost use Rattle.std.specs.Prelude.{◌≡◌, ◌^◌, ◌<◌, ◌≤◌, IfOk, IsTrue, length, map};
ghost use Rattle.std.specs.List.{AllZip};
ghost use Rattle.dsa_terms.specs.Logs.{IsLegalCite};
ghost use Rattle.dsa_model.specs.Limits.{number_limit};
ghost use Rattle.canonical_order.specs.Claims.{HasBuffer, IsBoundedBy, entry_of};
ghost use Rattle.canonical_order.specs.Stands.{Stands};
ghost use Rattle.refute_log.specs.Lines.{cite_value};
ghost use Rattle.conflicts.specs.Eased.{IsLower, cut};

use crate::cites::eased_cites;
use crate::lowering::least_bound;
use canonical_order::{Claim, LowTable, Lows, covers_child, step};
use dsa_model::{Instance, NoMemory};
use prune_rules::{is_below, is_twin};
use refute_log::{Cite, Log};
use std::alloc::{AllocError, Global};

/// How low b, which comes first, may start for c to start at its bound or above.
fn needed_first(instance: &Instance, b: u32, c: u32, bound: u64) -> u64
    requires b_in { b < length instance.now }
    requires c_in { c < length instance.now }
    requires bound_limit { bound ≤ number_limit }
{
    least_bound(instance.buffer(c), bound).saturating_sub(step(instance, b, c))
}

/// Raises what is needed of a buffer.
fn raise(needs: &mut [u64], b: u32, need: u64)
    requires { b < length needs.old }
    ensures { length needs.new ≡ length needs.old }
{
    let place = b as usize;
    if needs[place] < need {
        needs[place] = need;
    }
}

/// Raises what a line needs that is cited for b: of b, where another buffer does not come to the
/// line's bound by itself, and else of the other one, where what is needed of b does not lift it.
fn raise_by_line(lows: &LowTable, b: u32, cited: &Claim, needs: &mut [u64])
    requires b_in { HasBuffer lows.now.claim.now b }
    requires bounds { IsBoundedBy number_limit cited.now }
    requires each { length needs.old ≡ length lows.now.instance.now }
    ensures { length needs.new ≡ length needs.old }
{
    for pair in cited.pairs() {
        if lows.is_free(pair.0) && lows.low(pair.0) < pair.1 {
            raise(needs, b, needed_first(lows.instance, b, pair.0, pair.1));
        }
    }
    for pair in cited.pairs() {
        if lows.is_free(pair.0) {
            if needs[b as usize] < needed_first(lows.instance, b, pair.0, pair.1) {
                raise(
                    needs,
                    pair.0,
                    least_bound(lows.instance.buffer(pair.0), pair.1),
                );
            }
        }
    }
}

/// Where the buffer starts if it is put as low as what is needed of it allows.
fn least_start(lows: &LowTable, b: u32, needs: &[u64]) -> u64
    requires b_in { HasBuffer lows.now.claim.now b }
    requires each { length needs.now ≡ length lows.now.instance.now }
    ensures { result ≤ 2 ^ 63 }
{
    let least = needs[b as usize].min(lows.low(b));
    lows.instance.buffer(b).least_offset(least)
}

/// Raises what the cite of another buffer needs of b, where that one starts as low as it may.
fn raise_by_other(lows: &LowTable, b: u32, cite: Cite, needs: &mut [u64])
    requires b_in { HasBuffer lows.now.claim.now b }
    requires each { length needs.old ≡ length lows.now.instance.now }
    ensures { length needs.new ≡ length needs.old }
{
    match cite {
        Cite::Line(_) => {}
        Cite::Below(c) => {
            if lows.is_free(c) {
                let start = least_start(lows, c, needs);
                raise(needs, b, start + lows.instance.buffer(c).size());
            }
        }
        Cite::Twin(c) => {
            if lows.is_free(c) {
                let start = least_start(lows, c, needs);
                raise(needs, b, start);
            }
        }
    }
}

/// How high each buffer of the instance has to start for all cites to stay legal: first for those
/// of lines, and then for those of other buffers. It is a guess, which is tested before it is used.
fn needs_of(
    alloc: Global,
    log: &Log,
    lows: &LowTable,
    cites: &[Cite],
) -> Result<Vec<u64>, AllocError>
    requires { length cites.now ≡ length lows.now.claim.now }
    ensures { IfOk result (λ needs. length needs.items ≡ length lows.now.instance.now) }
{
    let mut needs = vec![in alloc; 0; lows.instance.len() as usize]?;
    let pairs = lows.claim.pairs();
    for place in 0..cites.len() {
        if let Cite::Line(k) = cites[place] {
            if k < log.len() {
                let cited = log.line(k).claim();
                raise_by_line(lows, pairs[place].0, cited, needs.as_mut_slice());
            }
        }
    }
    for place in 0..cites.len() {
        raise_by_other(lows, pairs[place].0, cites[place], needs.as_mut_slice());
    }
    Ok(needs)
}

/// The claim with what is needed of a buffer for its bound, where that is lower.
fn cut(alloc: Global, instance: &Instance, claim: &Claim, needs: &[u64]) -> Result<Claim, NoMemory>
    requires stands { Stands instance.now claim.now }
    requires bounds { IsBoundedBy number_limit claim.now }
    requires each { length needs.now ≡ length instance.now }
    ensures { IfOk result (λ made. made ≡ map (cut needs.now) claim.now) }
{
    let mut pairs = Vec::with_capacity(alloc, claim.pairs().len())?;
    for pair in claim.pairs() {
        pairs.push((pair.0, needs[pair.0 as usize].min(pair.1)))?;
    }
    Ok(Claim::from_vec(pairs))
}

/// The claim with what its cites, eased, need of each buffer for its bound, where that is lower.
pub(crate) fn needed(
    alloc: Global,
    instance: &Instance,
    log: &Log,
    claim: &Claim,
    cites: &[Cite],
) -> Result<Claim, NoMemory>
    requires stands { Stands instance.now claim.now }
    requires some { 0 < length claim.now }
    requires bounds { IsBoundedBy number_limit claim.now }
    requires each { length cites.now ≡ length claim.now }
    ensures lower { IfOk result (λ made. IsLower claim.now made) }
    ensures count { IfOk result (λ made. length made ≡ length claim.now) }
{
    let lows = LowTable::of(alloc, instance, claim)?;
    let eased = eased_cites(alloc, &lows, cites)?;
    let needs = needs_of(alloc, log, &lows, eased.as_slice())?;
    cut(alloc, instance, claim, &needs)
}

/// Whether the cite of b is legal.
fn is_legal(log: &Log, lows: &LowTable, b: u32, cite: Cite) -> bool
    requires b_in { HasBuffer lows.now.claim.now b }
    requires bounds { IsBoundedBy number_limit lows.now.claim.now }
    ensures { let l = lows.now.claim.now in
        IsTrue result →
        IsLegalCite lows.now.instance.now log.now.lines l (entry_of l b) (cite_value cite) }
{
    match cite {
        Cite::Line(k) => {
            if k < log.len() {
                covers_child(log.line(k).claim(), lows, b)
            } else {
                false
            }
        }
        Cite::Below(c) => is_below(lows, b, c),
        Cite::Twin(c) => is_twin(lows, b, c),
    }
}

/// Whether all cites of the claim are legal.
pub(crate) fn are_legal(log: &Log, lows: &LowTable, cites: &[Cite]) -> bool
    requires each { length cites.now ≡ length lows.now.claim.now }
    requires bounds { IsBoundedBy number_limit lows.now.claim.now }
    ensures { let l = lows.now.claim.now in
        IsTrue result →
        AllZip (IsLegalCite lows.now.instance.now log.now.lines l) l (map cite_value cites.now) }
{
    let claim = lows.claim;
    let pairs = claim.pairs();
    for place in 0..cites.len() {
        if !is_legal(log, lows, pairs[place].0, cites[place]) {
            return false;
        }
    }
    true
}
