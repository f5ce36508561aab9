//! Small parts of a claim whose cites need no other buffer.

ghost use Rattle.std.specs.Prelude.{◌≡◌, ◌<◌, ◌↔◌, ◌⊎◌, ℕ, false, [], IfOk, OnOk};
ghost use Rattle.std.specs.Prelude.{length, slice_index_or};
ghost use Rattle.dsa_terms.specs.Claims.{IsIn};
ghost use Rattle.dsa_model.specs.Limits.{number_limit};
ghost use Rattle.canonical_order.specs.Claims.{IsBoundedBy};
ghost use Rattle.conflicts.specs.Eased.{IsLower};
ghost use Rattle.conflicts.specs.Walks.{AreOf, IsMarked, IsWalk};

use crate::cites::end;
use canonical_order::{Claim, LowTable, Lows};
use dsa_model::NoMemory;
use refute_log::{Cite, Log};
use std::alloc::{AllocError, Global};
use std::mem;

/// How many walks are begun after the first one, to find a smaller part.
const MORE_WALKS: usize = 8;

/// A claim with a cite for each of its buffers.
#[derive(Drop)]
pub(crate) struct Draft {
    pub(crate) claim: Claim,
    pub(crate) cites: Vec<Cite>,
}

/// The buffers that are met on the way from a buffer to those that its cite needs, and on to those
/// that their cites need.
#[derive(Drop)]
struct Walk {
    met: Vec<u32>,
    least_end: u64,
}

/// The cite of each buffer of the instance. Where a buffer is not in the claim it means nothing.
fn by_buffer(alloc: Global, lows: &LowTable, cites: &[Cite]) -> Result<Vec<Cite>, AllocError>
    requires { length cites.now ≡ length lows.now.claim.now }
    ensures { IfOk result (λ all. length all.items ≡ length lows.now.instance.now) }
{
    let mut all = vec![in alloc; Cite::Line(0); lows.instance.len() as usize]?;
    let pairs = lows.claim.pairs();
    for place in 0..cites.len() {
        all[pairs[place].0 as usize] = cites[place];
    }
    Ok(all)
}

/// Whether the buffer has a mark. One that the instance does not have has none.
fn is_marked(marks: &[bool], b: u32) -> bool
    ensures { result ≡ slice_index_or marks.now b false }
{
    let place = b as usize;
    place < marks.len() && marks[place]
}

/// Marks the buffers.
fn mark(marks: &mut [bool], buffers: &[u32])
    requires { (b : ℕ) → IsIn b buffers.now → b < length marks.old }
    ensures count { length marks.new ≡ length marks.old }
    ensures each { (b : ℕ) →
        IsMarked marks.new b ↔ (IsMarked marks.old b ⊎ IsIn b buffers.now) }
{
    for b in buffers {
        marks[*b as usize] = true;
    }
}

/// The marks of the claim's buffers, none of which is met yet.
fn all_unmet(alloc: Global, lows: &LowTable) -> Result<Vec<bool>, AllocError>
    ensures { IfOk result (λ unmet.
        IsWalk lows.now.instance.now lows.now.claim.now unmet.items []) }
{
    let mut unmet = vec![in alloc; false; lows.instance.len() as usize]?;
    for pair in lows.claim.pairs() {
        unmet[pair.0 as usize] = true;
    }
    Ok(unmet)
}

/// Meets the buffer, where it is in the claim and new.
fn meet(lows: &LowTable, unmet: &mut [bool], walk: &mut Walk, b: u32) -> Result<(), AllocError>
    requires { IsWalk lows.now.instance.now lows.now.claim.now unmet.old walk.old.met.items }
    ensures { OnOk result
        (IsWalk lows.now.instance.now lows.now.claim.now unmet.new walk.new.met.items) }
{
    if !is_marked(unmet, b) {
        return Ok(());
    }
    unmet[b as usize] = false;
    walk.least_end = walk.least_end.min(end(lows, b));
    walk.met.push(b)?;
    Ok(())
}

/// Meets what the cite needs, but for the buffer of a below cite.
fn meet_cited(
    log: &Log,
    lows: &LowTable,
    unmet: &mut [bool],
    walk: &mut Walk,
    cite: Cite,
) -> Result<(), AllocError>
    requires { IsWalk lows.now.instance.now lows.now.claim.now unmet.old walk.old.met.items }
    ensures { OnOk result
        (IsWalk lows.now.instance.now lows.now.claim.now unmet.new walk.new.met.items) }
{
    match cite {
        Cite::Line(k) => {
            if k < log.len() {
                for pair in log.line(k).claim().pairs() {
                    meet(lows, unmet, walk, pair.0)?;
                }
            }
        }
        Cite::Below(_) => {}
        Cite::Twin(c) => meet(lows, unmet, walk, c)?,
    }
    Ok(())
}

/// The buffer of a below cite that is needed: no buffer that was met ends below the one that has
/// the cite.
fn needed_below(lows: &LowTable, walk: &Walk, cites: &[Cite]) -> Option<u32>
    requires of_claim { AreOf lows.now.claim.now walk.now.met.items }
    requires each { length cites.now ≡ length lows.now.instance.now }
{
    for b in walk.met.as_slice() {
        if let Cite::Below(c) = cites[*b as usize] {
            if lows.low(*b) < walk.least_end {
                return Some(c);
            }
        }
    }
    None
}

/// The walk from a buffer of the claim, up to the limit of buffers to meet. All buffers of the
/// claim are unmet before it, and again after it. What it meets goes into the spare list, which is
/// cleared first: where that has room for the claim's buffers, the walk takes no memory.
fn walk_from(
    log: &Log,
    lows: &LowTable,
    cites: &[Cite],
    unmet: &mut [bool],
    start: u32,
    limit: usize,
    spare: Vec<u32>,
) -> Result<Walk, AllocError>
    requires each { length cites.now ≡ length lows.now.instance.now }
    requires unmet { IsWalk lows.now.instance.now lows.now.claim.now unmet.old [] }
    ensures unmet { OnOk result (IsWalk lows.now.instance.now lows.now.claim.now unmet.new []) }
    ensures of_claim { IfOk result (λ walk. AreOf lows.now.claim.now walk.met.items) }
{
    let count = lows.instance.len() as usize;
    let mut walk = Walk {
        met: spare,
        least_end: u64::MAX,
    };
    walk.met.clear();
    meet(lows, unmet, &mut walk, start)?;
    let mut turn = 0;
    for _ in 0..2 * count {
        if limit <= walk.met.len() {
            break;
        }
        if turn < walk.met.len() {
            let b = walk.met[turn];
            meet_cited(log, lows, unmet, &mut walk, cites[b as usize])?;
            turn += 1;
        } else {
            match needed_below(lows, &walk, cites) {
                Some(c) => meet(lows, unmet, &mut walk, c)?,
                None => break,
            }
        }
    }
    mark(unmet, walk.met.as_slice());
    Ok(walk)
}

/// The marks of the buffers of a small part of the claim whose cites need no other buffer: the
/// fewest that a few walks meet. That it is such a part is tested later.
fn small_part(
    alloc: Global,
    log: &Log,
    lows: &LowTable,
    cites: &[Cite],
) -> Result<Vec<bool>, AllocError>
    requires some { 0 < length lows.now.claim.now }
    requires each { length cites.now ≡ length lows.now.claim.now }
    ensures { IfOk result (λ marks. length marks.items ≡ length lows.now.instance.now) }
{
    let cites = by_buffer(alloc, lows, cites)?;
    let first = lows.claim.pair(0).0;
    let mut marks = all_unmet(alloc, lows)?;
    let unmet = marks.as_mut_slice();
    let count = lows.claim.pairs().len();
    let met = Vec::with_capacity(alloc, count)?;
    let mut spare = Vec::with_capacity(alloc, count)?;
    let mut best = walk_from(log, lows, &cites, unmet, first, usize::MAX, met)?;
    for back in 1..=MORE_WALKS {
        let fewest = best.met.len();
        if fewest < back {
            break;
        }
        let start = best.met[fewest - back];
        let mut walk = walk_from(log, lows, &cites, unmet, start, fewest, spare)?;
        if walk.met.len() < fewest {
            mem::swap(&mut best, &mut walk);
        }
        spare = walk.met;
    }
    unmet.fill(false);
    mark(unmet, best.met.as_slice());
    Ok(marks)
}

/// The claim with the marked buffers alone, each with its cite.
fn restricted(
    alloc: Global,
    lows: &LowTable,
    cites: &[Cite],
    marks: &[bool],
) -> Result<Draft, NoMemory>
    requires bounds { IsBoundedBy number_limit lows.now.claim.now }
    requires each { length cites.now ≡ length lows.now.claim.now }
    requires marks { length marks.now ≡ length lows.now.instance.now }
    ensures lower { IfOk result (λ draft. IsLower lows.now.claim.now draft.claim) }
    ensures each { IfOk result (λ draft. length draft.cites.items ≡ length draft.claim) }
{
    let all = lows.claim.pairs();
    let mut pairs = Vec::with_capacity(alloc, all.len())?;
    let mut kept = Vec::with_capacity(alloc, all.len())?;
    for place in 0..cites.len() {
        if marks[all[place].0 as usize] {
            pairs.push(all[place])?;
            kept.push(cites[place])?;
        }
    }
    let claim = Claim::from_vec(pairs);
    Ok(Draft { claim, cites: kept })
}

/// A small part of the claim with its cites, which is meant to need no other buffer.
pub(crate) fn part_of(
    alloc: Global,
    log: &Log,
    lows: &LowTable,
    cites: &[Cite],
) -> Result<Draft, NoMemory>
    requires some { 0 < length lows.now.claim.now }
    requires bounds { IsBoundedBy number_limit lows.now.claim.now }
    requires each { length cites.now ≡ length lows.now.claim.now }
    ensures lower { IfOk result (λ draft. IsLower lows.now.claim.now draft.claim) }
    ensures each { IfOk result (λ draft. length draft.cites.items ≡ length draft.claim) }
{
    let marks = small_part(alloc, log, lows, cites)?;
    restricted(alloc, lows, cites, &marks)
}
