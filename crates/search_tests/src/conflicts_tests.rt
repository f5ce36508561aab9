//! Look-up and easing over worked lines at capacity 4.

ghost use Rattle.std.specs.Prelude.{◌^◌, ◌≤◌, ◌<◌, IfOk, IfSome, length};
ghost use Rattle.dsa_terms.specs.Claims.{Rises, buffers_of};
ghost use Rattle.dsa_model.specs.Limits.{number_limit};
ghost use Rattle.canonical_order.specs.Claims.{IsBoundedBy};
ghost use Rattle.refute_log.specs.Lines.{IsWithin, line_value};
ghost use Rattle.refute_log.specs.Logs.{Belongs};

use crate::instances::{Row, instance_of};
use canonical_order::{Claim, View};
use conflicts::{Lemmas, ease};
use dsa_model::{Fail, Instance, NoMemory};
use refute_log::{Cite, Cites, Line, Log, Reason};
use std::alloc::Global;

/// Two buffers of size 1 at even offsets and one of size 2, all live at moment 0, and one that is
/// live at moment 1.
const FOUR: &[Row] = &[(0, 1, 1, 2), (0, 1, 1, 2), (0, 1, 2, 1), (1, 2, 1, 1)];

/// The Over line of these pairs at moment 0.
fn over(alloc: Global, pairs: &[(u32, u64)], height: u64, modulus: u64) -> Result<Line, NoMemory>
    requires rises { Rises (buffers_of pairs.now) }
    requires count { length pairs.now < 2 ^ 32 }
    requires bounds { IsBoundedBy number_limit pairs.now }
    requires height { height ≤ number_limit }
    requires modulus { modulus ≤ number_limit }
    ensures { IfOk result (λ line. IsWithin (line_value line)) }
{
    let claim = Claim::from_pairs(alloc, pairs)?;
    Ok(Line::Over {
        claim,
        moment: 0,
        height,
        modulus,
    })
}

/// The line that refutes the second buffer from 2 on with the third one from the bound on, by the
/// lines 0 and 1.
fn both(alloc: Global, bound: u64) -> Result<Line, NoMemory>
    requires { bound ≤ number_limit }
    ensures { IfOk result (λ line. IsWithin (line_value line)) }
{
    let claim = Claim::from_pairs(alloc, &[(1, 2), (2, bound)])?;
    let cites = [Cite::Line(0), Cite::Line(1)].to_vec(alloc)?;
    Ok(Line::Cases {
        claim,
        cites: Cites::from_vec(cites),
    })
}

/// The line of `both` with the bound 1 and the fourth buffer beside, which comes first in vain by
/// line 2.
fn both_beside(alloc: Global) -> Result<Line, NoMemory>
    ensures { IfOk result (λ line. IsWithin (line_value line)) }
{
    let claim = Claim::from_pairs(alloc, &[(1, 2), (2, 1), (3, 0)])?;
    let cites = [Cite::Line(0), Cite::Line(1), Cite::Line(2)].to_vec(alloc)?;
    Ok(Line::Cases {
        claim,
        cites: Cites::from_vec(cites),
    })
}

/// The line, eased, once the log has taken it.
fn eased(
    alloc: Global,
    instance: &Instance,
    log: &mut Log,
    line: Line,
) -> Result<Line, Fail<Reason>>
    requires belongs { Belongs instance.now log.old }
    requires within { IsWithin (line_value line) }
    ensures belongs { Belongs instance.now log.new }
{
    let copied = line.copy(alloc)?;
    log.push(instance, copied)?;
    Ok(ease(alloc, instance, log, line)?)
}

/// The line of all four at height 10, eased.
fn eased_over(alloc: Global, four: &Instance) -> Option<Line> {
    let mut log = Log::new(alloc, four, 4);
    let line = over(alloc, &[(0, 9), (1, 10), (2, 10), (3, 0)], 10, 2).ok()?;
    eased(alloc, four, &mut log, line).ok()
}

/// Whether it is a line of the same kind that has the first two from 2 on, at height 2.
fn is_eased_over(alloc: Global, four: &Instance) -> bool {
    match eased_over(alloc, four) {
        Some(Line::Over { claim, height, .. }) => {
            claim.pairs() == [(0, 2), (1, 2)].as_slice() && height == 2
        }
        _ => false,
    }
}

#[test]
fn an_over_line_keeps_what_it_stacks_from_its_least_height_on(rt: HostRuntime) {
    let four = instance_of(rt.alloc(), FOUR).expect(&rt, "memory");
    assert!(rt; is_eased_over(rt.alloc(), &four));
}

/// Appends the line of one buffer from the height on at moment 0, too high for 4.
fn push_over(
    alloc: Global,
    four: &Instance,
    log: &mut Log,
    b: u32,
    height: u64,
) -> Result<u64, Fail<Reason>>
    requires height { height ≤ number_limit }
    requires belongs { Belongs four.now log.old }
    ensures belongs { Belongs four.now log.new }
{
    let line = over(alloc, &[(b, height)], height, 1)?;
    log.push(four, line)
}

/// The log of lines 0 and 1: the third buffer is too high from 3 on, the second one from 4 on.
fn log_of_two(alloc: Global, four: &Instance) -> Option<Log>
    ensures { IfSome result (Belongs four.now) }
{
    let mut log = Log::new(alloc, four, 4);
    push_over(alloc, four, &mut log, 2, 3).ok()?;
    push_over(alloc, four, &mut log, 1, 4).ok()?;
    Some(log)
}

/// Whether the line is made, and is eased to bounds of 1.
fn is_eased(alloc: Global, four: &Instance, log: &mut Log, made: Result<Line, NoMemory>) -> bool
    requires belongs { Belongs four.now log.old }
    requires within { IfOk made (λ line. IsWithin (line_value line)) }
    ensures belongs { Belongs four.now log.new }
{
    let Ok(line) = made else {
        return false;
    };
    match eased(alloc, four, log, line) {
        Ok(line) => line.claim().pairs() == [(1, 1), (2, 1)].as_slice(),
        Err(_) => false,
    }
}

/// Whether the line of `both` with the bound 1, that with the fourth buffer beside and that with
/// the bound 2 are eased so after lines 0 and 1.
fn are_eased(alloc: Global, four: &Instance) -> bool {
    match log_of_two(alloc, four) {
        Some(mut log) => {
            is_eased(alloc, four, &mut log, both(alloc, 1))
                && is_eased(alloc, four, &mut log, both_beside(alloc))
                && is_eased(alloc, four, &mut log, both(alloc, 2))
        }
        None => false,
    }
}

#[test]
fn a_cases_line_keeps_no_bound_and_no_buffer_that_no_cite_needs(rt: HostRuntime) {
    let four = instance_of(rt.alloc(), FOUR).expect(&rt, "memory");
    assert!(rt; are_eased(rt.alloc(), &four));
}

/// Lines 0 and 1 of `log_of_two`, and the line of `both`.
fn lemmas_of_three(alloc: Global, four: &Instance) -> Option<Lemmas>
    ensures { IfSome result (Belongs four.now) }
{
    let mut lemmas = Lemmas::new(alloc, log_of_two(alloc, four)?);
    lemmas.push(four, both(alloc, 1).ok()?).ok()?;
    Some(lemmas)
}

/// The least line that covers the claim, which has buffers of the instance alone.
fn found(instance: &Instance, lemmas: &Lemmas, claim: &Claim) -> Option<u64> {
    match claim.out_of_range(instance.len()) {
        Some(_) => None,
        None => lemmas.find(&View { instance, claim }),
    }
}

/// Whether it is this one for the second and the third buffer from these bounds on.
fn is_found(
    alloc: Global,
    four: &Instance,
    lemmas: &Lemmas,
    bounds: (u64, u64),
    want: Option<u64>,
) -> bool
    requires second { bounds.0 ≤ number_limit }
    requires third { bounds.1 ≤ number_limit }
{
    match Claim::from_pairs(alloc, &[(1, bounds.0), (2, bounds.1)]) {
        Ok(claim) => found(four, lemmas, &claim) == want,
        Err(_) => false,
    }
}

/// Whether it is so for four claims.
fn are_found(alloc: Global, four: &Instance, lemmas: &Lemmas) -> bool {
    is_found(alloc, four, lemmas, (2, 3), Some(0))
        && is_found(alloc, four, lemmas, (3, 2), Some(1))
        && is_found(alloc, four, lemmas, (1, 1), Some(2))
        && is_found(alloc, four, lemmas, (0, 2), None)
}

#[test]
fn the_least_covering_line_is_found(rt: HostRuntime) {
    let four = instance_of(rt.alloc(), FOUR).expect(&rt, "memory");
    let lemmas = lemmas_of_three(rt.alloc(), &four).expect(&rt, "legal lines");
    assert!(rt; are_found(rt.alloc(), &four, &lemmas));
}
