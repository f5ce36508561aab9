//! Each call that takes memory, with memory.

ghost use Rattle.std.specs.Prelude.{IfSome};
ghost use Rattle.refute_log.specs.Lines.{IsWithin, line_value};

use crate::made::{THREE, buffers};
use canonical_order::Claim;
use dsa_model::{Fail, Instance};
use refute_log::{Cite, Cites, Line, Log, Reason};
use std::alloc::Global;

/// The line that the three buffers together are too large for 3.
fn whole_line(alloc: Global) -> Option<Line>
    ensures { IfSome result (λ line. IsWithin (line_value line)) }
{
    Some(Line::Over {
        claim: Claim::from_pairs(alloc, &[(0, 0), (1, 0), (2, 0)]).ok()?,
        moment: 0,
        height: 0,
        modulus: 1,
    })
}

/// The line that two of them do not fit, by the line before it and by the below rule.
fn cases_line(alloc: Global) -> Option<Line>
    ensures { IfSome result (λ line. IsWithin (line_value line)) }
{
    let claim = Claim::from_pairs(alloc, &[(1, 1), (2, 1)]).ok()?;
    let cites = [Cite::Line(0), Cite::Below(1)].to_vec(alloc).ok()?;
    let cites = Cites::from_vec(cites);
    Some(Line::Cases { claim, cites })
}

/// The number of a line that is pushed onto one log, and how many lines another one has that takes
/// it as a legal one and is closed.
fn numbers(alloc: Global, three: &Instance) -> Option<(u64, u64)> {
    let line = whole_line(alloc)?;
    let mut log = Log::new(alloc, three, 3);
    match log.push(three, line.copy(alloc).ok()?) {
        Ok(number) => {
            let mut known = Log::new(alloc, three, 3);
            let end = known.push_legal(three, line).ok()?;
            Some((number, known.close(three, end).ok()?.len()))
        }
        Err(_) => None,
    }
}

/// Why the second line is refused behind the first.
fn refusal(alloc: Global, three: &Instance) -> Option<Reason> {
    let mut log = Log::new(alloc, three, 3);
    log.push(three, whole_line(alloc)?).ok()?;
    let line = cases_line(alloc)?;
    match log.push(three, line.copy(alloc).ok()?) {
        Err(Fail::Fault(reason)) => Some(reason),
        _ => None,
    }
}

#[test]
fn a_log_takes_legal_lines_and_closes_at_a_whole_claim(rt: HostRuntime) {
    let three = buffers(rt.alloc(), THREE).expect(&rt, "memory");
    assert_eq!(rt; numbers(rt.alloc(), &three), Some((0, 1)));
    let refused = Reason::NotCovered { buffer: 1 };
    assert_eq!(rt; refusal(rt.alloc(), &three), Some(refused));
}
