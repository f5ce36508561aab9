//! `find_core` over an asker that stacks all buffers.

ghost use Rattle.std.specs.Prelude.{◌≡◌, ◌≤◌, IfOk};
ghost use Rattle.dsa_terms.specs.Logs.{IsAccepted};
ghost use Rattle.dsa_model.specs.Limits.{number_limit};
ghost use Rattle.refute_log.specs.Lines.{IsWithin, line_value};

use crate::instances::{Row, instance_of};
use crate::numbers::numbers_below;
use canonical_order::Claim;
use core_find::{Ask, Asked, Found, find_core};
use dsa_model::{Instance, NoMemory, judge};
use refute_log::{ClosedLog, Line, Log};
use std::alloc::Global;

/// Answers where all buffers stand on one another, and where an Over line of all at moment 0 shows
/// that they don't fit. It counts how often it is asked.
#[derive(Drop)]
struct Stacker {
    asks: u64,
}

/// The offsets of buffers on one another.
fn stacked(alloc: Global, instance: &Instance) -> Result<Vec<u64>, NoMemory> {
    let mut offsets = Vec::new(alloc);
    let mut top: u64 = 0;
    for b in 0..instance.len() {
        offsets.push(top)?;
        top = top.saturating_add(instance.buffer(b).size());
    }
    Ok(offsets)
}

/// The line of all buffers at moment 0.
fn over_all(alloc: Global, instance: &Instance) -> Result<Line, NoMemory>
    ensures { IfOk result (λ line. IsWithin (line_value line)) }
{
    let count = instance.len();
    let members = numbers_below(alloc, count)?;
    let claim = Claim::whole(alloc, instance, &members)?;
    Ok(Line::Over {
        claim,
        moment: 0,
        height: 0,
        modulus: 1,
    })
}

/// A closed log of that line alone, where it is legal and refutes all.
fn closed_by(
    alloc: Global,
    instance: &Instance,
    capacity: u64,
    line: Line,
) -> Result<ClosedLog, NoMemory>
    requires limit { capacity ≤ number_limit }
    requires within { IsWithin (line_value line) }
    ensures accepted { IfOk result (IsAccepted instance.now) }
    ensures at { IfOk result (λ closed. closed.capacity ≡ capacity) }
{
    let mut log = Log::new(alloc, instance, capacity);
    if log.push(instance, line).is_err() {
        return Err(NoMemory);
    }
    match log.close(instance, 0) {
        Ok(closed) => Ok(closed),
        Err(_) => Err(NoMemory),
    }
}

/// What refutes the capacity, where the line of all buffers does.
fn refuted(alloc: Global, instance: &Instance, capacity: u64) -> Result<ClosedLog, NoMemory>
    requires limit { capacity ≤ number_limit }
    ensures accepted { IfOk result (IsAccepted instance.now) }
    ensures at { IfOk result (λ closed. closed.capacity ≡ capacity) }
{
    let line = over_all(alloc, instance)?;
    closed_by(alloc, instance, capacity, line)
}

impl Ask for Stacker {
    ghost asks = { λ s. s.asks };

    fn ask(
        &mut self,
        alloc: Global,
        instance: &Instance,
        capacity: u64,
    ) -> Result<Asked, NoMemory> {
        self.asks = self.asks.saturating_add(1);
        let offsets = stacked(alloc, instance)?;
        if judge(instance, capacity, &offsets).is_ok() {
            return Ok(Asked::Layout(offsets));
        }
        Ok(Asked::Refuted(refuted(alloc, instance, capacity)?))
    }
}

/// Some buffers that are live together, their core, if they do not fit, and how often is asked.
struct Case {
    rows: &'static [Row],
    capacity: u32,
    members: &'static [u32],
    asks: u64,
}

static CASES: [Case; 4] = [
    Case {
        rows: &[(0, 1, 4, 1); 4],
        capacity: 16,
        members: &[],
        asks: 1,
    },
    Case {
        rows: &[(0, 1, 4, 1); 4],
        capacity: 11,
        members: &[1, 2, 3],
        asks: 4,
    },
    Case {
        rows: &[(0, 1, 9, 1), (0, 1, 1, 1), (0, 1, 1, 1), (0, 1, 1, 1)],
        capacity: 8,
        members: &[0],
        asks: 2,
    },
    Case {
        rows: &[(0, 1, 1, 1), (0, 1, 3, 1), (0, 1, 5, 1), (0, 1, 3, 1)],
        capacity: 7,
        members: &[2, 3],
        asks: 3,
    },
];

/// Whether the core has these members, or there is none and all buffers fit.
fn has_members(found: &Found, members: &[u32]) -> bool {
    match found {
        Found::Fits(_offsets) => members.is_empty(),
        Found::Core(core) => core.members.as_slice() == members,
    }
}

/// Whether the core of the instance has the members of the case, and so often was asked.
fn has_core(alloc: Global, instance: &Instance, case: &Case) -> bool {
    let mut stacker = Stacker { asks: 0 };
    match find_core(alloc, instance, case.capacity as u64, &mut stacker) {
        Ok(found) => has_members(&found, case.members) && stacker.asks == case.asks,
        Err(_) => false,
    }
}

/// The same of the buffers of the case.
fn is_met(alloc: Global, case: &Case) -> bool {
    match instance_of(alloc, case.rows) {
        Ok(instance) => has_core(alloc, &instance, case),
        Err(_) => false,
    }
}

#[test]
fn buffers_are_dropped_in_order_while_the_others_do_not_fit(rt: HostRuntime) {
    for case in &CASES {
        assert!(rt; is_met(rt.alloc(), case), "at {}", case.capacity);
    }
}
