//! The members that are looked at, one after another.

ghost use Rattle.std.specs.Prelude.{◌≡◌, ◌<◌, IfOk, length};
ghost use Rattle.dsa_terms.specs.Claims.{Entry, IsIn};
ghost use Rattle.dsa_terms.specs.Layouts.{IsInfeasible};
ghost use Rattle.dsa_terms.specs.Logs.{IsAccepted, Line as LineTerm, Log as LogTerm, claim_of};
ghost use Rattle.core_find.specs.Carried.{IsEnd, named};
ghost use Rattle.core_find.specs.Looking.{IsLooking, ahead};

use crate::members::all_members;
use dsa_model::{Instance, NoMemory};
use refute_log::ClosedLog;
use std::alloc::Global;

/// What is known while the members are looked at in order.
#[derive(Drop)]
pub(crate) struct Looking {
    /// Those that remain. The first ones are kept, as many as there are rests.
    pub(crate) members: Vec<u32>,
    /// For each kept member a layout of the others.
    pub(crate) rests: Vec<Vec<u64>>,
    /// Those that the end of the last log names: some of the members, which do not fit.
    pub(crate) named: Vec<u32>,
    /// The last log.
    pub(crate) log: ClosedLog,
    /// The members that the last log is of, where some were dropped since; none where it is of all
    /// that remain.
    pub(crate) before: Option<Vec<u32>>,
}

/// An accepted log of the instance leaves no layout at its capacity.
pub(crate) fn refutes(instance: &Instance)
    ensures { let I = instance.now in
        (log : LogTerm) → IsAccepted I log → IsInfeasible I log.capacity }
{
    let _count = instance.len();
    dsa_search_laws::accepted_log_refutes();
}

/// Of the members those that the end of their log names.
pub(crate) fn named_by(
    alloc: Global,
    members: &[u32],
    log: &ClosedLog,
) -> Result<Vec<u32>, NoMemory>
    requires { (line : LineTerm) → IsEnd log.now line → (e : Entry) → IsIn e (claim_of line) →
        e.0 < length members.now }
    ensures { IfOk result (λ them. (line : LineTerm) → IsEnd log.now line →
        them.items ≡ named members.now (claim_of line)) }
{
    let mut named = Vec::new(alloc);
    let pairs = log.line(log.end()).claim().pairs();
    for pair in pairs {
        named.push(members[pair.0 as usize])?;
    }
    Ok(named)
}

/// All members are still to be looked at.
pub(crate) fn start(alloc: Global, instance: &Instance, log: ClosedLog) -> Result<Looking, NoMemory>
    requires { IsAccepted instance.now log }
    ensures looking { IfOk result (IsLooking instance.now log.capacity) }
    ensures ahead { IfOk result (λ at. ahead at ≡ length instance.now) }
{
    let _count = instance.len();
    let members = all_members(alloc, instance)?;
    let named = named_by(alloc, &members, &log)?;
    Ok(Looking {
        members,
        rests: Vec::new(alloc),
        named,
        log,
        before: None,
    })
}
