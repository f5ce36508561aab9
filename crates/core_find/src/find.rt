//! The search for a core.

ghost use Rattle.std.specs.Prelude.{◌≡◌, ◌+◌, ◌≤◌, IfOk, length};
ghost use Rattle.dsa_terms.specs.Logs.{IsAccepted};
ghost use Rattle.dsa_model.specs.Limits.{number_limit};
ghost use Rattle.core_find.specs.Found.{IsExplained, IsFound};

use crate::last_log::log_of;
use crate::looking::{Looking, refutes, start};
use crate::stepping::look_on;
use crate::{Ask, Asked, Core, Found};
use dsa_model::{Instance, NoMemory};
use refute_log::ClosedLog;
use std::alloc::Global;

/// The core of an instance that does not fit at the capacity, by this log. Each buffer in order of
/// number is dropped where the others that remain do not fit, and kept where they do.
fn core_of<A: Ask>(
    alloc: Global,
    instance: &Instance,
    capacity: u64,
    asker: &mut A,
    log: ClosedLog,
) -> Result<Core, NoMemory>
    requires limit { capacity ≤ number_limit }
    requires accepted { IsAccepted instance.now log }
    requires at { log.capacity ≡ capacity }
    ensures explained { IfOk result (IsExplained instance.now capacity) }
    ensures asks { A.asks asker.new ≤ A.asks asker.old + length instance.now }
{
    refutes(instance);
    let mut looking = start(alloc, instance, log)?;
    while looking.rests.len() < looking.members.len() {
        looking = look_on(alloc, instance, capacity, asker, looking)?;
    }
    let Looking {
        members,
        rests,
        log,
        before,
        ..
    } = looking;
    let log = log_of(alloc, instance, &members, log, before)?;
    Ok(Core {
        members,
        log,
        rests,
    })
}

/// Whether the buffers fit at the capacity in bytes, which is at most 2^60: a layout, or the core
/// of those that do not fit. The core is what is left where each buffer in order of number is
/// dropped if the others that remain do not fit.
///
/// The asker is asked of the instance, and then, for each buffer that the last log needs, whether
/// the others fit without it: its end names the buffer, and the stack of the end, if it has one, is
/// not over without it. So it is asked at most once more than there are buffers. The log is what is
/// left of the last one for the core.
pub fn find_core<A: Ask>(
    alloc: Global,
    instance: &Instance,
    capacity: u64,
    asker: &mut A,
) -> Result<Found, NoMemory>
    requires { capacity ≤ number_limit }
    ensures found { IfOk result (IsFound instance.now capacity) }
    ensures asks { A.asks asker.new ≤ A.asks asker.old + length instance.now + 1 }
{
    match asker.ask(alloc, instance, capacity)? {
        Asked::Layout(offsets) => Ok(Found::Fits(offsets)),
        Asked::Refuted(log) => {
            let core = core_of(alloc, instance, capacity, asker, log)?;
            Ok(Found::Core(core))
        }
    }
}
