//! The log of the core.

ghost use Rattle.std.specs.Prelude.{◌≡◌, ◌<◌, All, IfOk, length};
ghost use Rattle.dsa_terms.specs.Claims.{Rises};
ghost use Rattle.dsa_terms.specs.Logs.{IsAccepted};
ghost use Rattle.dsa_model.specs.Chosen.{some_of};
ghost use Rattle.core_find.specs.Carried.{NeedsOnly};
ghost use Rattle.core_find.specs.Looking.{members_before};

use crate::fewer_log::log_of_fewer;
use dsa_model::{Instance, NoMemory};
use refute_log::ClosedLog;
use std::alloc::Global;

/// A log of the members: the last one where it is of all of them, else what is left of it for
/// these. `before` are the members that the last one is of, where these are more.
pub(crate) fn log_of(
    alloc: Global,
    instance: &Instance,
    members: &[u32],
    log: ClosedLog,
    before: Option<Vec<u32>>,
) -> Result<ClosedLog, NoMemory>
    requires before_in_range { let before = members_before before members.now in
        All (λ b. b < length instance.now) before }
    requires in_range { All (λ b. b < length instance.now) members.now }
    requires rises { Rises members.now }
    requires needs { let before = members_before before members.now in
        NeedsOnly instance.now before members.now log }
    ensures accepted { IfOk result (IsAccepted (some_of instance.now members.now)) }
    ensures capacity { IfOk result (λ found. found.capacity ≡ log.capacity) }
{
    match before {
        None => Ok(log),
        Some(before) => log_of_fewer(alloc, instance, &log, &before, members),
    }
}
