//! What the last log says of the others of the next member.

ghost use Rattle.std.specs.Prelude.{◌≡◌, ◌<◌, ◌≤◌, IfOk, length};
ghost use Rattle.dsa_terms.specs.Claims.{IsIn};
ghost use Rattle.dsa_model.specs.Limits.{number_limit};
ghost use Rattle.core_find.specs.Looking.{IsLooking, IsUnknown, next_member};

use crate::looking::Looking;
use crate::members::{all_members, without};
use crate::stack::stack_log;
use dsa_model::{Instance, NoMemory};
use std::alloc::Global;

/// What is known, with a last log that does not name the next member where there is one: the stack
/// of the last log's end without it, if that is over. So where it names it all the same, the last
/// log does not say whether the others fit.
pub(crate) fn without_next(
    alloc: Global,
    instance: &Instance,
    capacity: u64,
    looking: Looking,
) -> Result<Looking, NoMemory>
    requires limit { capacity ≤ number_limit }
    requires looking { IsLooking instance.now capacity looking }
    requires more { length looking.rests.items < length looking.members.items }
    ensures looking { IfOk result (IsLooking instance.now capacity) }
    ensures members { IfOk result (λ at. at.members ≡ looking.members) }
    ensures rests { IfOk result (λ at. at.rests ≡ looking.rests) }
    ensures unknown { IfOk result (λ at. IsIn (next_member looking) at.named.items →
        IsUnknown instance.now capacity looking) }
{
    let _count = instance.len();
    let member = looking.members[looking.rests.len()];
    if !looking.named.contains(&member) {
        return Ok(looking);
    }
    let few = without(alloc, &looking.named, member)?;
    let end = looking.log.line(looking.log.end());
    match stack_log(alloc, instance, capacity, end, &few)? {
        None => Ok(looking),
        Some(log) => {
            let all = all_members(alloc, instance)?;
            let Looking { members, rests, .. } = looking;
            Ok(Looking {
                members,
                rests,
                named: few,
                log,
                before: Some(all),
            })
        }
    }
}
