//! One member more is looked at.

ghost use Rattle.std.specs.Prelude.{◌≡◌, ◌+◌, ◌<◌, ◌≤◌, ℕ, List, All, IfOk, length};
ghost use Rattle.std.specs.List.{remove};
ghost use Rattle.dsa_terms.specs.Buffers.{Instance as InstanceTerm};
ghost use Rattle.dsa_terms.specs.Claims.{IsIn};
ghost use Rattle.dsa_model.specs.Limits.{number_limit};
ghost use Rattle.core_find.specs.Found.{rests_of};
ghost use Rattle.core_find.specs.Looking.{IsLooking, IsUnknown, ahead, next_member};

use crate::known::without_next;
use crate::looking::{Looking, named_by};
use crate::members::{others, sub_instance};
use crate::rests::leave_out;
use crate::{Ask, Asked};
use dsa_model::{Instance, NoMemory};
use std::alloc::Global;

/// The next member is dropped without asking, since the last log does not name it, so that the
/// others do not fit. `fewer` are the members without it.
fn dropped(looking: Looking, fewer: Vec<u32>) -> Looking
    requires more { length looking.rests.items < length looking.members.items }
    requires fewer { fewer.items ≡ remove looking.members.items (length looking.rests.items) }
    requires there { All (λ (rest : List ℕ). length looking.rests.items ≤ length rest)
        (rests_of looking.rests.items) }
    ensures looking { (I : InstanceTerm) (C : ℕ) → IsLooking I C looking →
        (IsIn (next_member looking) looking.named.items → ⊥) → IsLooking I C result }
    ensures nearer { ahead result < ahead looking }
{
    let Looking {
        members,
        mut rests,
        named,
        log,
        before,
    } = looking;
    let place = rests.len();
    leave_out(&mut rests, place);
    Looking {
        members: fewer,
        rests,
        named,
        log,
        before: Some(before.unwrap_or(members)),
    }
}

/// It is asked whether the others of the next member fit. It is kept, with a layout of them, if
/// they do, and dropped if not. `fewer` are the members without it.
fn asked<A: Ask>(
    alloc: Global,
    instance: &Instance,
    capacity: u64,
    asker: &mut A,
    looking: Looking,
    fewer: Vec<u32>,
) -> Result<Looking, NoMemory>
    requires limit { capacity ≤ number_limit }
    requires looking { IsLooking instance.now capacity looking }
    requires more { length looking.rests.items < length looking.members.items }
    requires fewer { fewer.items ≡ remove looking.members.items (length looking.rests.items) }
    ensures looking { IfOk result (IsLooking instance.now capacity) }
    ensures nearer { IfOk result (λ next. ahead next < ahead looking) }
    ensures asks { A.asks asker.new ≤ A.asks asker.old + 1 }
{
    let Looking {
        members,
        mut rests,
        named,
        log,
        before,
    } = looking;
    let place = rests.len();
    let some = sub_instance(alloc, instance, &fewer)?;
    let _count = some.len();
    match asker.ask(alloc, &some, capacity)? {
        Asked::Layout(rest) => {
            rests.push(rest)?;
            Ok(Looking {
                members,
                rests,
                named,
                log,
                before,
            })
        }
        Asked::Refuted(smaller) => {
            leave_out(&mut rests, place);
            let named = named_by(alloc, &fewer, &smaller)?;
            Ok(Looking {
                members: fewer,
                rests,
                named,
                log: smaller,
                before: None,
            })
        }
    }
}

/// Looks at the next member. It is kept, with a layout of the others, if they fit, and dropped if
/// they do not. Nothing is asked where the last log says that they do not.
pub(crate) fn look_on<A: Ask>(
    alloc: Global,
    instance: &Instance,
    capacity: u64,
    asker: &mut A,
    looking: Looking,
) -> Result<Looking, NoMemory>
    requires limit { capacity ≤ number_limit }
    requires looking { IsLooking instance.now capacity looking }
    requires more { length looking.rests.items < length looking.members.items }
    ensures looking { IfOk result (IsLooking instance.now capacity) }
    ensures nearer { IfOk result (λ next. ahead next < ahead looking) }
    ensures asks { A.asks asker.new ≤ A.asks asker.old + 1 }
    ensures unasked { (IsUnknown instance.now capacity looking → ⊥) →
        A.asks asker.new ≡ A.asks asker.old }
{
    let fewer = others(alloc, &looking.members, looking.rests.len())?;
    let known = without_next(alloc, instance, capacity, looking)?;
    let member = known.members[known.rests.len()];
    if known.named.contains(&member) {
        asked(alloc, instance, capacity, asker, known, fewer)
    } else {
        Ok(dropped(known, fewer))
    }
}
