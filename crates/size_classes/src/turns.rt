//! The order in which the members of a class get their slots.

ghost use Rattle.std.specs.Prelude.{◌≡◌, IfOk};
ghost use Rattle.size_classes.specs.Slots.{AreMembers, in_turn};

use dsa_model::Instance;
use std::alloc::{AllocError, Global};

/// The members by lower, ties to the smaller number.
pub(crate) fn in_turn(
    alloc: Global,
    instance: &Instance,
    members: &[u32],
) -> Result<Vec<u32>, AllocError>
    requires { AreMembers instance.now members.now }
    ensures { IfOk result (λ turns. turns.items ≡ in_turn instance.now members.now) }
{
    let mut keys = Vec::with_capacity(alloc, members.len())?;
    for b in members {
        keys.push((instance.buffer(*b).lower(), *b))?;
    }
    keys.sort_unstable();
    keys.iter().map(|key| key.1).collect(alloc)
}
