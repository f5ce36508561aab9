//! Some of the buffers.

ghost use Rattle.std.specs.Prelude.{◌≡◌, ◌<◌, All, IfOk, length};
ghost use Rattle.std.specs.List.{remove};
ghost use Rattle.dsa_terms.specs.Claims.{Rises};
ghost use Rattle.dsa_terms.specs.Parts.{numbers};
ghost use Rattle.dsa_model.specs.Chosen.{some_of};
ghost use Rattle.core_find.specs.Cores.{without};

use dsa_model::{Instance, NoMemory};
use std::alloc::Global;

/// The buffers of these numbers as an instance of their own: its i-th buffer is the one that the
/// i-th number names.
///
/// The caller owes numbers that rise and are below `len`.
pub fn sub_instance(
    alloc: Global,
    instance: &Instance,
    members: &[u32],
) -> Result<Instance, NoMemory>
    requires rises { Rises members.now }
    requires in_range { All (λ b. b < length instance.now) members.now }
    ensures value { IfOk result (λ some. some ≡ some_of instance.now members.now) }
{
    let _count = instance.len();
    instance.some_of(alloc, members)
}

/// The numbers of all buffers.
pub(crate) fn all_members(alloc: Global, instance: &Instance) -> Result<Vec<u32>, NoMemory>
    ensures { IfOk result (λ members. members.items ≡ numbers (length instance.now)) }
{
    let mut members = Vec::new(alloc);
    for b in 0..instance.len() {
        members.push(b)?;
    }
    Ok(members)
}

/// The members without the one at the place.
pub(crate) fn others(alloc: Global, members: &[u32], place: usize) -> Result<Vec<u32>, NoMemory>
    requires { place < length members.now }
    ensures { IfOk result (λ others. others.items ≡ remove members.now place) }
{
    let mut others = members.to_vec(alloc)?;
    others.remove(place);
    Ok(others)
}

/// These members without b.
pub(crate) fn without(alloc: Global, members: &[u32], b: u32) -> Result<Vec<u32>, NoMemory>
    ensures { IfOk result (λ few. few.items ≡ without b members.now) }
{
    let few = members.iter().copied().filter(|c| *c != b).collect(alloc)?;
    Ok(few)
}
