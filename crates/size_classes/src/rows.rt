//! A class as a row of slots of one width.

ghost use Rattle.std.specs.Prelude.{◌≡◌, ◌+◌, ◌^◌, ◌<◌, ◌≤◌, length, IfOk, OnOk};
ghost use Rattle.dsa_terms.specs.Buffers.{IsInstance};
ghost use Rattle.size_classes.specs.Plain.{IsPlain};
ghost use Rattle.size_classes.specs.Plans.{AreSetBelow, start_of};
ghost use Rattle.size_classes.specs.Slots.{slot_count};

use crate::colouring::slots;
use crate::sizes::{in_class, widest};
use dsa_model::{Instance, NoMemory};
use std::alloc::Global;

/// How many slots these are: one more than the greatest, and 0 for none.
fn slot_count(slots: &[u32]) -> u64
    ensures { result ≡ slot_count slots.now }
{
    let mut count = 0;
    for slot in slots {
        count = count.max(*slot as u64 + 1);
    }
    count
}

/// Gives each buffer of the class its offset, its slot of a row that begins at `start`; tells where
/// the row ends. All in bytes.
///
/// The caller owes a plain instance of at most 2^12 buffers, a class of at most 40, that the
/// classes below it end at `start`, and that their buffers have their offsets.
pub(crate) fn fill_row(
    alloc: Global,
    instance: &Instance,
    class: u32,
    start: u64,
    offsets: &mut [u64],
) -> Result<u64, NoMemory>
    requires sound { IsInstance instance.now }
    requires few { length instance.now ≤ 2 ^ 12 }
    requires plain { IsPlain instance.now }
    requires limit { class ≤ 40 }
    requires start { start ≡ start_of instance.now class }
    requires below { AreSetBelow instance.now class offsets.old }
    ensures end { IfOk result (λ end. end ≡ start_of instance.now (class + 1)) }
    ensures set { OnOk result (AreSetBelow instance.now (class + 1) offsets.new) }
{
    let members = in_class(alloc, instance, class)?;
    let slots = slots(alloc, instance, &members)?;
    let width = widest(instance, &members);
    for m in 0..members.len() {
        offsets[members[m] as usize] = start + width * slots[m] as u64;
    }
    Ok(start + width * slot_count(&slots))
}
