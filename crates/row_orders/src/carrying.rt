//! Offsets by the numbers of the instance, from those by places of an order.

ghost use Rattle.std.specs.Prelude.{◌≡◌, ℕ, length, IfOk};
ghost use Rattle.dsa_terms.specs.Buffers.{Instance as InstanceTerm};
ghost use Rattle.dsa_terms.specs.Layouts.{IsLayout};
ghost use Rattle.dsa_model.specs.Chosen.{some_of};
ghost use Rattle.first_fit.specs.Rules.{IsOrderOf};
ghost use Rattle.row_orders.specs.Carried.{HasEachOnce, carried_back};

use dsa_model::NoMemory;
use std::alloc::Global;

/// The offsets, in bytes, by the numbers of the instance: the buffer that the order names at a
/// place gets the offset at that place. So a layout of `Instance::some_of` the order becomes one of
/// the instance.
///
/// The caller owes an order that has each number below its length once, and as many offsets.
pub fn carry_back(alloc: Global, order: &[u32], offsets: &[u64]) -> Result<Vec<u64>, NoMemory>
    requires once { HasEachOnce order.now }
    requires count { length offsets.now ≡ length order.now }
    ensures value { IfOk result (λ back. back.items ≡ carried_back order.now offsets.now) }
    ensures layout { IfOk result (λ back. (I : InstanceTerm) (C : ℕ) → IsOrderOf I order.now →
        IsLayout (some_of I order.now) C offsets.now → IsLayout I C back.items) }
{
    let mut back = vec![in alloc; 0u64; order.len()]?;
    for (place, &b) in order.iter().enumerate() {
        back[b as usize] = offsets[place];
    }
    Ok(back)
}
