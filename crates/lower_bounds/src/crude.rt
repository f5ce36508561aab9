//! A number that no stack by one modulus is above, told without any section.

ghost use Rattle.std.specs.Prelude.{◌≤◌, ℕ};
ghost use Rattle.dsa_terms.specs.Bounds.{highest_at};
ghost use Rattle.lower_bounds.specs.Stacks.{IsModulus};

use dsa_model::Instance;

/// No stack by the modulus is above that: the greatest floor of all buffers whose alignment is a
/// multiple of it, and all their rounded sizes.
pub(crate) fn crude(instance: &Instance, modulus: u64) -> u64
    requires { IsModulus modulus }
    ensures { (t : ℕ) → highest_at instance.now t modulus ≤ result }
{
    let mut top = 0;
    let mut total = 0;
    for b in 0..instance.len() {
        let buffer = instance.buffer(b);
        if buffer.alignment() % modulus == 0 {
            top = buffer.floor().max(top);
            total += buffer.size().next_multiple_of(modulus);
        }
    }
    top + total
}
