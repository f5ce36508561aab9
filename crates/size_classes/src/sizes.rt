//! Classes of sizes.

ghost use Rattle.std.specs.Prelude.{◌≡◌, ◌<◌, length, IfOk};
ghost use Rattle.std.specs.List.{All};
ghost use Rattle.size_classes.specs.Classes.{class_of, in_class, widest};

use dsa_model::Instance;
use std::alloc::{AllocError, Global};

/// The least number of which two to the power is at least the size.
fn class_of(size: u64) -> u32
    ensures { result ≡ class_of size }
{
    if size <= 1 { 0 } else { (size - 1).ilog2() + 1 }
}

/// The buffers of the class, in rising order.
pub(crate) fn in_class(
    alloc: Global,
    instance: &Instance,
    class: u32,
) -> Result<Vec<u32>, AllocError>
    ensures { IfOk result (λ members. members.items ≡ in_class instance.now class) }
{
    let mut members = Vec::new(alloc);
    for b in 0..instance.len() {
        if class_of(instance.buffer(b).size()) == class {
            members.push(b)?;
        }
    }
    Ok(members)
}

/// The greatest size of these buffers in bytes, and 0 for none.
pub(crate) fn widest(instance: &Instance, members: &[u32]) -> u64
    requires { All (λ b. b < length instance.now) members.now }
    ensures { result ≡ widest instance.now members.now }
{
    let mut widest = 0;
    for b in members {
        widest = widest.max(instance.buffer(*b).size());
    }
    widest
}
