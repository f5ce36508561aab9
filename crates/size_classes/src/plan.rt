//! The plan by size class.

ghost use Rattle.std.specs.Prelude.{◌≡◌, ◌^◌, ◌<◌, ◌≤◌, ℕ, Some, IfOk};
ghost use Rattle.dsa_terms.specs.Layouts.{IsLayout, IsLeast};
ghost use Rattle.dsa_model.specs.Fails.{UnlessNoMemory};
ghost use Rattle.size_classes.specs.Plain.{IsPlain, first_rough};
ghost use Rattle.size_classes.specs.Plans.{AllOf, IsPeakLoad, class_height, class_plan, power_height};

use crate::plain::first_rough;
use crate::rows::fill_row;
use dsa_model::{Fail, Instance, NoMemory};
use lifetime::Sections;
use load_profile::Profile;
use std::alloc::Global;

/// How many classes there are: no size is above 2^40.
const CLASSES: u32 = 41;

/// Why an instance has no plan by size class: this buffer, the least such one, has a gap, an
/// alignment above 1 or a lowest above 0.
#[derive(Clone, Copy, Debug, PartialEq, Eq)]
pub struct NotPlain {
    pub buffer: u32,
}

/// A plan by size class.
#[derive(Drop)]
pub struct ClassPlan {
    /// The offset of each buffer, by number, in bytes.
    pub offsets: Vec<u64>,
    /// Where the last class ends, in bytes; a buffer may end below it.
    pub height: u64,
    /// The greatest load of a moment in bytes, and 0 for no buffers.
    pub load: u64,
}

/// The offset of each buffer, and where the last class ends.
fn place(alloc: Global, instance: &Instance) -> Result<(Vec<u64>, u64), NoMemory>
    requires { IsPlain instance.now }
    ensures offsets { IfOk result (λ placed. placed.0.items ≡ class_plan instance.now) }
    ensures height { IfOk result (λ placed. placed.1 ≡ class_height instance.now) }
    ensures limit { IfOk result (λ placed. placed.1 < 2 ^ 54) }
{
    let mut offsets = vec![in alloc; 0u64; instance.len() as usize]?;
    let mut end = 0;
    for class in 0..CLASSES {
        end = fill_row(alloc, instance, class, end, &mut offsets)?;
    }
    Ok((offsets, end))
}

/// The greatest load of a moment in bytes, and 0 for no buffers.
fn peak_load(alloc: Global, instance: &Instance) -> Result<u64, NoMemory>
    ensures { IfOk result (IsPeakLoad instance.now) }
{
    let sections = Sections::build(alloc, instance)?;
    let profile = Profile::build(alloc, instance, &sections)?;
    Ok(match profile.peak() {
        Some((_, load)) => load,
        None => 0,
    })
}

/// The plan by size class, as pools of fixed blocks have it. A size is in the least class of which
/// two to the power is at least the size. Each class is a row of slots as wide as its greatest
/// size, and has as many as its buffers that are live at one moment at most; its buffers get their
/// slots as `slots` says. The rows stand one above another by rising class. The least buffer with a
/// gap, an alignment above 1 or a lowest above 0, where there is one.
pub fn classes(alloc: Global, instance: &Instance) -> Result<ClassPlan, Fail<NotPlain>>
    ensures value { UnlessNoMemory result
        (λ plan. (plan.offsets.items ≡ class_plan instance.now)
        × (plan.height ≡ class_height instance.now)
        × IsPeakLoad instance.now plan.load × IsPlain instance.now)
        (λ rough. first_rough instance.now ≡ Some rough.buffer) }
    ensures layout { IfOk result (λ plan.
        IsLayout instance.now plan.height plan.offsets.items) }
    ensures limit { IfOk result (λ plan. plan.height < 2 ^ 54) }
    ensures powers { IfOk result (λ plan. plan.height ≤ power_height instance.now) }
    ensures least { IfOk result (λ plan. (size : ℕ) → AllOf instance.now size →
        IsLeast instance.now plan.height × (plan.height ≡ plan.load)) }
{
    if let Some(buffer) = first_rough(instance) {
        return Err(Fail::Fault(NotPlain { buffer }));
    }
    let load = peak_load(alloc, instance)?;
    let (offsets, height) = place(alloc, instance)?;
    Ok(ClassPlan {
        offsets,
        height,
        load,
    })
}
