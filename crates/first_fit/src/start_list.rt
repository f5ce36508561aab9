//! The six layouts from which a search starts.

ghost use Rattle.std.specs.Prelude.{◌≡◌, ◌++◌, ◌^◌, ◌<◌, ℕ, nat_le, List, map, length, position, find, option_map, IfOk, OnOk};
ghost use Rattle.std.specs.List.{All};
ghost use Rattle.dsa_terms.specs.Buffers.{Instance as InstanceTerm};
ghost use Rattle.dsa_terms.specs.Plans.{layout_height};
ghost use Rattle.dsa_terms.specs.Starts.{lowest_place, starts};
ghost use Rattle.first_fit.specs.Starts.{IsStart, height_in, offsets_at, offsets_by, offsets_in};

use crate::fits::{Fit, fitted};
use crate::orders::{Order, in_order};
use dsa_model::{Instance, NoMemory, height};
use std::alloc::{AllocError, Global};

/// A layout of an instance with its height.
#[derive(Drop)]
pub struct Start {
    /// The offset of each buffer, by number, in bytes.
    pub offsets: Vec<u64>,
    /// The greatest end of a buffer, in bytes; 0 for no buffers.
    pub height: u64,
}

/// The rule and the order of each of the six.
const WAYS: [(Fit, Order); 6] = [
    (Fit::First, Order::SizeFalling),
    (Fit::First, Order::LowerRising),
    (Fit::First, Order::AreaFalling),
    (Fit::Best, Order::SizeFalling),
    (Fit::Best, Order::LowerRising),
    (Fit::Best, Order::AreaFalling),
];

/// The start that places the buffers by the rule in the order.
fn make_start(
    alloc: Global,
    instance: &Instance,
    rule: Fit,
    order: Order,
) -> Result<Start, AllocError>
    ensures value { IfOk result (λ start.
        offsets_in start ≡ offsets_by instance.now (rule, order)) }
    ensures start { IfOk result (λ start. IsStart instance.now start) }
{
    let order = in_order(alloc, instance, order)?;
    let offsets = fitted(alloc, instance, rule, &order)?;
    Ok(Start {
        height: height(instance, &offsets),
        offsets,
    })
}

/// The six starting layouts: first-fit and then best-fit, each over the buffers by size falling, by
/// lower rising and by size times lifetime falling, gaps included; of equal buffers the one of
/// smaller number comes first.
pub fn starts(alloc: Global, instance: &Instance) -> Result<Vec<Start>, NoMemory>
    ensures value { IfOk result (λ made. map offsets_in made.items ≡ starts instance.now) }
    ensures sound { IfOk result (λ made. All (IsStart instance.now) made.items) }
    ensures heights { IfOk result (λ made.
        map height_in made.items ≡ map (layout_height instance.now) (starts instance.now)) }
{
    let mut made = Vec::new(alloc);
    for (rule, order) in WAYS {
        made.push(make_start(alloc, instance, rule, order)?)?;
    }
    Ok(made)
}

/// The place of the first start of least height.
///
/// The caller owes at least one start, and fewer than 2^32.
pub fn best_start(starts: &[Start]) -> u32
    requires some { 0 < length starts.now }
    requires few { length starts.now < 2 ^ 32 }
    ensures { result ≡ lowest_place (map height_in starts.now) }
{
    let mut best = 0;
    for s in 1..starts.len() {
        if starts[s].height < starts[best].height {
            best = s;
        }
    }
    best as u32
}

/// The place of the first start whose height is at most the capacity.
fn place_within(starts: &[Start], capacity: u64) -> Option<usize>
    ensures { result ≡ position (λ s. nat_le s.height capacity) starts.now }
{
    starts.iter().position(|start| start.height <= capacity)
}

/// The place of the first start whose height is at most the capacity, in bytes; none where no start
/// is within it.
pub fn first_within(starts: &[Start], capacity: u64) -> Option<usize>
    ensures place { result ≡ position (λ s. nat_le s.height capacity) starts.now }
    ensures offsets { (I : InstanceTerm) → All (IsStart I) starts.now →
        option_map (offsets_at starts.now) result
        ≡ find (λ offsets. nat_le (layout_height I offsets) capacity)
        (map offsets_in starts.now) }
{
    place_within(starts, capacity)
}
