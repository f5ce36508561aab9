//! Cutting an instance into its parts.

ghost use Rattle.std.specs.Prelude.{◌≡◌, ℕ, ◌<◌, ◌≤◌, ◌↔◌, IfOk, OnOk, length, map};
ghost use Rattle.std.specs.List.{All};
ghost use Rattle.dsa_terms.specs.Claims.{IsIn, Rises};
ghost use Rattle.dsa_terms.specs.Parts.{parts};
ghost use Rattle.dsa_model.specs.Buffer.{IsBuffer, buffer_limit};
ghost use Rattle.split_sections.specs.Sweep.{AreByLower, BeginsAt, IsRun};

use crate::Parts;
use dsa_model::{Instance, NoMemory};
use std::alloc::{AllocError, Global};

/// Each buffer's number behind its lower, by rising lower.
fn by_lower(alloc: Global, instance: &Instance) -> Result<Vec<(u64, u32)>, AllocError>
    ensures order { IfOk result (λ order. AreByLower instance.now order.items) }
    ensures buffers { OnOk result (All IsBuffer instance.now) }
    ensures limit { OnOk result (length instance.now ≤ buffer_limit) }
{
    let mut order = Vec::new(alloc);
    for b in 0..instance.len() {
        order.push((instance.buffer(b).lower(), b))?;
    }
    order.sort_unstable_by_key(|entry| entry.0);
    Ok(order)
}

/// The place past the part that begins at the place `first` of the order: that of the next buffer
/// past whose lower no earlier one reaches.
fn part_end(instance: &Instance, order: &[(u64, u32)], first: usize) -> usize
    requires order { AreByLower instance.now order.now }
    requires in_order { first < length order.now }
    requires begins { BeginsAt instance.now order.now first }
    ensures { IsRun instance.now order.now first result }
{
    let mut reach = instance.buffer(order[first].1).upper();
    for i in first + 1..order.len() {
        let (lower, b) = order[i];
        if reach <= lower {
            return i;
        }
        reach = instance.buffer(b).upper().max(reach);
    }
    order.len()
}

/// The numbers of the buffers in a piece of the order.
fn numbers_of(alloc: Global, entries: &[(u64, u32)]) -> Result<Vec<u32>, AllocError>
    ensures { IfOk result (λ numbers. numbers.items ≡ map (λ e. e.1) entries.now) }
{
    entries.iter().map(|entry| entry.1).collect(alloc)
}

/// The numbers, rising and each once.
fn distinct(mut numbers: Vec<u32>) -> Vec<u32>
    ensures rises { Rises result.items }
    ensures same { (x : ℕ) → IsIn x result.items ↔ IsIn x numbers.items }
{
    numbers.sort_unstable();
    numbers.dedup();
    numbers
}

/// The parts of the instance, in order of time. Buffers of two parts share no moment.
pub fn parts(alloc: Global, instance: &Instance) -> Result<Parts, NoMemory>
    ensures value { IfOk result (λ found. found ≡ parts instance.now) }
{
    let order = by_lower(alloc, instance)?;
    let mut parts = Vec::new(alloc);
    let mut first = 0;
    while first < order.len() {
        let next = part_end(instance, &order, first);
        parts.push(distinct(numbers_of(alloc, &order[first..next])?))?;
        first = next;
    }
    Ok(Parts::of_lists(parts))
}
