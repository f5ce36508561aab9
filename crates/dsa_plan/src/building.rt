//! The instance that arrays tell of.

ghost use Rattle.std.specs.Prelude.{◌≡◌, ◌+◌, ◌<◌, ◌≤◌, ◌^◌, None, Some, drop, length, slice_index, take, true};
ghost use Rattle.dsa_model.specs.Buffer.{buffer_limit};
ghost use Rattle.dsa_model.specs.Fails.{UnlessNoMemory};
ghost use Rattle.dsa_plan.specs.Arrays.{arrays_of, buffer_at, gaps_at, instance_of};
ghost use Rattle.dsa_plan.specs.Faults.{arrays_fault, buffers_fault, fault_at, have_one_length};

use crate::arrays::Arrays;
use crate::fault::{ArraysFault, NumbersFault};
use crate::lengths::have_one_length;
use dsa_model::{BUFFER_LIMIT, Buffer, Fail, Instance, TIME_LIMIT};
use std::alloc::Global;

/// How many gaps a buffer has.
fn gap_count(arrays: &Arrays, b: usize) -> u32
    ensures { result ≡ slice_index arrays.now.gap_counts.now b }
{
    if b < arrays.gap_counts.len() {
        arrays.gap_counts[b]
    } else {
        0
    }
}

/// The buffer of that number, whose gaps are these, or its first fault.
fn buffer(
    alloc: Global,
    arrays: &Arrays,
    b: usize,
    gaps: &[(u64, u64)],
) -> Result<Buffer, Fail<ArraysFault>>
    requires lengths { have_one_length (arrays_of arrays.now) (length arrays.now.lower.now) ≡ true }
    requires in_range { b < length arrays.now.lower.now }
    requires few { b < buffer_limit }
    requires gaps { gaps.now ≡ gaps_at (arrays_of arrays.now) b }
    requires gap_count { length gaps.now < 2 ^ 32 }
    ensures { let a = arrays_of arrays.now in UnlessNoMemory result
        (λ made. (made ≡ buffer_at a b) × (fault_at a b ≡ None))
        (λ fault. fault_at a b ≡ Some fault) }
{
    let (lower, upper) = (arrays.lower[b], arrays.upper[b]);
    if lower > TIME_LIMIT || upper > TIME_LIMIT {
        return Err(Fail::Fault(ArraysFault::BadBuffer {
            buffer: b as u32,
            fault: NumbersFault::TimeTooLarge,
        }));
    }
    let (size, alignment, lowest) = (arrays.size[b], arrays.alignment[b], arrays.lowest[b]);
    match Buffer::new(alloc, lower, upper, size, alignment, gaps, lowest) {
        Ok(buffer) => Ok(buffer),
        Err(Fail::Fault(fault)) => Err(Fail::Fault(ArraysFault::BadBuffer {
            buffer: b as u32,
            fault: NumbersFault::Buffer(fault),
        })),
        Err(Fail::NoMemory) => Err(Fail::NoMemory),
    }
}

/// The gaps from that one on, so many.
fn gaps_from<'a>(arrays: &Arrays<'a>, first: usize, count: u32) -> &'a [(u64, u64)]
    requires { first + count ≤ length arrays.now.gaps.now }
    ensures gaps { result.now ≡ take count (drop first arrays.now.gaps.now) }
    ensures few { length result.now < 2 ^ 32 }
{
    &arrays.gaps[first..first + count as usize]
}

/// The buffers, one after another, or the first fault of the first that has one.
fn buffers(alloc: Global, arrays: &Arrays) -> Result<Instance, Fail<ArraysFault>>
    requires lengths { have_one_length (arrays_of arrays.now) (length arrays.now.lower.now) ≡ true }
    requires few { length arrays.now.lower.now ≤ buffer_limit }
    ensures { let a = arrays_of arrays.now in UnlessNoMemory result
        (λ made. (made ≡ instance_of a) × (buffers_fault a ≡ None))
        (λ fault. buffers_fault a ≡ Some fault) }
{
    let mut instance = Instance::new(alloc);
    let mut first = 0;
    for b in 0..arrays.lower.len() {
        let count = gap_count(arrays, b);
        let gaps = gaps_from(arrays, first, count);
        let buffer = match buffer(alloc, arrays, b, gaps) {
            Ok(buffer) => buffer,
            Err(failure) => return Err(failure),
        };
        instance.push(buffer)?;
        first += gaps.len();
    }
    Ok(instance)
}

/// The instance of arrays of one length, or their first fault.
fn few_buffers(alloc: Global, arrays: &Arrays) -> Result<Instance, Fail<ArraysFault>>
    requires { have_one_length (arrays_of arrays.now) (length arrays.now.lower.now) ≡ true }
    ensures { let a = arrays_of arrays.now in let n = length a.lower in UnlessNoMemory result
        (λ made. (made ≡ instance_of a) × (arrays_fault a n ≡ None))
        (λ fault. arrays_fault a n ≡ Some fault) }
{
    if arrays.lower.len() > BUFFER_LIMIT as usize {
        Err(Fail::Fault(ArraysFault::TooMany))
    } else {
        buffers(alloc, arrays)
    }
}

/// The instance of `n` buffers that the arrays tell of, or their first fault.
pub(crate) fn instance(
    alloc: Global,
    arrays: &Arrays,
    n: usize,
) -> Result<Instance, Fail<ArraysFault>>
    ensures value { let a = arrays_of arrays.now in UnlessNoMemory result
        (λ made. (made ≡ instance_of a) × (length made ≡ n) × (arrays_fault a n ≡ None))
        (λ fault. arrays_fault a n ≡ Some fault) }
{
    if have_one_length(arrays, n) {
        few_buffers(alloc, arrays)
    } else {
        Err(Fail::Fault(ArraysFault::LengthsDiffer))
    }
}
