//! Which offsets are a layout, and what is wrong with the others.

ghost use Rattle.std.specs.Prelude.{◌≡◌, ◌<◌, ◌↔◌, ℕ, None, Some, length, IsOk, MatchResult, Err};
ghost use Rattle.dsa_terms.specs.Layouts.{IsLayout};
ghost use Rattle.dsa_model.specs.LayoutFaults.{IsOverlap, are_apart, first_above, first_overlap, first_too_low, first_unaligned, is_above, is_too_low, is_unaligned, layout_fault, overlap, overlap_after};

use crate::{Buffer, Instance};
use thiserror::Error;

/// What is wrong with offsets that are no layout, in order of precedence.
#[derive(Clone, Copy, Debug, PartialEq, Eq, Error)]
pub enum LayoutFault {
    /// There are more or fewer offsets than buffers.
    #[error("there must be one offset for each buffer")]
    WrongCount,
    /// The offset of this buffer, the least such one, is no multiple of its alignment.
    #[error("the offset of buffer {buffer} is not aligned")]
    Unaligned {
        buffer: u32,
    },
    /// The offset of this buffer, the least such one, is below its lowest.
    #[error("the offset of buffer {buffer} is below its lowest")]
    TooLow {
        buffer: u32,
    },
    /// This buffer, the least such one, ends above the capacity.
    #[error("buffer {buffer} ends above the capacity")]
    Above {
        buffer: u32,
    },
    /// These two buffers, the least such pair by `first` and then by `second`, have bytes in
    /// common at a moment at which both are live; `first < second`, and the moment is their first
    /// common one.
    #[error("buffers {first} and {second} overlap at moment {moment}")]
    Overlap {
        first: u32,
        second: u32,
        moment: u64,
    },
}

/// Whether the offset is no multiple of the buffer's alignment.
fn is_unaligned(buffer: &Buffer, offset: u64) -> bool
    ensures { result ≡ is_unaligned buffer.now offset }
{
    offset % buffer.alignment() != 0
}

/// Whether the offset is below the buffer's lowest.
fn is_too_low(buffer: &Buffer, offset: u64) -> bool
    ensures { result ≡ is_too_low buffer.now offset }
{
    offset < buffer.lowest()
}

/// Whether the buffer ends above the capacity. Nothing is added, since any offset may be asked of.
fn is_above(capacity: u64, buffer: &Buffer, offset: u64) -> bool
    ensures { result ≡ is_above capacity buffer.now offset }
{
    let size = buffer.size();
    capacity < size || capacity - size < offset
}

/// Whether one of the two ends at or below the start of the other.
fn are_apart(b: &Buffer, x: u64, c: &Buffer, y: u64) -> bool
    ensures { result ≡ are_apart b.now x c.now y }
{
    let (b_size, c_size) = (b.size(), c.size());
    if x <= y {
        b_size <= y - x
    } else {
        c_size <= x - y
    }
}

/// The least buffer whose offset is not aligned.
fn first_unaligned(instance: &Instance, offsets: &[u64]) -> Option<u32>
    requires { length offsets.now ≡ length instance.now }
    ensures { result ≡ first_unaligned instance.now offsets.now }
{
    for b in 0..instance.len() {
        if is_unaligned(instance.buffer(b), offsets[b as usize]) {
            return Some(b);
        }
    }
    None
}

/// The least buffer whose offset is below its lowest.
fn first_too_low(instance: &Instance, offsets: &[u64]) -> Option<u32>
    requires { length offsets.now ≡ length instance.now }
    ensures { result ≡ first_too_low instance.now offsets.now }
{
    for b in 0..instance.len() {
        if is_too_low(instance.buffer(b), offsets[b as usize]) {
            return Some(b);
        }
    }
    None
}

/// The least buffer that ends above the capacity.
fn first_above(instance: &Instance, capacity: u64, offsets: &[u64]) -> Option<u32>
    requires { length offsets.now ≡ length instance.now }
    ensures { result ≡ first_above instance.now capacity offsets.now }
{
    for b in 0..instance.len() {
        if is_above(capacity, instance.buffer(b), offsets[b as usize]) {
            return Some(b);
        }
    }
    None
}

/// The overlap of two buffers. The moments of a pair that is apart are not looked at.
fn overlap(instance: &Instance, offsets: &[u64], first: u32, second: u32) -> Option<LayoutFault>
    requires count { length offsets.now ≡ length instance.now }
    requires first_in_range { first < length instance.now }
    requires second_in_range { second < length instance.now }
    ensures { result ≡ overlap instance.now offsets.now first second }
{
    let b = instance.buffer(first);
    let c = instance.buffer(second);
    if are_apart(b, offsets[first as usize], c, offsets[second as usize]) {
        return None;
    }
    match b.first_common(c) {
        Some(moment) => Some(LayoutFault::Overlap {
            first,
            second,
            moment,
        }),
        None => None,
    }
}

/// The first overlap of the buffer with one of a greater number.
fn overlap_after(instance: &Instance, offsets: &[u64], first: u32) -> Option<LayoutFault>
    requires count { length offsets.now ≡ length instance.now }
    requires in_range { first < length instance.now }
    ensures { result ≡ overlap_after instance.now offsets.now first }
{
    let count = instance.len();
    for second in first + 1..count {
        if let Some(fault) = overlap(instance, offsets, first, second) {
            return Some(fault);
        }
    }
    None
}

/// The first overlap of all.
fn first_overlap(instance: &Instance, offsets: &[u64]) -> Option<LayoutFault>
    requires { length offsets.now ≡ length instance.now }
    ensures { result ≡ first_overlap instance.now offsets.now }
{
    for first in 0..instance.len() {
        if let Some(fault) = overlap_after(instance, offsets, first) {
            return Some(fault);
        }
    }
    None
}

/// The first fault of all.
fn layout_fault(instance: &Instance, capacity: u64, offsets: &[u64]) -> Option<LayoutFault>
    ensures { result ≡ layout_fault instance.now capacity offsets.now }
{
    if offsets.len() != instance.len() as usize {
        return Some(LayoutFault::WrongCount);
    }
    if let Some(buffer) = first_unaligned(instance, offsets) {
        return Some(LayoutFault::Unaligned { buffer });
    }
    if let Some(buffer) = first_too_low(instance, offsets) {
        return Some(LayoutFault::TooLow { buffer });
    }
    if let Some(buffer) = first_above(instance, capacity, offsets) {
        return Some(LayoutFault::Above { buffer });
    }
    first_overlap(instance, offsets)
}

/// Whether the offsets, in bytes and by the buffers' numbers, are a layout at the capacity: as many
/// as there are buffers, each a multiple of its buffer's alignment and at least its lowest, each
/// buffer within the capacity, and any two buffers apart at each moment at which both are live.
///
/// The answer is the first fault of: `WrongCount`; `Unaligned` of the least buffer; `TooLow` of the
/// least buffer; `Above` of the least buffer; `Overlap` of the least pair, at its first common
/// moment. Any capacity and any offsets may be given. No step goes through the moments of a
/// lifetime.
///
/// The question is that of Dynamic Storage Allocation (SR2, Garey and Johnson), with alignments,
/// gaps and least offsets.
pub fn judge(instance: &Instance, capacity: u64, offsets: &[u64]) -> Result<(), LayoutFault>
    ensures legal { IsOk result ↔ IsLayout instance.now capacity offsets.now }
    ensures cause { let first = layout_fault instance.now capacity offsets.now in
        MatchResult result (λ _. first ≡ None) (λ fault. first ≡ Some fault) }
    ensures least { (b c t : ℕ) → result ≡ Err (LayoutFault.Overlap b c t)
        → IsOverlap instance.now offsets.now b c t }
{
    match layout_fault(instance, capacity, offsets) {
        Some(fault) => Err(fault),
        None => Ok(()),
    }
}
