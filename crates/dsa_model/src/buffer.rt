//! A buffer.

ghost use Rattle.std.specs.Prelude.{◌≡◌, ◌^◌, ◌<◌, ◌≤◌, Some, IfOk, length};
ghost use Rattle.std.specs.Int.{next_multiple_of};
ghost use Rattle.dsa_terms.specs.Buffers.{floor, is_live};
ghost use Rattle.dsa_model.specs.Buffer.{IsBuffer, buffer_fault, buffer_of};
ghost use Rattle.dsa_model.specs.LiveRanges.{AreLiveRanges};
ghost use Rattle.dsa_model.specs.Fails.{UnlessNoMemory};

use crate::buffer_fault::{lowest_fault, number_fault};
use crate::live_ranges::{is_in, live_ranges};
use crate::{BufferFault, Fail, NoMemory};
use std::alloc::Global;
use std::marker::Model;

/// A buffer: when it lives, how large it is, of what its offset is a multiple, when it holds no
/// storage, and what its offset is at least. A contract sees it as the record of these.
///
/// It lives at the moments from `lower` up to and not including `upper`. A gap `a, b` is the
/// moments from `a` up to and not including `b`; the buffer holds no storage there, and keeps its
/// offset after it. No buffer has any fault of `BufferFault`, and all its times are at most
/// 2^62 - 1.
///
/// It keeps the ranges of moments at which it is live beside the gaps as they were given.
#[derive(Drop)]
pub struct Buffer {
    lower: u64,
    upper: u64,
    size: u64,
    alignment: u64,
    gaps: Vec<(u64, u64)>,
    lowest: u64,
    live: Vec<(u64, u64)>,
}

impl Model for Buffer {
    ghost use Rattle.dsa_terms.specs.Buffers.{Buffer as BufferTerm};
    ghost use Rattle.dsa_model.specs.Buffer.{IsBuffer, buffer_of};
    ghost use Rattle.dsa_model.specs.LiveRanges.{AreLiveRanges};

    ghost Value = { BufferTerm };

    ghost view = { λ b. buffer_of b.lower b.upper b.size b.alignment b.gaps.items b.lowest };

    ghost invariant = { λ b. let value = buffer_of b.lower b.upper b.size b.alignment b.gaps.items
        b.lowest in
        IsBuffer value × AreLiveRanges value b.live.items };
}

impl Buffer {
    /// The buffer of these numbers, or the first of its faults in the order of `BufferFault`. Times
    /// are moments; size, alignment and lowest, the least offset that the buffer may have, are
    /// bytes; the gaps are in any order and may overlap.
    ///
    /// The caller owes times of at most 2^62 - 1 and fewer than 2^32 gaps.
    pub fn new(
        alloc: Global,
        lower: u64,
        upper: u64,
        size: u64,
        alignment: u64,
        gaps: &[(u64, u64)],
        lowest: u64,
    ) -> Result<Buffer, Fail<BufferFault>>
        requires lower_limit { lower < 2 ^ 62 }
        requires upper_limit { upper < 2 ^ 62 }
        requires gap_count { length gaps.now < 2 ^ 32 }
        ensures value { let b = buffer_of lower upper size alignment gaps.now lowest in
            UnlessNoMemory result
            (λ made. (made ≡ b) × IsBuffer b)
            (λ fault. buffer_fault b ≡ Some fault) }
    {
        if let Some(fault) = number_fault(lower, upper, size, alignment) {
            return Err(Fail::Fault(fault));
        }
        let live = live_ranges(alloc, lower, upper, gaps)?;
        if let Some(fault) = lowest_fault(lowest) {
            return Err(Fail::Fault(fault));
        }
        let gaps = gaps.to_vec(alloc)?;
        Ok(Buffer {
            lower,
            upper,
            size,
            alignment,
            gaps,
            lowest,
            live,
        })
    }

    /// An equal buffer.
    pub fn copy(&self, alloc: Global) -> Result<Buffer, NoMemory>
        ensures value { IfOk result (λ copy. copy ≡ self.now) }
        ensures buffer { IfOk result IsBuffer }
    {
        Ok(Buffer {
            lower: self.lower,
            upper: self.upper,
            size: self.size,
            alignment: self.alignment,
            gaps: self.gaps.to_vec(alloc)?,
            lowest: self.lowest,
            live: self.live.to_vec(alloc)?,
        })
    }

    /// The first moment of the lifetime.
    pub fn lower(&self) -> u64
        ensures value { result ≡ self.now.lower }
        ensures buffer { IsBuffer self.now }
    {
        self.lower
    }

    /// The moment after the lifetime.
    pub fn upper(&self) -> u64
        ensures value { result ≡ self.now.upper }
        ensures buffer { IsBuffer self.now }
    {
        self.upper
    }

    /// The size in bytes.
    pub fn size(&self) -> u64
        ensures value { result ≡ self.now.size }
        ensures buffer { IsBuffer self.now }
    {
        self.size
    }

    /// The number of bytes of which the offset is a multiple; any number, not only a power of two.
    pub fn alignment(&self) -> u64
        ensures value { result ≡ self.now.alignment }
        ensures buffer { IsBuffer self.now }
    {
        self.alignment
    }

    /// The parts of the lifetime in which the buffer holds no storage, as they were given.
    pub fn gaps(&self) -> &[(u64, u64)]
        ensures value { result.now ≡ self.now.gaps }
        ensures buffer { IsBuffer self.now }
    {
        self.gaps.as_slice()
    }

    /// The least offset that the buffer may have, in bytes, as it was given.
    pub fn lowest(&self) -> u64
        ensures value { result ≡ self.now.lowest }
        ensures buffer { IsBuffer self.now }
    {
        self.lowest
    }

    /// The least multiple of the alignment at or above the lowest, in bytes: no layout has the
    /// buffer below it.
    #[tactic(auto, unfolding(dsa_terms::specs::Buffers::floor))]
    pub fn floor(&self) -> u64
        ensures value { result ≡ floor self.now }
        ensures buffer { IsBuffer self.now }
    {
        self.least_offset(self.lowest)
    }

    /// Whether the buffer holds storage at the moment `t`.
    pub fn live_at(&self, t: u64) -> bool
        ensures { result ≡ is_live self.now t }
    {
        is_in(&self.live, t)
    }

    /// The greatest ranges of moments at which the buffer is live, in rising order.
    pub(crate) fn live(&self) -> &[(u64, u64)]
        ensures { AreLiveRanges self.now result.now }
    {
        self.live.as_slice()
    }

    /// The least multiple of the alignment at or above `from`, in bytes.
    ///
    /// The caller owes a `from` of at most 2^62.
    pub fn least_offset(&self, from: u64) -> u64
        requires { from ≤ 2 ^ 62 }
        ensures { result ≡ next_multiple_of from self.now.alignment }
    {
        from.next_multiple_of(self.alignment)
    }
}
