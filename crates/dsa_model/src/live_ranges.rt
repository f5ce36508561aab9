//! The ranges of moments at which a buffer is live. A range is the moments from its first number
//! up to and not including its second.

ghost use Rattle.std.specs.Prelude.{◌≡◌, ◌&&◌, ◌++◌, ◌^◌, ◌<◌, None, Some, IfOk, OnOk, length};
ghost use Rattle.std.specs.List.{All};
ghost use Rattle.std.specs.List.Sorted.{IsNonDecreasingBy, IsPermutation};
ghost use Rattle.dsa_model.specs.Buffer.{IsInside, gap_fault, lasting};
ghost use Rattle.dsa_model.specs.Fails.{UnlessNoMemory};
ghost use Rattle.dsa_model.specs.LiveRanges.{AreApartFrom, AreLiveRanges, is_in, range_of};
ghost use Rattle.dsa_model.specs.Moments.{IsLeastMoment};

use crate::buffer_fault::gap_list_fault;
use crate::{BufferFault, Fail};
use std::alloc::{AllocError, Global};

/// Appends the range of these ends, unless it would be empty.
fn push_range(ranges: &mut Vec<(u64, u64)>, from: u64, to: u64) -> Result<(), AllocError>
    ensures { OnOk result (ranges.new.items ≡ ranges.old.items ++ range_of from to) }
{
    if from < to {
        ranges.push((from, to))?;
    }
    Ok(())
}

/// The gaps by rising begin.
fn by_begin(alloc: Global, gaps: &[(u64, u64)]) -> Result<Vec<(u64, u64)>, AllocError>
    ensures same { IfOk result (λ sorted. IsPermutation gaps.now sorted.items) }
    ensures rising { IfOk result (λ sorted. IsNonDecreasingBy (λ gap. gap.0) sorted.items) }
{
    let mut sorted = gaps.to_vec(alloc)?;
    sorted.sort_unstable_by_key(|gap| gap.0);
    Ok(sorted)
}

/// The ranges of the lifetime that the gaps leave.
fn ranges_outside(
    alloc: Global,
    lower: u64,
    upper: u64,
    gaps: &[(u64, u64)],
) -> Result<Vec<(u64, u64)>, AllocError>
    requires { All (IsInside lower upper) gaps.now }
    ensures { IfOk result (λ ranges. AreLiveRanges (lasting lower upper gaps.now) ranges.items) }
{
    let sorted = by_begin(alloc, gaps)?;
    let mut ranges = Vec::with_capacity(alloc, gaps.len() + 1)?;
    let mut from = lower;
    for gap in &sorted {
        push_range(&mut ranges, from, gap.0)?;
        from = from.max(gap.1);
    }
    push_range(&mut ranges, from, upper)?;
    Ok(ranges)
}

/// The live ranges of a buffer of this lifetime and these gaps, or what is wrong with the gaps.
pub(crate) fn live_ranges(
    alloc: Global,
    lower: u64,
    upper: u64,
    gaps: &[(u64, u64)],
) -> Result<Vec<(u64, u64)>, Fail<BufferFault>>
    requires { length gaps.now < 2 ^ 32 }
    ensures { let b = lasting lower upper gaps.now in
        UnlessNoMemory result
        (λ ranges. (gap_fault b ≡ None) × AreLiveRanges b ranges.items)
        (λ fault. gap_fault b ≡ Some fault) }
{
    if let Some(fault) = gap_list_fault(lower, upper, gaps) {
        return Err(Fail::Fault(fault));
    }
    let ranges = ranges_outside(alloc, lower, upper, gaps)?;
    if ranges.is_empty() {
        return Err(Fail::Fault(BufferFault::NeverLive));
    }
    Ok(ranges)
}

/// Whether the moment lies in one of the ranges.
pub(crate) fn is_in(ranges: &[(u64, u64)], t: u64) -> bool
    requires { AreApartFrom 0 ranges.now }
    ensures { result ≡ is_in ranges.now t }
{
    let place = ranges.partition_point(|range| range.1 <= t);
    place < ranges.len() && ranges[place].0 <= t
}

/// The least moment that lies in a range of each of the two lists.
pub(crate) fn first_in_both(mine: &[(u64, u64)], theirs: &[(u64, u64)]) -> Option<u64>
    requires mine { AreApartFrom 0 mine.now }
    requires theirs { AreApartFrom 0 theirs.now }
    ensures { IsLeastMoment (λ t. is_in mine.now t && is_in theirs.now t) 0 result }
{
    let mut m = 0;
    let mut n = 0;
    while m < mine.len() && n < theirs.len() {
        let (start, end) = mine[m];
        let (other_start, other_end) = theirs[n];
        let first = start.max(other_start);
        if first < end.min(other_end) {
            return Some(first);
        }
        if end <= other_end {
            m += 1;
        } else {
            n += 1;
        }
    }
    None
}
