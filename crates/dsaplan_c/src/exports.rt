//! The calls.

ghost use Rattle.std.specs.Prelude.{◌≡◌, ◌<◌, ◌≤◌, length};
ghost use Rattle.dsa_terms.specs.Layouts.{IsInfeasible, IsLayout, IsLeast};
ghost use Rattle.dsa_plan.specs.Arrays.{instance_of};
ghost use Rattle.dsaplan_c.specs.Given.{given, steps_of};
ghost use Rattle.dsaplan_c.specs.Says.{SaysLeast, SaysPacked, SaysPlan};

use crate::arrays::{Gap, pairs, steps_of};
use crate::detail::Detail;
use crate::told::{least_detail, least_status, plan_detail, plan_status};
use dsa_plan::{Answer, Arrays, LeastAnswer};
use std::alloc::Global;

/// `dsa_plan::Arrays::plan_at`: a layout of the buffers within the capacity. The status is 0 where
/// one is written, 1 where there is none, 2 where the steps are used up, 3 where lengths differ, 4
/// for too many buffers and for a bad one, and 6 without memory. Nothing is written but with 0.
#[unsafe(no_mangle)]
pub extern "C" fn dsaplan_plan_at(
    alloc: Global,
    lower: &[u64],
    upper: &[u64],
    size: &[u64],
    alignment: &[u64],
    lowest: &[u64],
    gaps: &[Gap],
    gap_counts: &[u32],
    capacity: u64,
    is_limited: bool,
    steps: u64,
    offsets: &mut [u64],
    detail: &mut Detail,
) -> u32
    ensures says { SaysPlan
        (given lower.now upper.now size.now alignment.now lowest.now gaps.now gap_counts.now)
        capacity (steps_of is_limited steps) offsets.old offsets.new result detail.new }
    ensures fits { result ≡ 0 → IsLayout (instance_of
        (given lower.now upper.now size.now alignment.now lowest.now gaps.now gap_counts.now))
        capacity offsets.new }
    ensures does_not_fit { result ≡ 1 → IsInfeasible (instance_of
        (given lower.now upper.now size.now alignment.now lowest.now gaps.now gap_counts.now))
        capacity }
    ensures unchanged { 0 < result → offsets.new ≡ offsets.old }
{
    let answer = match pairs(alloc, gaps) {
        Ok(gaps) => {
            Arrays::without_gaps(lower, upper, size, alignment, lowest)
                .with_gaps(&gaps, gap_counts)
                .plan_at(alloc, capacity, steps_of(is_limited, steps), offsets)
        }
        Err(_) => Answer::NoMemory,
    };
    *detail = plan_detail(answer);
    plan_status(answer)
}

/// `dsa_plan::Arrays::plan_least`: a layout of the buffers of the least capacity, which both ends
/// of the detail then are. The status is 0 for that, 2 where the steps are used up, and a layout of
/// the height of the upper end is written, 3 where lengths differ, 4 for too many buffers and for a
/// bad one, and 6 without memory. Nothing is written but with 0 and 2.
#[unsafe(no_mangle)]
pub extern "C" fn dsaplan_least(
    alloc: Global,
    lower: &[u64],
    upper: &[u64],
    size: &[u64],
    alignment: &[u64],
    lowest: &[u64],
    gaps: &[Gap],
    gap_counts: &[u32],
    is_limited: bool,
    steps: u64,
    offsets: &mut [u64],
    detail: &mut Detail,
) -> u32
    ensures says { SaysLeast
        (given lower.now upper.now size.now alignment.now lowest.now gaps.now gap_counts.now)
        (steps_of is_limited steps) offsets.old offsets.new result detail.new }
    ensures least { result ≡ 0 → IsLeast (instance_of
        (given lower.now upper.now size.now alignment.now lowest.now gaps.now gap_counts.now))
        detail.new.high }
    ensures layout { result ≤ 2 → IsLayout (instance_of
        (given lower.now upper.now size.now alignment.now lowest.now gaps.now gap_counts.now))
        detail.new.high offsets.new }
    ensures unchanged { 2 < result → offsets.new ≡ offsets.old }
{
    let answer = match pairs(alloc, gaps) {
        Ok(gaps) => {
            Arrays::without_gaps(lower, upper, size, alignment, lowest)
                .with_gaps(&gaps, gap_counts)
                .plan_least(alloc, steps_of(is_limited, steps), offsets)
        }
        Err(_) => LeastAnswer::NoMemory,
    };
    *detail = least_detail(answer);
    least_status(answer)
}

/// `dsa_plan::Arrays::pack`: the lowest layout of the buffers that it finds in so many steps; its
/// height is the upper end of the detail. The status is 0 where that is the least capacity, 2 where
/// it may not be, 3 where lengths differ, 4 for too many buffers and for a bad one, and 6 without
/// memory. Nothing is written but with 0 and 2.
#[unsafe(no_mangle)]
pub extern "C" fn dsaplan_pack(
    alloc: Global,
    lower: &[u64],
    upper: &[u64],
    size: &[u64],
    alignment: &[u64],
    lowest: &[u64],
    gaps: &[Gap],
    gap_counts: &[u32],
    steps: u64,
    offsets: &mut [u64],
    detail: &mut Detail,
) -> u32
    ensures says { SaysPacked
        (given lower.now upper.now size.now alignment.now lowest.now gaps.now gap_counts.now)
        steps offsets.old offsets.new result detail.new }
    ensures least { result ≡ 0 → IsLeast (instance_of
        (given lower.now upper.now size.now alignment.now lowest.now gaps.now gap_counts.now))
        detail.new.high }
    ensures layout { result ≤ 2 → IsLayout (instance_of
        (given lower.now upper.now size.now alignment.now lowest.now gaps.now gap_counts.now))
        detail.new.high offsets.new }
    ensures unchanged { 2 < result → offsets.new ≡ offsets.old }
{
    let answer = match pairs(alloc, gaps) {
        Ok(gaps) => {
            Arrays::without_gaps(lower, upper, size, alignment, lowest)
                .with_gaps(&gaps, gap_counts)
                .pack(alloc, steps, offsets)
        }
        Err(_) => LeastAnswer::NoMemory,
    };
    *detail = least_detail(answer);
    least_status(answer)
}
