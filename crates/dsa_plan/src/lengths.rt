//! Whether the arrays are as long as each other.

ghost use Rattle.std.specs.Prelude.{◌≡◌, ◌==◌, sum};
ghost use Rattle.dsa_plan.specs.Arrays.{arrays_of};
ghost use Rattle.dsa_plan.specs.Faults.{have_gaps, have_numbers, have_one_length};

use crate::arrays::Arrays;

/// Whether the counts add up to the number of gaps.
fn do_add_up(counts: &[u32], gaps: usize) -> bool
    ensures { result ≡ (sum counts.now == gaps) }
{
    let mut left = gaps;
    for &count in counts {
        if left < count as usize {
            return false;
        }
        left -= count as usize;
    }
    left == 0
}

/// Whether each array of numbers has that length.
fn have_numbers(arrays: &Arrays, n: usize) -> bool
    ensures { result ≡ have_numbers (arrays_of arrays.now) n }
{
    arrays.lower.len() == n
        && arrays.upper.len() == n
        && arrays.size.len() == n
        && arrays.alignment.len() == n
        && arrays.lowest.len() == n
}

/// Whether there is a count of gaps for each buffer, or none at all, and the counts add up.
fn have_gaps(arrays: &Arrays, n: usize) -> bool
    ensures { result ≡ have_gaps (arrays_of arrays.now) n }
{
    let counts = arrays.gap_counts.len();
    (counts == 0 || counts == n) && do_add_up(arrays.gap_counts, arrays.gaps.len())
}

/// Whether the arrays tell of so many buffers.
#[tactic(auto, unfolding(crate::specs::Faults::have_one_length))]
pub(crate) fn have_one_length(arrays: &Arrays, n: usize) -> bool
    ensures { result ≡ have_one_length (arrays_of arrays.now) n }
{
    have_numbers(arrays, n) && have_gaps(arrays, n)
}
