//! Gaps, and a number of steps that need not be given.

ghost use Rattle.std.specs.Prelude.{◌≡◌, IfOk, map, pos};
ghost use Rattle.dsaplan_c.specs.Given.{pair_of, steps_of};

use std::alloc::{AllocError, Global};

/// The first moment of a gap, and the moment after its last.
#[repr(C)]
#[derive(Clone, Copy)]
pub struct Gap {
    pub from: u64,
    pub to: u64,
}

/// The gaps as the planner takes them.
pub(crate) fn pairs(alloc: Global, gaps: &[Gap]) -> Result<Vec<(u64, u64)>, AllocError>
    ensures { IfOk result (λ pairs. pairs.items ≡ map pair_of gaps.now) }
{
    gaps.iter().map(|gap| (gap.from, gap.to)).collect(alloc)
}

/// The steps, where they are limited.
pub(crate) fn steps_of(is_limited: bool, steps: u64) -> Option<u64>
    ensures { result ≡ steps_of is_limited steps }
{
    if is_limited { Some(steps) } else { None }
}
