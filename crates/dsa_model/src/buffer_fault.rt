//! What is wrong with numbers that make no buffer.

ghost use Rattle.std.specs.Prelude.{◌≡◌, ◌^◌, ◌<◌, [], length, nat_lt, position, IfSome};
ghost use Rattle.dsa_model.specs.Buffer.{buffer_of, gap_limit, gap_list_fault, is_empty_gap, is_outside, lasting, lowest_fault, number_fault};

use thiserror::Error;

/// What is wrong with a buffer, in order of precedence. Gaps are numbered from 0, as given.
#[derive(Clone, Copy, Debug, PartialEq, Eq, Error)]
pub enum BufferFault {
    /// The lifetime ends where it begins, or before.
    #[error("the lifetime holds no moment")]
    EmptyLifetime,
    /// The size is 0 bytes.
    #[error("the size is 0")]
    ZeroSize,
    /// The size is above `SIZE_LIMIT`.
    #[error("the size is above 1099511627776")]
    TooLarge,
    /// The alignment is 0 bytes.
    #[error("the alignment is 0")]
    ZeroAlignment,
    /// The alignment is above `ALIGNMENT_LIMIT`.
    #[error("the alignment is above 4294967296")]
    AlignmentTooLarge,
    /// This gap, the first such one, ends where it begins, or before.
    #[error("gap {gap} holds no moment")]
    GapEmpty { gap: u32 },
    /// This gap, the first such one, begins before the lifetime or ends after it.
    #[error("gap {gap} leaves the lifetime")]
    GapOutside { gap: u32 },
    /// There are more than `GAP_LIMIT` gaps.
    #[error("there are more than 64 gaps")]
    TooManyGaps,
    /// The gaps cover the whole lifetime.
    #[error("the gaps cover the lifetime")]
    NeverLive,
    /// The least offset is above `LOWEST_LIMIT`.
    #[error("the least offset is above 1099511627776")]
    LowestTooLarge,
}

/// The greatest size, in bytes.
pub const SIZE_LIMIT: u64 = 1099511627776;

/// The greatest alignment, in bytes.
pub const ALIGNMENT_LIMIT: u64 = 4294967296;

/// The greatest least offset, in bytes.
pub const LOWEST_LIMIT: u64 = 1099511627776;

/// The greatest number of gaps of a buffer.
pub const GAP_LIMIT: usize = 64;

/// What is wrong with the lifetime, the size and the alignment.
pub(crate) fn number_fault(lower: u64, upper: u64, size: u64, alignment: u64) -> Option<BufferFault>
    ensures { result ≡ number_fault (buffer_of lower upper size alignment [] 0) }
{
    if upper <= lower {
        Some(BufferFault::EmptyLifetime)
    } else if size == 0 {
        Some(BufferFault::ZeroSize)
    } else if size > SIZE_LIMIT {
        Some(BufferFault::TooLarge)
    } else if alignment == 0 {
        Some(BufferFault::ZeroAlignment)
    } else if alignment > ALIGNMENT_LIMIT {
        Some(BufferFault::AlignmentTooLarge)
    } else {
        None
    }
}

/// The first gap that holds no moment.
fn first_empty_gap(gaps: &[(u64, u64)]) -> Option<usize>
    ensures place { result ≡ position is_empty_gap gaps.now }
    ensures within { IfSome result (λ gap. gap < length gaps.now) }
{
    gaps.iter().position(|gap| gap.1 <= gap.0)
}

/// The first gap that begins before the lifetime or ends after it.
fn first_outside_gap(lower: u64, upper: u64, gaps: &[(u64, u64)]) -> Option<usize>
    ensures place { result ≡ position (is_outside lower upper) gaps.now }
    ensures within { IfSome result (λ gap. gap < length gaps.now) }
{
    gaps.iter().position(|gap| gap.0 < lower || upper < gap.1)
}

/// Whether so many gaps are more than a buffer may have.
fn are_too_many(gaps: usize) -> bool
    ensures { result ≡ nat_lt gap_limit gaps }
{
    gaps > GAP_LIMIT
}

/// What is wrong with the gaps, whatever they leave of the lifetime.
pub(crate) fn gap_list_fault(lower: u64, upper: u64, gaps: &[(u64, u64)]) -> Option<BufferFault>
    requires { length gaps.now < 2 ^ 32 }
    ensures { result ≡ gap_list_fault (lasting lower upper gaps.now) }
{
    if let Some(gap) = first_empty_gap(gaps) {
        Some(BufferFault::GapEmpty { gap: gap as u32 })
    } else if let Some(gap) = first_outside_gap(lower, upper, gaps) {
        Some(BufferFault::GapOutside { gap: gap as u32 })
    } else if are_too_many(gaps.len()) {
        Some(BufferFault::TooManyGaps)
    } else {
        None
    }
}

/// What is wrong with the least offset.
pub(crate) fn lowest_fault(lowest: u64) -> Option<BufferFault>
    ensures { result ≡ lowest_fault (buffer_of 0 1 1 1 [] lowest) }
{
    (lowest > LOWEST_LIMIT).then_some(BufferFault::LowestTooLarge)
}
