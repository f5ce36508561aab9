//! Sets of buffers as bits.

use canonical_order::Claim;

/// The bit that stands for the buffer, and for each other whose number differs from its by a
/// multiple of 64.
pub fn bit_of(b: u32) -> u64 {
    1u64 << (b % 64)
}

/// The bits of the claim's buffers.
pub(crate) fn bits_of(claim: &Claim) -> u64 {
    let mut bits = 0;
    for pair in claim.pairs() {
        bits |= bit_of(pair.0);
    }
    bits
}
