//! How a claim stands to the levels of another one.

ghost use Rattle.std.specs.Prelude.{◌<◌, IfNone, IfSome, slice_index};
ghost use Rattle.dsa_terms.specs.Claims.{Entry, IsIn};
ghost use Rattle.line_index.specs.Looks.{IsLacked, IsLook, IsUnmet};

use crate::levels::level_at;
use canonical_order::Claim;

/// What is seen of a claim k at the levels of a claim.
#[derive(Clone, Copy)]
pub(crate) enum Look {
    /// k covers the claim.
    Covers,
    /// A bound of k that the claim does not meet, though it has all buffers of k; in bytes.
    Unmet(u32, u64),
    /// A bound of k whose buffer the claim has not; in bytes.
    Lacks(u32, u64),
}

/// Of the bounds that the claim does not meet, though it has the buffer, the greatest: it stays
/// unmet for longest where lows rise.
fn highest_unmet(k: &Claim, levels: &[u64]) -> Option<(u32, u64)>
    ensures some { IfSome result (IsUnmet k.now levels.now) }
    ensures none { (e : Entry) → IsIn e k.now → 0 < slice_index levels.now e.0 →
        IfNone result (e.1 < slice_index levels.now e.0) }
{
    let mut highest = None;
    let mut most = 0;
    for pair in k.pairs() {
        let level = level_at(levels, pair.0 as usize);
        if level > 0 && level <= pair.1 && most <= pair.1 {
            most = pair.1;
            highest = Some(*pair);
        }
    }
    highest
}

/// A bound whose buffer the claim has not.
fn lacked(k: &Claim, levels: &[u64]) -> Option<(u32, u64)>
    ensures some { IfSome result (IsLacked k.now levels.now) }
    ensures none { (e : Entry) → IsIn e k.now → IfNone result (0 < slice_index levels.now e.0) }
{
    for pair in k.pairs() {
        if level_at(levels, pair.0 as usize) == 0 {
            return Some(*pair);
        }
    }
    None
}

/// Whether k covers the claim of the levels, and why not. That a buffer is missing is looked for
/// first: a line with such a buffer covers no claim below, so its watch stays for the claims above.
/// It takes no memory.
pub(crate) fn look_at(k: &Claim, levels: &[u64]) -> Look
    ensures { IsLook k.now levels.now result }
{
    if let Some((b, bound)) = lacked(k, levels) {
        return Look::Lacks(b, bound);
    }
    match highest_unmet(k, levels) {
        Some((b, bound)) => Look::Unmet(b, bound),
        None => Look::Covers,
    }
}
